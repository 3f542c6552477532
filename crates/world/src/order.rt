//! Ids in rising and in falling order.
ghost use Rattle.std.specs.Prelude.{◌≡◌, nat_lt};
ghost use Rattle.partition_lists.specs.Lists.{in_order};

use cluster_types::{NodeId, NodeList};

/// These ids in rising order.
pub(crate) fn rising(ids: &NodeList) -> NodeList
    ensures { result ≡ in_order nat_lt ids.now }
{
    let mut places = [NodeId::MIN; 16];
    let places = &mut places[..ids.len()];
    places.copy_from_slice(ids.as_slice());
    places.sort_unstable();
    match NodeList::from_slice(places) {
        Ok(ids) => ids,
        Err(_) => unreachable!(),
    }
}

/// These ids in falling order.
pub(crate) fn falling(ids: &NodeList) -> NodeList
    ensures { result ≡ in_order (λ m n. nat_lt n m) ids.now }
{
    let mut places = [NodeId::MIN; 16];
    let places = &mut places[..ids.len()];
    places.copy_from_slice(ids.as_slice());
    places.sort_unstable_by(|m, n| n.cmp(m));
    match NodeList::from_slice(places) {
        Ok(ids) => ids,
        Err(_) => unreachable!(),
    }
}
