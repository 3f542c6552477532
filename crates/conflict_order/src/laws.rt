//! The laws of the order, of the join and of what a write makes, under each policy. A call does
//! nothing: what it ensures is the law.
ghost use Rattle.std.specs.Cmp.{IsTotalOrder};
ghost use Rattle.std.specs.FinMap.{IsAntisymmetric};
ghost use Rattle.conflict_order.specs.declared.policy.Policy.{Policy};
ghost use Rattle.conflict_order.specs.Join.{IsOrder, IsJoin};
ghost use Rattle.conflict_order.specs.Next.{IsNewerNext};
ghost use Rattle.conflict_order.specs.Order.{version_cmp};

/// The order of versions is total, and only equal versions compare as equal.
pub fn order_is_total()
    ensures total { (by : Policy) → IsTotalOrder (version_cmp by) }
    ensures equality { (by : Policy) → IsAntisymmetric (version_cmp by) }
{}

/// "At most" is an order of optional versions, with nothing below every version.
pub fn at_most_is_an_order()
    ensures { (by : Policy) → IsOrder by }
{}

/// The join is the greater of its two arguments, and so depends on neither their order nor their
/// number.
pub fn join_is_the_greater()
    ensures { (by : Policy) → IsJoin by }
{}

/// A write makes a newer version, as long as generations can rise.
pub fn next_is_newer()
    ensures { (by : Policy) → IsNewerNext by }
{}
