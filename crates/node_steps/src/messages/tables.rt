//! The table that is told to the client.
ghost use Rattle.std.specs.Prelude.{◌≡◌, true, IfOk};
ghost use Rattle.wire_messages.specs.Keys.{IsKeyField};
ghost use Rattle.node_rules.specs.Facts.{Facts};
ghost use Rattle.node_rules.specs.Messages.{due_map_ask, map_table};
ghost use Rattle.node_steps.specs.Spelled.{spelled};
ghost use Rattle.node_view.specs.Views.{IsInView, viewed_key};

use crate::effects::Effects;
use crate::fields::ids_fit;
use cluster_types::{Boxed, NoMemory, PARTITIONS, PartitionId, Row4096};
use node_view::View;
use std::alloc::Global;
use wire_messages::{BoxedIds, MapTable, Message};

/// The client, as an endpoint of messages.
const CLIENT: u16 = 0;

/// The table to the client, once the exchange is finished.
pub fn tell_table(alloc: Global, view: &View) -> Result<Effects, NoMemory>
    requires { IsKeyField (viewed_key view.now) }
    ensures { (f : Facts) → IsInView f view.now → IfOk result (λ e. e ≡ spelled (due_map_ask f)) }
{
    let mut out = Effects::new(alloc);
    if !view.has_exchanged() {
        return Ok(out);
    }
    let table = map_table(alloc, view)?;
    ids_fit(table.ids.as_slice());
    out.send(alloc, CLIENT, Message::MapTable(table))?;
    Ok(out)
}

/// Whom the client is to ask for each partition.
fn map_table(alloc: Global, view: &View) -> Result<MapTable, NoMemory>
    requires { view.now.exchange.exchanged ≡ true }
    ensures { (f : Facts) → IsInView f view.now → IfOk result (λ t. t ≡ map_table f) }
{
    let mut ids = [view.me(); 4096];
    let mut moved = Row4096::new();
    for number in 0..PARTITIONS {
        if let Some(p) = PartitionId::new(number) {
            ids[usize::from(number)] = view.named(p);
            if view.has_moved(p) {
                moved.put(p);
            }
        }
    }
    Ok(MapTable {
        key: view.key(),
        ids: BoxedIds::new(alloc, ids)?,
        moved: Boxed::new(alloc, moved)?,
    })
}
