//! The client's table.
ghost use Rattle.std.specs.Prelude.{◌≡◌, ◌≢◌, ◌<◌, ◌++◌, ◌∷◌, [], ℕ, None, Some, All, IfOk, length, slice_index_or};
ghost use Rattle.cluster_types.specs.Partitions.{partition_count};
ghost use Rattle.std.specs.Option.{option_map};
ghost use Rattle.node_rules.specs.Client.{Tables, node_for};
ghost use Rattle.client_map.specs.Entries.{Holds, told_entry, is_later, later_entry};

use cluster_types::{ClusterKey, NoMemory, NodeId, PARTITIONS, PartitionId};
use std::alloc::Global;
use std::marker::Model;
use wire_messages::MapTable;

/// Which node acts on a partition, as a table told.
#[derive(Clone, Copy, Debug)]
pub(crate) struct Entry {
    key: ClusterKey,
    /// Whether the partition has moved to the first of its list.
    moved: bool,
    node: NodeId,
}

/// Which node the client asks for each partition.
#[derive(Debug, Drop)]
pub struct ClientMap {
    entries: Vec<Option<Entry>>,
}

impl Model for ClientMap {
    ghost use Rattle.std.specs.Prelude.{◌≡◌, List, Option, length};
    ghost use Rattle.cluster_types.specs.Partitions.{partition_count};
    ghost use Rattle.client_map.specs.declared.client_map.Entry.{Entry};

    ghost Value = { List (Option Entry) };

    ghost view = { λ m. m.entries.items };

    ghost invariant = { λ m. length m.entries.items ≡ partition_count };
}

impl ClientMap {
    /// No table came.
    pub fn new(alloc: Global) -> Result<ClientMap, NoMemory>
        ensures { IfOk result (Holds []) }
    {
        Ok(ClientMap {
            entries: no_entries(alloc)?,
        })
    }

    /// A table came. It replaces a partition's entry exactly where it has a greater key, or the same
    /// key and the partition has moved only in it.
    pub fn refresh(&mut self, table: &MapTable)
        ensures { (ts : Tables) → Holds ts self.old → Holds (ts ++ table.now ∷ []) self.new }
    {
        refresh_each(&mut self.entries, table);
    }

    /// The node that the client asks for the partition. `None` exactly where no table came.
    pub fn node_of(&self, p: PartitionId) -> Option<NodeId>
        ensures value { (ts : Tables) → Holds ts self.now → result ≡ node_for ts p }
        ensures told { (ts : Tables) → Holds ts self.now → ts ≢ [] → result ≢ None }
    {
        node_in(&self.entries, p)
    }
}

/// No entry for each partition.
fn no_entries(alloc: Global) -> Result<Vec<Option<Entry>>, NoMemory>
    ensures { IfOk result (λ entries.
        record {
          size : length entries.items ≡ partition_count;
          none : All (λ e. e ≡ None) entries.items;
        }) }
{
    let mut entries = Vec::with_capacity(alloc, PARTITIONS as usize)?;
    for _ in 0..PARTITIONS {
        entries.push(None)?;
    }
    Ok(entries)
}

/// The later of each partition's entry and of what the table tells of it.
fn refresh_each(entries: &mut [Option<Entry>], table: &MapTable)
    requires { length entries.old ≡ partition_count }
    ensures { (p : ℕ) → p < partition_count
        → slice_index_or entries.new p None
        ≡ Some (later_entry (slice_index_or entries.old p None) (told_entry p table.now)) }
{
    for number in 0..PARTITIONS {
        if let Some(p) = PartitionId::new(number) {
            let place = usize::from(number);
            entries[place] = Some(later_entry(&entries[place], &entry_of(table, p)));
        }
    }
}

fn node_in(entries: &[Option<Entry>], p: PartitionId) -> Option<NodeId>
    requires { length entries.now ≡ partition_count }
    ensures value { result ≡ option_map (λ e. e.node) (slice_index_or entries.now p None) }
    ensures range { p < partition_count }
{
    match &entries[usize::from(p.number())] {
        Some(entry) => Some(entry.node),
        None => None,
    }
}

/// What the table tells of the partition.
fn entry_of(table: &MapTable, p: PartitionId) -> Entry
    ensures { result ≡ told_entry p table.now }
{
    Entry {
        key: table.key,
        moved: table.moved.get().get(p),
        node: table.ids.get(p),
    }
}

/// The new entry if there is none before or one that it is later than.
fn later_entry(before: &Option<Entry>, entry: &Entry) -> Entry
    ensures { result ≡ later_entry before.now entry.now }
{
    match before {
        Some(before) => {
            if is_later(entry, before) {
                *entry
            } else {
                *before
            }
        }
        None => *entry,
    }
}

/// Whether the first entry has a greater key, or the same key and only it has moved.
fn is_later(a: &Entry, b: &Entry) -> bool
    ensures { result ≡ is_later a.now b.now }
{
    b.key < a.key || (a.key == b.key && a.moved && !b.moved)
}
