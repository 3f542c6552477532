//! The states of a node's copies.
ghost use Rattle.std.specs.Prelude.{◌≡◌, ◌≢◌, ◌<◌, ◌++◌, ◌∷◌, [], ℕ, List, length, All, IfOk, IfSome, IfNone, OnOk, OnErr};
ghost use Rattle.cluster_types.specs.StateRows.{IsStateRow, IsPlaceOf, state_of};
ghost use Rattle.cluster_types.specs.declared.copy_state.CopyState.TheVariants.{Empty};

use crate::NoMemory;
use crate::copy_state::CopyState;
use crate::partition::PartitionId;
use std::alloc::Global;
use std::marker::Model;

/// The state of each of the 4,096 copies of a node, kept as those that aren't empty, in rising
/// order of their partitions.
#[derive(Debug, Drop)]
pub struct StateRow {
    entries: Vec<(PartitionId, CopyState)>,
}

impl Model for StateRow {
    ghost use Rattle.std.specs.Prelude.{List, ℕ};
    ghost use Rattle.cluster_types.specs.declared.copy_state.CopyState.{CopyState};
    ghost use Rattle.cluster_types.specs.StateRows.{IsStateRow};

    ghost Value = { List (ℕ × CopyState) };

    ghost view = { λ r. r.entries.items };

    ghost invariant = { λ r. IsStateRow r.entries.items };
}

impl StateRow {
    /// A row in which every copy is empty, without memory.
    pub fn new(alloc: Global) -> StateRow
        ensures { result ≡ [] }
    {
        StateRow {
            entries: Vec::new(alloc),
        }
    }

    /// The state of the partition's copy.
    pub fn get(&self, p: PartitionId) -> CopyState
        ensures { result ≡ state_of self.now p }
    {
        match place_of(p, &self.entries) {
            Some(i) => self.entries[i].1,
            None => CopyState::Empty,
        }
    }

    /// An equal row of its own.
    pub fn copy(&self, alloc: Global) -> Result<StateRow, NoMemory>
        ensures { IfOk result (λ r. r ≡ self.now) }
    {
        let entries = Vec::from_slice(alloc, self.entries())?;
        Ok(StateRow { entries })
    }

    /// Adds the state of a partition above all entries.
    pub fn add(&mut self, p: PartitionId, state: CopyState) -> Result<(), NoMemory>
        requires above { All (λ e. e.0 < p) self.old }
        requires kept { state ≢ Empty }
        ensures ok { OnOk result (self.new ≡ self.old ++ (p, state) ∷ []) }
        ensures err { OnErr result (self.new ≡ self.old) }
    {
        self.entries.push((p, state))?;
        Ok(())
    }

    /// How many copies aren't empty.
    pub fn len(&self) -> usize
        ensures { result ≡ length self.now }
    {
        self.entries.len()
    }

    /// The copies that aren't empty, in rising order of their partitions.
    pub fn entries(&self) -> &[(PartitionId, CopyState)]
        ensures same { result.now ≡ self.now }
        ensures valid { IsStateRow self.now }
    {
        self.entries.as_slice()
    }
}

/// The place of the partition's entry.
fn place_of(p: PartitionId, entries: &[(PartitionId, CopyState)]) -> Option<usize>
    requires { IsStateRow entries.now }
    ensures found { IfSome result (IsPlaceOf p entries.now) }
    ensures missing { IfNone result (All (λ e. e.0 ≢ p) entries.now) }
{
    entries.binary_search_by_key(&p, |entry| entry.0).ok()
}
