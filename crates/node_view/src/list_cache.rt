//! The lists of the partitions over members that came before.
ghost use Rattle.std.specs.Prelude.{◌≡◌, [], IfOk, position};
ghost use Rattle.cluster_types.specs.MembersEqual.{same_members};

use cluster_types::{Members, NoMemory};
use partition_lists::Lists;
use std::alloc::Global;

/// Over how many sets of members the lists are kept.
const KEPT: usize = 4;

/// The lists over the members that they were wanted for last, the latest last. They are no fact of
/// the node: a stop keeps them.
#[derive(Drop)]
pub struct ListCache {
    kept: Vec<Lists>,
}

impl ListCache {
    /// No lists, without memory.
    pub fn new(alloc: Global) -> ListCache
        ensures { result.kept.items ≡ [] }
    {
        ListCache {
            kept: Vec::new(alloc),
        }
    }

    /// The lists over these members. They are hashed where they aren't kept.
    pub fn lists(&mut self, alloc: Global, members: &Members) -> Result<Lists, NoMemory>
        ensures { IfOk result (λ lists. lists ≡ members.now) }
    {
        if members.len() == 1 {
            return Lists::of(alloc, members);
        }
        let lists = self.take(alloc, members)?;
        let copy = lists.copy(alloc)?;
        self.keep(lists)?;
        Ok(copy)
    }

    /// The lists over these members, taken out where they are kept, and hashed where they aren't.
    fn take(&mut self, alloc: Global, members: &Members) -> Result<Lists, NoMemory>
        ensures { IfOk result (λ lists. lists ≡ members.now) }
    {
        match self.place_of(members) {
            Some(place) => Ok(self.kept.remove(place)),
            None => Lists::of(alloc, members),
        }
    }

    fn place_of(&self, members: &Members) -> Option<usize>
        ensures { result ≡ position (λ kept. same_members kept members.now) self.now.kept.items }
    {
        self.kept
            .iter()
            .position(|lists| lists.members() == members)
    }

    /// Keeps the lists as the latest, in place of the oldest where there is no place left.
    fn keep(&mut self, lists: Lists) -> Result<(), NoMemory> {
        if self.kept.len() == KEPT {
            self.kept.remove(0);
        }
        self.kept.push(lists)?;
        Ok(())
    }
}
