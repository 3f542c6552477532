//! What each node holds of each record, and what it held after any number of lines.
ghost use Rattle.std.specs.Prelude.{◌≡◌, ◌==◌, ◌≤◌, ℕ, [], true, false, not, cond, Some, None, is_some, nat_lt, length, slice_get, option_map, IfOk, OnOk};
ghost use Rattle.std.specs.List.Sorted.{IsPartitionPoint};
ghost use Rattle.audit_state.specs.Histories.{AreUpTo, value_after, value_now};
ghost use Rattle.std.specs.HashMap as hash;
ghost use Rattle.audit_state.specs.Copies.{StandUpTo};
ghost use Rattle.audit_state.specs.Keys.{pair_eq};
ghost use Rattle.audit_state.specs.Stores.{history_of, held_of, touched_of, holding_of, changes_of, PutsContent, AddsToCopy, ClearsCopy, NotesChange};

use crate::copies::{Known, PartitionCopy};
use crate::history::History;
use cluster_types::{NoMemory, NodeId, PartitionId};
use std::alloc::Global;
use std::collections::HashMap;

/// What nodes hold, as the places of versions, and held.
#[derive(Drop)]
pub struct Stores {
    /// By node and record.
    contents: HashMap<(u16, usize), History>,
    /// By node and partition.
    copies: HashMap<(u16, u16), PartitionCopy>,
}

impl Stores {
    pub fn new(alloc: Global) -> Stores
        ensures contents { (n r : ℕ) → history_of result n r ≡ [] }
        ensures held { (n p : ℕ) → held_of result n p ≡ [] }
        ensures touched { (n p : ℕ) → touched_of result n p ≡ [] }
        ensures holding { (n p : ℕ) → holding_of result n p ≡ [] }
        ensures changes { (n p : ℕ) → changes_of result n p ≡ [] }
    {
        Stores {
            contents: HashMap::new(alloc),
            copies: HashMap::new(alloc),
        }
    }

    /// What the node held of the record after so many lines.
    pub fn content_at(&self, node: NodeId, number: usize, lines: usize) -> Option<usize>
        ensures { result ≡ value_after (history_of self.now node number) lines }
    {
        match self.contents.get(&(node.number(), number)) {
            None => None,
            Some(history) => history.at(lines),
        }
    }

    /// What the node holds of the record now.
    pub fn content(&self, node: NodeId, number: usize) -> Option<usize>
        ensures { result ≡ value_now (history_of self.now node number) }
    {
        match self.contents.get(&(node.number(), number)) {
            None => None,
            Some(history) => history.now(),
        }
    }

    /// Whether the node holds the record, and ever did.
    fn known(&self, node: NodeId, number: usize) -> Known
        ensures now { result.now ≡ is_some (value_now (history_of self.now node number)) }
        ensures ever { result.ever ≡ not (length (history_of self.now node number) == 0) }
    {
        match self.contents.get(&(node.number(), number)) {
            None => Known {
                now: false,
                ever: false,
            },
            Some(history) => Known {
                now: history.now().is_some(),
                ever: !history.is_empty(),
            },
        }
    }

    /// Whether the node had a record of the partition after so many lines.
    pub fn held_any_at(&self, node: NodeId, p: PartitionId, lines: usize) -> bool
        ensures { result ≡ is_some (value_after (holding_of self.now node p) lines) }
    {
        match self.copies.get(&(node.number(), p.number())) {
            None => false,
            Some(copy) => copy.holding.at(lines).is_some(),
        }
    }

    /// The records that the node's copy of the partition has.
    pub fn held(&self, node: NodeId, p: PartitionId) -> &[usize]
        ensures { result.now ≡ held_of self.now node p }
    {
        match self.copies.get(&(node.number(), p.number())) {
            None => &[],
            Some(copy) => copy.held.as_slice(),
        }
    }

    /// The records that it ever had.
    pub fn touched(&self, node: NodeId, p: PartitionId) -> &[usize]
        ensures { result.now ≡ touched_of self.now node p }
    {
        match self.copies.get(&(node.number(), p.number())) {
            None => &[],
            Some(copy) => copy.touched.as_slice(),
        }
    }

    /// How many changes of its records there were.
    pub fn change_count(&self, node: NodeId, p: PartitionId) -> usize
        ensures { result ≡ length (changes_of self.now node p) }
    {
        match self.copies.get(&(node.number(), p.number())) {
            None => 0,
            Some(copy) => copy.changes.len(),
        }
    }

    /// The record of the change at that place.
    pub fn change_at(&self, node: NodeId, p: PartitionId, place: usize) -> Option<usize>
        ensures { result
            ≡ option_map (λ x. x.number) (slice_get (changes_of self.now node p) place) }
    {
        match self.copies.get(&(node.number(), p.number())) {
            None => None,
            Some(copy) => copy.changes.record_at(place),
        }
    }

    /// The place, from 0, of the first change behind so many lines.
    pub fn first_change(&self, node: NodeId, p: PartitionId, lines: usize) -> usize
        ensures bound { result ≤ length (changes_of self.now node p) }
        ensures point { IsPartitionPoint (λ x. nat_lt x.line lines ≡ true)
            (λ x. nat_lt x.line lines ≡ false) (changes_of self.now node p) result }
    {
        match self.copies.get(&(node.number(), p.number())) {
            None => 0,
            Some(copy) => copy.changes.first_behind(lines),
        }
    }

    /// A version comes to the node, at whose line it stands, above what it held of the record.
    pub fn store(
        &mut self,
        alloc: Global,
        line: usize,
        node: NodeId,
        number: usize,
        p: PartitionId,
    ) -> Result<(), NoMemory>
        requires contents { AreUpTo line (history_of self.old node number) }
        requires holding { AreUpTo line (holding_of self.old node p) }
        requires changes { StandUpTo line (changes_of self.old node p) }
        ensures contents { OnOk result (PutsContent self.old self.new node number
            (record { line = line; value = Some line })) }
        ensures copies { OnOk result (AddsToCopy self.old self.new line node p number
            (is_some (value_now (history_of self.old node number)))
            (not (length (history_of self.old node number) == 0))) }
    {
        let known = self.known(node, number);
        self.put(alloc, line, node, number, Some(line))?;
        self.add(alloc, line, node, number, p, known)
    }

    /// The node holds nothing of the record from the line on.
    pub fn remove(
        &mut self,
        alloc: Global,
        line: usize,
        node: NodeId,
        number: usize,
        p: PartitionId,
    ) -> Result<(), NoMemory>
        requires contents { AreUpTo line (history_of self.old node number) }
        requires changes { StandUpTo line (changes_of self.old node p) }
        ensures contents { OnOk result
            (PutsContent self.old self.new node number (record { line = line; value = None })) }
        ensures copies { OnOk result (NotesChange self.old self.new line node p number) }
    {
        self.put(alloc, line, node, number, None)?;
        self.note(alloc, line, node, number, p)
    }

    /// What the node holds of the record becomes this at the line.
    fn put(
        &mut self,
        alloc: Global,
        line: usize,
        node: NodeId,
        number: usize,
        place: Option<usize>,
    ) -> Result<(), NoMemory>
        requires { AreUpTo line (history_of self.old node number) }
        ensures contents { OnOk result
            (PutsContent self.old self.new node number (record { line = line; value = place })) }
        ensures copies { OnOk result (self.new.copies ≡ self.old.copies) }
    {
        let mut history = self.take_history(alloc, node, number);
        history.put(line, place)?;
        self.put_history(node, number, history)
    }

    fn add(
        &mut self,
        alloc: Global,
        line: usize,
        node: NodeId,
        number: usize,
        p: PartitionId,
        known: Known,
    ) -> Result<(), NoMemory>
        requires holding { AreUpTo line (holding_of self.old node p) }
        requires changes { StandUpTo line (changes_of self.old node p) }
        ensures copies { OnOk result
            (AddsToCopy self.old self.new line node p number known.now known.ever) }
        ensures contents { OnOk result (self.new.contents ≡ self.old.contents) }
    {
        let mut copy = self.take_copy(alloc, node, p);
        copy.add(line, number, known)?;
        self.put_copy(node, p, copy)
    }

    /// The node's copy of the partition has no record any longer. Answers those that it had.
    pub fn take_held(
        &mut self,
        alloc: Global,
        line: usize,
        node: NodeId,
        p: PartitionId,
    ) -> Result<Vec<usize>, NoMemory>
        requires { AreUpTo line (holding_of self.old node p) }
        ensures dropped { IfOk result (λ dropped. dropped.items ≡ held_of self.old node p) }
        ensures contents { OnOk result (self.new.contents ≡ self.old.contents) }
        ensures copies { OnOk result (ClearsCopy self.old self.new line node p) }
    {
        let mut copy = self.take_copy(alloc, node, p);
        let dropped = copy.clear(alloc, line)?;
        self.put_copy(node, p, copy)?;
        Ok(dropped)
    }

    /// Notes that the record changed at the line.
    fn note(
        &mut self,
        alloc: Global,
        line: usize,
        node: NodeId,
        number: usize,
        p: PartitionId,
    ) -> Result<(), NoMemory>
        requires { StandUpTo line (changes_of self.old node p) }
        ensures contents { OnOk result (self.new.contents ≡ self.old.contents) }
        ensures copies { OnOk result (NotesChange self.old self.new line node p number) }
    {
        let mut copy = self.take_copy(alloc, node, p);
        copy.change(line, number)?;
        self.put_copy(node, p, copy)
    }

    /// Takes the history out, which is empty where there is none.
    fn take_history(&mut self, alloc: Global, node: NodeId, number: usize) -> History
        ensures history { result ≡ history_of self.old node number }
        ensures others { (q : ℕ × ℕ)
            → hash.get pair_eq self.new.contents q
            ≡ cond (pair_eq (node, number) q) None (hash.get pair_eq self.old.contents q) }
        ensures copies { self.new.copies ≡ self.old.copies }
    {
        match self.contents.remove(&(node.number(), number)) {
            None => History::new(alloc),
            Some(history) => history,
        }
    }

    fn put_history(&mut self, node: NodeId, number: usize, history: History) -> Result<(), NoMemory>
        ensures history { OnOk result
            ((q : ℕ × ℕ)
            → hash.get pair_eq self.new.contents q ≡ cond (pair_eq (node, number) q)
            (Some history) (hash.get pair_eq self.old.contents q)) }
        ensures copies { OnOk result (self.new.copies ≡ self.old.copies) }
    {
        self.contents.insert((node.number(), number), history)?;
        Ok(())
    }

    /// Takes the copy out, which is new where there is none.
    fn take_copy(&mut self, alloc: Global, node: NodeId, p: PartitionId) -> PartitionCopy
        ensures held { result.held.items ≡ held_of self.old node p }
        ensures touched { result.touched.items ≡ touched_of self.old node p }
        ensures holding { result.holding ≡ holding_of self.old node p }
        ensures changes { result.changes ≡ changes_of self.old node p }
        ensures others { (q : ℕ × ℕ)
            → hash.get pair_eq self.new.copies q
            ≡ cond (pair_eq (node, p) q) None (hash.get pair_eq self.old.copies q) }
        ensures contents { self.new.contents ≡ self.old.contents }
    {
        match self.copies.remove(&(node.number(), p.number())) {
            None => PartitionCopy::new(alloc),
            Some(copy) => copy,
        }
    }

    fn put_copy(
        &mut self,
        node: NodeId,
        p: PartitionId,
        copy: PartitionCopy,
    ) -> Result<(), NoMemory>
        ensures copy { OnOk result
            ((q : ℕ × ℕ)
            → hash.get pair_eq self.new.copies q
            ≡ cond (pair_eq (node, p) q) (Some copy) (hash.get pair_eq self.old.copies q)) }
        ensures contents { OnOk result (self.new.contents ≡ self.old.contents) }
    {
        self.copies.insert((node.number(), p.number()), copy)?;
        Ok(())
    }
}
