//! A walk over the open transactions.
ghost use Rattle.std.specs.Iterator.{YieldsFirstRef, item_count};

use crate::txn::Txn;
use std::collections::vec_deque::Iter;
use std::marker::Model;

/// The open transactions that are still to come, in rising order of their numbers.
#[derive(Drop)]
pub struct OpenTxns<'a> {
    pub(crate) slots: Iter<'a, Option<Txn>>,
}

impl<'a> Model for OpenTxns<'a> {
    ghost use Rattle.std.specs.Prelude.{List};
    ghost use Rattle.std.specs.VecDeque.Iter.{deque_iter_rest};
    ghost use Rattle.dup_resolve.specs.declared.txn.Txn.{Txn};
    ghost use Rattle.dup_resolve.specs.Places.{running_of};

    ghost Value = { List Txn };

    ghost view = { λ it. running_of (deque_iter_rest it.slots) };
}

impl<'a> Iterator for OpenTxns<'a> {
    type Item = &'a Txn;

    ghost next_gives = { YieldsFirstRef (λ rest. rest) };

    ghost remaining = { item_count (λ rest. rest) };

    fn next(&mut self) -> Option<&'a Txn> {
        while let Some(slot) = self.slots.next() {
            if let Some(txn) = slot {
                return Some(txn);
            }
        }
        None
    }
}
