//! Values that are written as a word.
ghost use Rattle.std.specs.Prelude.{◌≡◌};
ghost use Rattle.journal_reader.specs.Fields as grammar;

use conflict_order::{Action, Policy};

#[tactic(auto, unfolding(crate::specs::Fields::parsed_policy))]
pub fn policy_of(text: &[u8]) -> Option<Policy>
    ensures { result ≡ grammar.parsed_policy text.now }
{
    if text == b"time".as_slice() {
        return Some(Policy::Time);
    }
    if text == b"generation".as_slice() {
        return Some(Policy::Generation);
    }
    None
}

#[tactic(auto, unfolding(crate::specs::Fields::parsed_action))]
pub fn action_of(text: &[u8]) -> Option<Action>
    ensures { result ≡ grammar.parsed_action text.now }
{
    if text == b"get".as_slice() {
        return Some(Action::Get);
    }
    if text == b"put".as_slice() {
        return Some(Action::Put);
    }
    if text == b"del".as_slice() {
        return Some(Action::Del);
    }
    None
}
