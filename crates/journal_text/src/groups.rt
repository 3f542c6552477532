//! The text of groups.
ghost use Rattle.std.specs.Prelude.{Some};
ghost use Rattle.journal_text.specs.Values as texts;

use cluster_types::{NodeId, NodeList};
use std::fmt;

/// Ids, each with a space before it.
#[derive(Clone, Copy)]
struct IdsText<'a>(&'a [NodeId]);

impl fmt::Display for IdsText<'_> {
    ghost output = { λ l. Some (texts.ids_text l.0.now) };

    fn fmt<W: fmt::Write>(&self, f: &mut fmt::Formatter<W>) -> fmt::Result {
        for id in self.0 {
            write!(f, " {id}")?;
        }
        Ok(())
    }
}

/// Groups, each with a bar before it.
#[derive(Clone, Copy)]
struct MoreGroupsText<'a>(&'a [NodeList]);

impl fmt::Display for MoreGroupsText<'_> {
    ghost output = { λ l. Some (texts.more_groups_text l.0.now) };

    fn fmt<W: fmt::Write>(&self, f: &mut fmt::Formatter<W>) -> fmt::Result {
        for group in self.0 {
            let group = IdsText(group.as_slice());
            write!(f, " |{group}")?;
        }
        Ok(())
    }
}

/// Groups with bars between them, and a space before each id and bar.
#[derive(Clone, Copy)]
pub struct GroupsText<'a>(pub &'a [NodeList]);

impl fmt::Display for GroupsText<'_> {
    ghost output = { λ l. Some (texts.groups_text l.0.now) };

    fn fmt<W: fmt::Write>(&self, f: &mut fmt::Formatter<W>) -> fmt::Result {
        match self.0 {
            [] => Ok(()),
            [first, more @ ..] => {
                let first = IdsText(first.as_slice());
                let more = MoreGroupsText(more);
                write!(f, "{first}{more}")
            }
        }
    }
}
