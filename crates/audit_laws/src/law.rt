//! The laws, by name.

use std::fmt;

/// A law that the journal of every run keeps, in the order in which they are tried.
#[derive(Clone, Copy, Debug, PartialEq, Eq)]
pub enum Law {
    /// What any journal has, whatever its run.
    Shape,
    /// Every map line shows the list and the acting master that the members and their rows give.
    OneMap,
    /// The newest version in any store is the newest that was ever applied.
    NoLoss,
    /// Each replica of a settled partition holds the join of its view.
    SettledJoin,
    /// A read answers the join of its view, and a write makes the next version of it.
    ReadJoin,
}

/// The law's name, in lower case and without a space.
impl fmt::Display for Law {
    ghost use Rattle.std.specs.Prelude.{Some};
    ghost use Rattle.audit_laws.specs.Names.{law_name};

    ghost output = { λ law. Some (law_name law) };

    fn fmt<W: fmt::Write>(&self, f: &mut fmt::Formatter<W>) -> fmt::Result {
        match self {
            Law::Shape => f.write_str("shape"),
            Law::OneMap => f.write_str("onemap"),
            Law::NoLoss => f.write_str("noloss"),
            Law::SettledJoin => f.write_str("settledjoin"),
            Law::ReadJoin => f.write_str("readjoin"),
        }
    }
}
