//! What an audit answers.
ghost use Rattle.std.specs.Prelude.{◌≡◌, false, IsTrue, OnOk, IfErr};

use audit_laws::Law;
use cluster_types::NoMemory;
use std::alloc::AllocFailed;
use std::fmt;

/// What an audit found.
#[derive(Clone, Copy, Debug, PartialEq, Eq)]
pub enum Verdict {
    /// The journal keeps every law.
    Holds,
    /// The journal's first `line` lines break the law, and none before it in its order; fewer lines
    /// break none.
    Fails { law: Law, line: u64 },
}

/// `holds`, or `fails` with the law's name and the line's number.
impl fmt::Display for Verdict {
    ghost use Rattle.std.specs.Prelude.{Some};
    ghost use Rattle.audit_core.specs.VerdictTexts.{verdict_text};

    ghost output = { λ verdict. Some (verdict_text verdict) };

    fn fmt<W: fmt::Write>(&self, f: &mut fmt::Formatter<W>) -> fmt::Result {
        match self {
            Verdict::Holds => f.write_str("holds"),
            Verdict::Fails { law, line } => write!(f, "fails {law} {line}"),
        }
    }
}

/// Why an audit stops at a line.
#[derive(Clone, Copy, Debug, PartialEq, Eq)]
pub(crate) enum Stop {
    /// The line doesn't fit the law.
    Breaks(Law),
    NoMemory,
}

impl From<NoMemory> for Stop {
    ghost use Rattle.std.specs.Prelude.{◌≡◌};
    ghost use Rattle.audit_core.specs.declared.verdict.Stop.TheVariants as stop;

    ghost from_gives = { λ _ answer. answer ≡ stop.NoMemory };

    fn from(_refused: NoMemory) -> Stop {
        Stop::NoMemory
    }
}

impl<T: Drop> From<AllocFailed<T>> for Stop {
    ghost use Rattle.std.specs.Prelude.{◌≡◌};
    ghost use Rattle.audit_core.specs.declared.verdict.Stop.TheVariants as stop;

    ghost from_gives = { λ _ answer. answer ≡ stop.NoMemory };

    fn from(_refused: AllocFailed<T>) -> Stop {
        Stop::NoMemory
    }
}

/// Goes on where the line fits the law.
pub(crate) fn demand(fits: bool, law: Law) -> Result<(), Stop>
    ensures ok { OnOk result (IsTrue fits) }
    ensures err { IfErr result (λ stop. (stop ≡ Stop.Breaks law) × (fits ≡ false)) }
{
    if fits { Ok(()) } else { Err(Stop::Breaks(law)) }
}
