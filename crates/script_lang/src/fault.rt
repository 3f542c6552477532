//! Why bytes are no script.
ghost use Rattle.std.specs.Prelude.{◌≡◌};
ghost use Rattle.script_lang.specs.Reading.{fault_at};

use std::alloc::{AllocError, AllocFailed};
use std::error::Error;
use std::fmt;

/// What is wrong with a line. Where several hold, the first in this order is named.
#[derive(Clone, Copy, Debug, PartialEq, Eq)]
pub enum Cause {
    /// The line isn't UTF-8.
    BadUtf8,
    /// The first field is no word of the version in force.
    UnknownWord,
    /// Lines of this word aren't served, with as many nodes as are declared.
    NotBuilt,
    /// A header line follows a command.
    HeaderLate,
    /// There are fewer fields than the form has.
    MissingField,
    /// There are more fields than the form has.
    ExtraField,
    /// A field is no number, or one outside of its range.
    BadNumber,
    /// The factor isn't 1 to 4.
    BadFactor,
    /// The field is no policy's name.
    BadPolicy,
    /// The node isn't declared.
    UnknownNode,
    /// The node is declared already.
    RepeatedNode,
    /// Sixteen nodes are declared already.
    TooManyNodes,
    /// A mark isn't followed by exactly forty hexadecimal digits.
    BadDigest,
    /// The value has more than 128 bytes.
    TooLongValue,
    /// A node stands in two groups or in none, or a group is empty.
    BadGroups,
    /// The version isn't the one in force, and a header line that rests on it stands before.
    VersionLate,
}

/// The cause's name.
impl fmt::Display for Cause {
    ghost use Rattle.std.specs.Prelude.{Some};
    ghost use Rattle.script_lang.specs.Causes.{cause_name};

    ghost output = { λ cause. Some (cause_name cause) };

    fn fmt<W: fmt::Write>(&self, f: &mut fmt::Formatter<W>) -> fmt::Result {
        match self {
            Cause::BadUtf8 => f.write_str("BadUtf8"),
            Cause::UnknownWord => f.write_str("UnknownWord"),
            Cause::NotBuilt => f.write_str("NotBuilt"),
            Cause::HeaderLate => f.write_str("HeaderLate"),
            Cause::MissingField => f.write_str("MissingField"),
            Cause::ExtraField => f.write_str("ExtraField"),
            Cause::BadNumber => f.write_str("BadNumber"),
            Cause::BadFactor => f.write_str("BadFactor"),
            Cause::BadPolicy => f.write_str("BadPolicy"),
            Cause::UnknownNode => f.write_str("UnknownNode"),
            Cause::RepeatedNode => f.write_str("RepeatedNode"),
            Cause::TooManyNodes => f.write_str("TooManyNodes"),
            Cause::BadDigest => f.write_str("BadDigest"),
            Cause::TooLongValue => f.write_str("TooLongValue"),
            Cause::BadGroups => f.write_str("BadGroups"),
            Cause::VersionLate => f.write_str("VersionLate"),
        }
    }
}

/// Why a line says nothing.
#[derive(Clone, Copy, Debug, PartialEq, Eq)]
pub enum LineFault {
    /// The line is bad.
    Bad(Cause),
    /// The allocator refused.
    NoMemory,
}

impl LineFault {
    /// The same fault, of a script with that line.
    pub fn at(self, line: u64) -> ScriptFault
        ensures { result ≡ fault_at line self }
    {
        match self {
            LineFault::Bad(cause) => ScriptFault::At { line, cause },
            LineFault::NoMemory => ScriptFault::NoMemory,
        }
    }
}

impl From<Cause> for LineFault {
    ghost use Rattle.std.specs.Prelude.{◌≡◌};
    ghost use Rattle.script_lang.specs.declared.fault.LineFault.TheVariants.{Bad};

    ghost from_gives = { λ cause fault. fault ≡ Bad cause };

    fn from(cause: Cause) -> LineFault {
        LineFault::Bad(cause)
    }
}

impl From<AllocError> for LineFault {
    ghost use Rattle.std.specs.Prelude.{◌≡◌};
    ghost use Rattle.script_lang.specs.declared.fault.LineFault.TheVariants.{NoMemory};

    ghost from_gives = { λ _ fault. fault ≡ NoMemory };

    fn from(_refused: AllocError) -> LineFault {
        LineFault::NoMemory
    }
}

impl<T: Drop> From<AllocFailed<T>> for LineFault {
    ghost use Rattle.std.specs.Prelude.{◌≡◌};
    ghost use Rattle.script_lang.specs.declared.fault.LineFault.TheVariants.{NoMemory};

    ghost from_gives = { λ _ fault. fault ≡ NoMemory };

    fn from(_refused: AllocFailed<T>) -> LineFault {
        LineFault::NoMemory
    }
}

/// Why bytes are no script.
#[derive(Clone, Copy, Debug, PartialEq, Eq)]
pub enum ScriptFault {
    /// The first bad line, counted from 1, and its cause.
    At { line: u64, cause: Cause },
    /// The allocator refused.
    NoMemory,
}

impl fmt::Display for ScriptFault {
    ghost use Rattle.std.specs.Prelude.{Some};
    ghost use Rattle.script_lang.specs.Causes.{fault_text};

    ghost output = { λ f. Some (fault_text f) };

    fn fmt<W: fmt::Write>(&self, f: &mut fmt::Formatter<W>) -> fmt::Result {
        match self {
            ScriptFault::At { line, cause } => write!(f, "line {line}: {cause}"),
            ScriptFault::NoMemory => write!(f, "no memory"),
        }
    }
}

impl Error for ScriptFault {}

impl From<AllocError> for ScriptFault {
    ghost use Rattle.std.specs.Prelude.{◌≡◌};
    ghost use Rattle.script_lang.specs.declared.fault.ScriptFault.TheVariants.{NoMemory};

    ghost from_gives = { λ _ fault. fault ≡ NoMemory };

    fn from(_refused: AllocError) -> ScriptFault {
        ScriptFault::NoMemory
    }
}

impl<T: Drop> From<AllocFailed<T>> for ScriptFault {
    ghost use Rattle.std.specs.Prelude.{◌≡◌};
    ghost use Rattle.script_lang.specs.declared.fault.ScriptFault.TheVariants.{NoMemory};

    ghost from_gives = { λ _ fault. fault ≡ NoMemory };

    fn from(_refused: AllocFailed<T>) -> ScriptFault {
        ScriptFault::NoMemory
    }
}
