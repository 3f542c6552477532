//! Why a step isn't taken.
use cluster_types::NoMemory;

/// Why a step wasn't taken. The world is then as it was.
#[derive(Clone, Copy, Debug, PartialEq, Eq)]
pub enum StepFault {
    /// The journal would pass one of its limits.
    RunTooLong,
    /// Memory was refused.
    NoMemory,
}

impl From<NoMemory> for StepFault {
    ghost use Rattle.std.specs.Prelude.{◌≡◌};
    ghost use Rattle.world.specs.declared.fault.StepFault.TheVariants as fault;

    ghost from_gives = { λ _ answer. answer ≡ fault.NoMemory };

    fn from(_refused: NoMemory) -> StepFault {
        StepFault::NoMemory
    }
}
