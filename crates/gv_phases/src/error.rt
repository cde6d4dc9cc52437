use gv_base::{OutOfMemory, Refusal};
use thiserror::Error;

/// Why a unit goes no further.
#[derive(Clone, Copy, Debug, PartialEq, Eq, Error)]
pub enum PhaseError {
    /// The first refusal of the phase.
    #[error("refused")]
    Refused(Refusal),
    #[error("out of memory")]
    OutOfMemory,
}

impl From<OutOfMemory> for PhaseError {
    ghost use Rattle.std.specs.Prelude.{◌≡◌};
    ghost use Rattle.gv_phases.specs.declared.error.PhaseError.TheVariants.{OutOfMemory};

    ghost from_gives = { λ _ e. e ≡ OutOfMemory };

    fn from(_: OutOfMemory) -> PhaseError {
        PhaseError::OutOfMemory
    }
}

/// Why the names of a script aren't resolved.
#[derive(Clone, Copy, Debug, PartialEq, Eq, Error)]
pub enum ResolveError {
    /// The script's first refusal.
    #[error("refused")]
    Refused(Refusal),
    #[error("out of memory")]
    OutOfMemory,
}

impl From<OutOfMemory> for ResolveError {
    ghost use Rattle.std.specs.Prelude.{◌≡◌};
    ghost use Rattle.gv_phases.specs.declared.error.ResolveError.TheVariants.{OutOfMemory};

    ghost from_gives = { λ _ e. e ≡ OutOfMemory };

    fn from(_: OutOfMemory) -> ResolveError {
        ResolveError::OutOfMemory
    }
}
