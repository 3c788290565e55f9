//! Why the driver stopped before the output was whole.

ghost use Rattle.std.specs.Prelude.{◌≡◌};
ghost use Rattle.ptu_report.specs.declared.stop.Stop.TheVariants.{OutOfMemory as NoMemory};

use ptu_units::OutOfMemory;
use thiserror::Error;

/// Why a program over lines stopped before its output was whole.
#[derive(Clone, Copy, Debug, PartialEq, Eq, Error)]
pub enum Stop {
    /// The source failed.
    #[error("the source failed")]
    Read,
    /// The sink failed.
    #[error("the sink failed")]
    Write,
    #[error("no memory was found")]
    OutOfMemory,
}

impl From<OutOfMemory> for Stop {
    ghost from_gives = { λ _ stop. stop ≡ NoMemory };

    fn from(_: OutOfMemory) -> Stop {
        Stop::OutOfMemory
    }
}
