//! Why a daemon ended before its last round, or without its closing line.

ghost use Rattle.std.specs.Prelude.{◌≡◌};
ghost use Rattle.ptu_outside.specs.declared.fault.DaemonFault.TheVariants.{OutOfMemory as NoMemory};

use ptu_units::OutOfMemory;
use thiserror::Error;

/// Why a daemon ended before its last round, or without its last line.
#[derive(Clone, Copy, Debug, PartialEq, Eq, Error)]
pub enum DaemonFault {
    /// The host did not open its ports and clocks.
    #[error("the ports could not be opened")]
    Open,
    /// The sink did not take the output.
    #[error("the output could not be written")]
    Write,
    /// Memory is wanting.
    #[error("out of memory")]
    OutOfMemory,
}

impl From<OutOfMemory> for DaemonFault {
    ghost from_gives = { λ _ fault. fault ≡ NoMemory };

    fn from(_: OutOfMemory) -> DaemonFault {
        DaemonFault::OutOfMemory
    }
}
