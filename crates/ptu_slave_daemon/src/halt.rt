//! Why the rounds of a slave's daemon ended early.

ghost use Rattle.std.specs.Prelude.{◌≡◌};
ghost use Rattle.ptu_slave_daemon.specs.declared.halt.Halt.TheVariants.{OutOfMemory as NoMemory};

use ptu_units::OutOfMemory;

/// Why a slave's daemon did not come to its end.
#[derive(Clone, Copy)]
pub(crate) enum Halt {
    /// The sink failed.
    Write,
    OutOfMemory,
}

impl From<OutOfMemory> for Halt {
    ghost from_gives = { λ _ halt. halt ≡ NoMemory };

    fn from(_: OutOfMemory) -> Halt {
        Halt::OutOfMemory
    }
}
