//! The capacity that is in force.

ghost use Rattle.std.specs.Prelude.{◌≡◌};
ghost use Rattle.ptu_admit.specs.Book.{IsInForce};

use ptu_units::Capacity;
use std::marker::Model;

/// A capacity that may be in force, in sixteenths of a message per second: one that settings may
/// name, or 0, at which there are no grants. A clause sees it as that number.
#[derive(Clone, Copy, Debug, PartialEq, Eq)]
pub struct InForce {
    sixteenths: u64,
}

impl Model for InForce {
    ghost use Rattle.std.specs.Prelude.{ℕ};
    ghost use Rattle.ptu_admit.specs.Book.{IsInForce};

    ghost Value = { ℕ };

    ghost view = { λ it. it.sixteenths };

    ghost invariant = { λ it. IsInForce it.sixteenths };

    ghost inverse = { λ n. record { sixteenths = n } };
}

impl InForce {
    /// No capacity: all grants end, and none is granted.
    pub const NONE: InForce = InForce { sixteenths: 0 };

    /// This capacity.
    pub fn of(capacity: Capacity) -> InForce
        ensures { result ≡ capacity }
    {
        InForce {
            sixteenths: capacity.get(),
        }
    }

    /// The sixteenths of a message per second, from 0 to 2^24.
    pub fn get(self) -> u64
        ensures value { result ≡ self }
        ensures range { IsInForce self }
    {
        self.sixteenths
    }
}
