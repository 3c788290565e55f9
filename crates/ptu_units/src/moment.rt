//! Moments in nanoseconds. They are passed in by callers; nothing in the core reads a clock.

ghost use Rattle.std.specs.{Prelude.{◌≡◌, ◌<◌, ◌+◌, ◌^◌, max}, Option.{SomeIff}};

use std::marker::Model;

/// A moment in whole nanoseconds from a stated zero, below 2^62. A clause sees it as that number.
#[derive(Clone, Copy, Debug, PartialEq, Eq)]
pub struct Moment {
    nanos: u64,
}

impl Model for Moment {
    ghost use Rattle.std.specs.Prelude.{ℕ, ◌<◌, ◌^◌};

    ghost Value = { ℕ };

    ghost view = { λ m. m.nanos };

    ghost invariant = { λ m. m.nanos < 2 ^ 62 };

    ghost inverse = { λ n. record { nanos = n } };
}

impl Moment {
    /// The greatest, in nanoseconds.
    pub const GREATEST: u64 = (1 << 62) - 1;

    /// The moment of this many nanoseconds, or `None` from 2^62 on.
    pub fn of(nanos: u64) -> Option<Moment>
        ensures { SomeIff result (nanos < 2 ^ 62) nanos }
    {
        if nanos <= Moment::GREATEST {
            Some(Moment { nanos })
        } else {
            None
        }
    }

    /// The nanoseconds from zero, below 2^62.
    pub fn nanos(self) -> u64
        ensures value { result ≡ self }
        ensures below { result < 2 ^ 62 }
    {
        self.nanos
    }

    /// The last moment that there is, 146 years after the zero that moments count from.
    pub fn last() -> Moment
        ensures { result + 1 ≡ 2 ^ 62 }
    {
        Moment {
            nanos: Moment::GREATEST,
        }
    }

    /// The later of the two moments.
    pub fn latest(self, other: Moment) -> Moment
        ensures { result ≡ max self other }
    {
        if self.nanos < other.nanos {
            other
        } else {
            self
        }
    }
}

/// The zero that moments count from.
impl Default for Moment {
    ghost is_default = { λ m. m ≡ 0 };

    fn default() -> Moment {
        Moment { nanos: 0 }
    }
}
