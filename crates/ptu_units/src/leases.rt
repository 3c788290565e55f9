//! What a grandmaster sells and grants: its capacity, and the time of a grant.

ghost use Rattle.std.specs.{Prelude.{◌≡◌}, Option.{SomeIff}};
ghost use Rattle.ptu_units.specs.Limits.{IsCapacity, IsDuration};

use std::marker::Model;

/// The capacity of a grandmaster in sixteenths of a message per second, from 1 to 2^24, which is
/// the project's own choice. A clause sees it as that number.
#[derive(Clone, Copy, Debug, PartialEq, Eq)]
pub struct Capacity {
    sixteenths: u64,
}

impl Model for Capacity {
    ghost use Rattle.std.specs.Prelude.{ℕ};
    ghost use Rattle.ptu_units.specs.Limits.{IsCapacity};

    ghost Value = { ℕ };

    ghost view = { λ it. it.sixteenths };

    ghost invariant = { λ it. IsCapacity it.sixteenths };

    ghost inverse = { λ n. record { sixteenths = n } };
}

impl Capacity {
    /// The least.
    pub const LEAST: u64 = 1;

    /// The greatest.
    pub const GREATEST: u64 = 1 << 24;

    /// A capacity for tests and examples: half a message per second.
    pub const SAMPLE: Capacity = Capacity { sixteenths: 8 };

    /// The capacity of so many sixteenths of a message per second, or `None` outside 1 to 2^24.
    pub fn of(sixteenths: u64) -> Option<Capacity>
        ensures { SomeIff result (IsCapacity sixteenths) sixteenths }
    {
        if Capacity::LEAST <= sixteenths && sixteenths <= Capacity::GREATEST {
            Some(Capacity { sixteenths })
        } else {
            None
        }
    }

    /// The sixteenths of a message per second, from 1 to 2^24.
    pub fn get(self) -> u64
        ensures value { result ≡ self }
        ensures range { IsCapacity self }
    {
        self.sixteenths
    }
}

/// The duration of a grant in seconds (durationField, IEEE 1588-2019 clause 16.1.4), from 60 to
/// 1000, which is the project's own choice. A clause sees it as that number.
#[derive(Clone, Copy, Debug, PartialEq, Eq)]
pub struct GrantSeconds {
    seconds: u32,
}

impl Model for GrantSeconds {
    ghost use Rattle.std.specs.Prelude.{ℕ};
    ghost use Rattle.ptu_units.specs.Limits.{IsDuration};

    ghost Value = { ℕ };

    ghost view = { λ it. it.seconds };

    ghost invariant = { λ it. IsDuration it.seconds };

    ghost inverse = { λ n. record { seconds = n } };
}

impl GrantSeconds {
    /// The least.
    pub const LEAST: u32 = 60;

    /// The greatest.
    pub const GREATEST: u32 = 1000;

    /// The longest grant of a grandmaster whose settings name none.
    pub const LONGEST: GrantSeconds = GrantSeconds { seconds: 1000 };

    /// What a slave requests whose settings name no duration.
    pub const REQUESTED: GrantSeconds = GrantSeconds { seconds: 300 };

    /// The duration of so many seconds, or `None` outside 60 to 1000.
    pub fn of(seconds: u64) -> Option<GrantSeconds>
        ensures { SomeIff result (IsDuration seconds) seconds }
    {
        if u64::from(GrantSeconds::LEAST) <= seconds
            && seconds <= u64::from(GrantSeconds::GREATEST)
        {
            Some(GrantSeconds {
                seconds: seconds as u32,
            })
        } else {
            None
        }
    }

    /// The seconds, from 60 to 1000.
    pub fn get(self) -> u32
        ensures value { result ≡ self }
        ensures range { IsDuration self }
    {
        self.seconds
    }
}
