//! How a node works: its lanes, and the zero of its timescale.

ghost use Rattle.std.specs.{Prelude.{◌≡◌}, Option.{SomeIff}};
ghost use Rattle.ptu_units.specs.Limits.{IsEpoch, IsSenders};

use std::marker::Model;

/// How many lanes of a grandmaster turn tables beside each other, from 0 to 4; with 0 all is done
/// on one thread. A clause sees it as that number.
#[derive(Clone, Copy, Debug, PartialEq, Eq)]
pub struct Senders {
    lanes: u8,
}

impl Model for Senders {
    ghost use Rattle.std.specs.Prelude.{ℕ};
    ghost use Rattle.ptu_units.specs.Limits.{IsSenders};

    ghost Value = { ℕ };

    ghost view = { λ it. it.lanes };

    ghost invariant = { λ it. IsSenders it.lanes };

    ghost inverse = { λ n. record { lanes = n } };
}

impl Senders {
    /// The greatest.
    pub const GREATEST: u8 = 4;

    /// The lanes of a grandmaster whose settings name none: all is done on one thread.
    pub const DEFAULT: Senders = Senders { lanes: 0 };

    /// So many lanes, or `None` above 4.
    pub fn of(lanes: u64) -> Option<Senders>
        ensures { SomeIff result (IsSenders lanes) lanes }
    {
        if lanes <= u64::from(Senders::GREATEST) {
            Some(Senders { lanes: lanes as u8 })
        } else {
            None
        }
    }

    /// The number, from 0 to 4.
    pub fn get(self) -> u8
        ensures value { result ≡ self }
        ensures range { IsSenders self }
    {
        self.lanes
    }
}

/// The seconds of a timescale at moment zero, below 2^47, so that a moment's seconds stand in the
/// 48 bits of a timestamp (IEEE 1588-2019 clause 5.3.3). A clause sees it as that number.
#[derive(Clone, Copy, Debug, PartialEq, Eq)]
pub struct Epoch {
    seconds: u64,
}

impl Model for Epoch {
    ghost use Rattle.std.specs.Prelude.{ℕ};
    ghost use Rattle.ptu_units.specs.Limits.{IsEpoch};

    ghost Value = { ℕ };

    ghost view = { λ it. it.seconds };

    ghost invariant = { λ it. IsEpoch it.seconds };

    ghost inverse = { λ n. record { seconds = n } };
}

impl Epoch {
    /// The greatest.
    pub const GREATEST: u64 = (1 << 47) - 1;

    /// The epoch of a node whose settings name none.
    pub const DEFAULT: Epoch = Epoch { seconds: 0 };

    /// The epoch of so many seconds, or `None` from 2^47 on.
    pub fn of(seconds: u64) -> Option<Epoch>
        ensures { SomeIff result (IsEpoch seconds) seconds }
    {
        if seconds <= Epoch::GREATEST {
            Some(Epoch { seconds })
        } else {
            None
        }
    }

    /// The seconds, below 2^47.
    pub fn get(self) -> u64
        ensures value { result ≡ self }
        ensures range { IsEpoch self }
    {
        self.seconds
    }
}
