//! Timeouts of a slave.

ghost use Rattle.std.specs.{Prelude.{◌≡◌}, Option.{SomeIff}};
ghost use Rattle.ptu_units.specs.Limits.{IsTimeout, IsWait};

use std::marker::Model;

/// After how many periods without a message of its kind a slave takes the messages for lost (as
/// announceReceiptTimeout, IEEE 1588-2019 clause 7.7.3.1), from 2 to 10, which is the project's own
/// choice. A clause sees it as that number.
#[derive(Clone, Copy, Debug, PartialEq, Eq)]
pub struct ReceiptTimeout {
    periods: u8,
}

impl Model for ReceiptTimeout {
    ghost use Rattle.std.specs.Prelude.{ℕ};
    ghost use Rattle.ptu_units.specs.Limits.{IsTimeout};

    ghost Value = { ℕ };

    ghost view = { λ it. it.periods };

    ghost invariant = { λ it. IsTimeout it.periods };

    ghost inverse = { λ n. record { periods = n } };
}

impl ReceiptTimeout {
    /// The least.
    pub const LEAST: u8 = 2;

    /// The greatest.
    pub const GREATEST: u8 = 10;

    /// The timeout of a slave whose settings name none.
    pub const DEFAULT: ReceiptTimeout = ReceiptTimeout { periods: 3 };

    /// The timeout of so many periods, or `None` outside 2 to 10.
    pub fn of(periods: u64) -> Option<ReceiptTimeout>
        ensures { SomeIff result (IsTimeout periods) periods }
    {
        if u64::from(ReceiptTimeout::LEAST) <= periods
            && periods <= u64::from(ReceiptTimeout::GREATEST)
        {
            Some(ReceiptTimeout {
                periods: periods as u8,
            })
        } else {
            None
        }
    }

    /// The periods, from 2 to 10.
    pub fn get(self) -> u8
        ensures value { result ≡ self }
        ensures range { IsTimeout self }
    {
        self.periods
    }
}

/// For how many seconds a master that had failed has to be well before a slave selects it again
/// (the wait to restore of ITU-T G.781), from 0 to 720, which is the project's own choice. A clause
/// sees it as that number.
#[derive(Clone, Copy, Debug, PartialEq, Eq)]
pub struct WaitToRestore {
    seconds: u32,
}

impl Model for WaitToRestore {
    ghost use Rattle.std.specs.Prelude.{ℕ};
    ghost use Rattle.ptu_units.specs.Limits.{IsWait};

    ghost Value = { ℕ };

    ghost view = { λ it. it.seconds };

    ghost invariant = { λ it. IsWait it.seconds };

    ghost inverse = { λ n. record { seconds = n } };
}

impl WaitToRestore {
    /// The greatest.
    pub const GREATEST: u32 = 720;

    /// The wait of a slave whose settings name none.
    pub const DEFAULT: WaitToRestore = WaitToRestore { seconds: 300 };

    /// The wait of so many seconds, or `None` above 720.
    pub fn of(seconds: u64) -> Option<WaitToRestore>
        ensures { SomeIff result (IsWait seconds) seconds }
    {
        if seconds <= u64::from(WaitToRestore::GREATEST) {
            Some(WaitToRestore {
                seconds: seconds as u32,
            })
        } else {
            None
        }
    }

    /// The seconds, from 0 to 720.
    pub fn get(self) -> u32
        ensures value { result ≡ self }
        ensures range { IsWait self }
    {
        self.seconds
    }
}
