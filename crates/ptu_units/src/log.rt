//! Logarithms of message intervals, with the rate and the period of each.

ghost use Rattle.std.specs.{Prelude.{◌≡◌, ◌*◌, ◌≤◌}, Option.{SomeIff}};
ghost use Rattle.ptu_units.specs.Log.{IsLog, IsLogOf, place_of, rate_of, period_of};
ghost use Rattle.ptu_units.specs.{declared.kind.Kind.TheVariants.{Announce}, Time.{second}};

use crate::kind::Kind;
use std::marker::Model;

/// The logarithm to base 2 of a mean message interval in seconds, from -7 to 4
/// (logInterMessagePeriod, IEEE 1588-2019 clause 16.1.4.1.4). A clause sees it as that number.
#[derive(Clone, Copy, Debug, PartialEq, Eq)]
pub struct Log {
    value: i8,
}

impl Model for Log {
    ghost use Rattle.std.specs.Prelude.{ℤ};
    ghost use Rattle.ptu_units.specs.Log.{IsLog};

    ghost Value = { ℤ };

    ghost view = { λ l. l.value };

    ghost invariant = { λ l. IsLog l.value };

    ghost inverse = { λ z. record { value = z } };
}

/// The rate of each logarithm from -7 to 4, in sixteenths of a message per second.
const RATES: [u64; 12] = [2048, 1024, 512, 256, 128, 64, 32, 16, 8, 4, 2, 1];

/// The mean interval of each logarithm from -7 to 4, in nanoseconds.
const PERIODS: [u64; 12] = [
    7_812_500,
    15_625_000,
    31_250_000,
    62_500_000,
    125_000_000,
    250_000_000,
    500_000_000,
    1_000_000_000,
    2_000_000_000,
    4_000_000_000,
    8_000_000_000,
    16_000_000_000,
];

impl Log {
    /// The logarithm of this value, or `None` where it is outside the range of the kind: -3 to 4
    /// for Announce,
    /// -7 to 4 for Sync and Delay_Resp.
    pub fn of(kind: Kind, value: i8) -> Option<Log>
        ensures { SomeIff result (IsLogOf kind value) value }
    {
        let least = match kind {
            Kind::Announce => -3,
            Kind::Sync | Kind::DelayResp => -7,
        };
        if least <= value && value <= 4 {
            Some(Log { value })
        } else {
            None
        }
    }

    /// The value, from -7 to 4.
    pub fn value(self) -> i8
        ensures value { result ≡ self }
        ensures range { IsLog self }
    {
        self.value
    }

    // The place of the logarithm in a table that begins with -7.
    fn place(self) -> usize
        ensures place { result ≡ place_of self }
        ensures range { IsLog self }
    {
        (self.value + 7) as usize
    }
}

/// The logarithm to base 2 of a mean interval of Announces in seconds, from -3 to 4. A clause sees
/// it as that number.
#[derive(Clone, Copy, Debug, PartialEq, Eq)]
pub struct AnnounceLog {
    log: Log,
}

impl Model for AnnounceLog {
    ghost use Rattle.std.specs.Prelude.{ℤ};
    ghost use Rattle.ptu_units.specs.{Log.{IsLogOf}, declared.kind.Kind.TheVariants.{Announce}};

    ghost Value = { ℤ };

    ghost view = { λ it. it.log };

    ghost invariant = { λ it. IsLogOf Announce it.log };

    ghost inverse = { λ z. record { log = z } };
}

impl AnnounceLog {
    /// The logarithm of this value, or `None` outside -3 to 4.
    pub fn of(value: i8) -> Option<AnnounceLog>
        ensures { SomeIff result (IsLogOf Announce value) value }
    {
        let log = Log::of(Kind::Announce, value)?;
        Some(AnnounceLog { log })
    }

    /// The logarithm.
    pub fn get(self) -> Log
        ensures value { result ≡ self }
        ensures range { IsLogOf Announce self }
    {
        self.log
    }
}

/// The rate of a message with this logarithm, in sixteenths of a message per second.
pub fn rate(log: Log) -> u64
    ensures rate { result ≡ rate_of log }
    ensures range { (1 ≤ result) × (result ≤ 2048) }
{
    RATES[log.place()]
}

/// The mean interval of this logarithm, in nanoseconds.
pub fn period(log: Log) -> u64
    ensures period { result ≡ period_of log }
    ensures range { (7812500 ≤ result) × (result ≤ 16000000000) }
    // What a message pays at its rate over its period is the same for every logarithm.
    ensures payment { rate_of log * period_of log ≡ 16 * second }
{
    PERIODS[log.place()]
}
