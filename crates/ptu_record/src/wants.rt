//! What a slave requests of each master: the intervals of the three kinds, and the duration.

ghost use Rattle.std.specs.Prelude.{◌≡◌, ◌<◌, ◌*◌, ◌^◌};
ghost use Rattle.ptu_units.specs.Log.{period_of};
ghost use Rattle.ptu_record.specs.Wants.{wanted_log};

use ptu_units::{AnnounceLog, GrantSeconds, Kind, Log, ReceiptTimeout, period};

/// What a slave requests of each of its masters.
#[derive(Clone, Copy)]
pub struct Wants {
    /// The logarithm of the Announce interval.
    pub announce: AnnounceLog,
    /// The logarithm of the Sync interval.
    pub sync: Log,
    /// The logarithm of the Delay_Req interval, where Delay_Resp is requested.
    pub delay: Option<Log>,
    /// The duration of each grant that is asked for.
    pub seconds: GrantSeconds,
}

impl Wants {
    /// The logarithm that is requested of a kind, or `None` where the kind is not requested.
    pub fn log(&self, kind: Kind) -> Option<Log>
        ensures { result ≡ wanted_log self.now kind }
    {
        match kind {
            Kind::Announce => Some(self.announce.get()),
            Kind::Sync => Some(self.sync),
            Kind::DelayResp => self.delay,
        }
    }
}

/// The receipt timeout of so many periods of a logarithm, in nanoseconds.
pub fn receipt_timeout(periods: ReceiptTimeout, log: Log) -> u64
    ensures value { result ≡ periods * period_of log }
    ensures below { result < 2 ^ 62 }
{
    u64::from(periods.get()) * period(log)
}
