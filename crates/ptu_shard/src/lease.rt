//! What a table keeps for one client and kind, and when its next message is lawful.

ghost use Rattle.std.specs.Prelude.{◌≡◌, ◌<◌, ◌≤◌, true};
ghost use Rattle.ptu_history.specs.Turns.{is_turned};
ghost use Rattle.ptu_shard.specs.Turn.{is_lawful_row, is_due_row, spent_row};

use ptu_units::{Client, Kind, Log, Moment, period};

/// What a table keeps of a grant.
#[derive(Clone, Copy, Debug, PartialEq, Eq)]
pub struct Lease {
    /// The logarithm of the interval that was granted (logInterMessagePeriod, IEEE 1588-2019 clause
    /// 16.1.4.2.4).
    pub log: Log,
    /// When it was granted.
    pub start: Moment,
    /// The end of the granted duration, in nanoseconds.
    pub until: u64,
    /// The earliest lawful moment of the next message, in nanoseconds.
    pub edge: u64,
    /// The sequenceId of the next message.
    pub seq: u16,
}

/// A lease beside the client and kind that it is of.
#[derive(Clone, Copy)]
pub struct Row {
    pub client: Client,
    pub kind: Kind,
    pub lease: Lease,
}

impl Row {
    // Whether a message of the row is lawful at the moment.
    pub(crate) fn is_lawful(&self, at: Moment) -> bool
        ensures { result ≡ is_lawful_row at self.now }
    {
        at.nanos() < self.lease.until && self.lease.edge <= at.nanos()
    }

    // Whether turns send its messages.
    pub(crate) fn is_turned(&self) -> bool
        ensures { result ≡ is_turned self.now.kind }
    {
        self.kind != Kind::DelayResp
    }

    // Whether a turn at the moment sends a message of the row.
    pub(crate) fn is_due(&self, at: Moment) -> bool
        ensures { result ≡ is_due_row at self.now }
    {
        self.is_turned() && self.is_lawful(at)
    }

    // The row after a message at the moment, which spends a period and a sequence number.
    pub(crate) fn spent(&self, at: Moment) -> Row
        requires { self.now.lease.edge ≤ at }
        ensures row { result ≡ spent_row at self.now }
        ensures later { is_turned self.now.kind ≡ true → at < result.lease.edge }
    {
        let period = period(self.lease.log);
        let edge = match self.kind {
            Kind::Announce | Kind::Sync => at.nanos() + period,
            Kind::DelayResp => (self.lease.edge + period).max(at.nanos()),
        };
        let seq = self.lease.seq.wrapping_add(1);
        Row {
            client: self.client,
            kind: self.kind,
            lease: Lease {
                edge,
                seq,
                ..self.lease
            },
        }
    }
}
