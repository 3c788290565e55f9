//! Counts of datagrams that were sent, and of sends that failed.

ghost use Rattle.std.specs.Prelude.{◌≡◌, ◌+◌, ◌<◌, ◌^◌};
ghost use Rattle.ptu_outside.specs.HandsOver.{failed_in, sent_in};

use crate::failed::Failed;

/// How many datagrams were sent, and how many failed to be sent.
#[derive(Clone, Copy, Debug, PartialEq, Eq)]
pub struct Sends {
    pub sent: u64,
    pub failed: u64,
}

impl Sends {
    /// Nothing was handed to a port.
    pub fn none() -> Sends
        ensures { result ≡ record { sent = 0; failed = 0 } }
    {
        Sends { sent: 0, failed: 0 }
    }

    /// Of one datagram, which was sent or failed to be.
    pub fn of(sent: Result<(), Failed>) -> Sends
        ensures { result ≡ record { sent = sent_in sent; failed = failed_in sent } }
    {
        match sent {
            Ok(()) => Sends { sent: 1, failed: 0 },
            Err(Failed) => Sends { sent: 0, failed: 1 },
        }
    }

    /// The sum of two counts.
    pub fn and(self, other: Sends) -> Sends
        requires sent { self.sent + other.sent < 2 ^ 64 }
        requires failed { self.failed + other.failed < 2 ^ 64 }
        ensures { result ≡ record {
          sent = self.sent + other.sent;
          failed = self.failed + other.failed;
        } }
    {
        Sends {
            sent: self.sent + other.sent,
            failed: self.failed + other.failed,
        }
    }
}
