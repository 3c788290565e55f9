//! Counts of a whole run: of datagrams that were sent, and of calls of ports that failed.

ghost use Rattle.std.specs.Prelude.{◌≡◌, ◌+◌, ◌<◌, ◌^◌};

/// How many datagrams were sent in a run, and how many sends and receives failed.
#[derive(Clone, Copy, Default)]
pub struct Tally {
    pub sent: u128,
    pub failed: u128,
}

impl Tally {
    /// The sum of two tallies.
    pub fn plus(self, more: Tally) -> Tally
        requires sent { self.sent + more.sent < 2 ^ 128 }
        requires failed { self.failed + more.failed < 2 ^ 128 }
        ensures { result ≡ record {
          sent = self.sent + more.sent;
          failed = self.failed + more.failed;
        } }
    {
        Tally {
            sent: self.sent + more.sent,
            failed: self.failed + more.failed,
        }
    }

    /// Counts so many more.
    pub fn add(&mut self, sent: u64, failed: u64)
        requires sent { self.old.sent + sent < 2 ^ 128 }
        requires failed { self.old.failed + failed < 2 ^ 128 }
        ensures { self.new ≡ record {
          sent = self.old.sent + sent;
          failed = self.old.failed + failed;
        } }
    {
        self.sent += sent as u128;
        self.failed += failed as u128;
    }
}
