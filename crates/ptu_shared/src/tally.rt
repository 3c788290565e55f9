//! What a port was sent, and how many of its calls failed.

ghost use Rattle.std.specs.Prelude.{◌≡◌, ◌<◌, ◌+◌, ◌-◌, ◌^◌, min};

/// How many datagrams a port was sent, and how many of its calls failed: of the port of a table its
/// sends, of that of a lane its sends and receives. A number that would be above its type's end
/// stands there.
#[derive(Clone, Copy)]
pub struct PortTally {
    /// How many datagrams it was sent.
    pub sent: u128,
    /// How many calls failed.
    pub failed: u64,
}

impl PortTally {
    /// Nothing was sent, and no call failed.
    pub fn none() -> PortTally
        ensures { result ≡ record { sent = 0; failed = 0 } }
    {
        PortTally { sent: 0, failed: 0 }
    }

    /// The tally with so many more.
    pub fn plus(self, sent: u64, failed: u64) -> PortTally
        ensures sent { result.sent ≡ min (self.sent + sent) (2 ^ 128 - 1) }
        ensures failed { result.failed ≡ min (self.failed + failed) (2 ^ 64 - 1) }
    {
        PortTally {
            sent: self.sent.saturating_add(u128::from(sent)),
            failed: self.failed.saturating_add(failed),
        }
    }

    /// How many calls failed, where those of several ports are summed.
    pub fn failures(&self) -> u128
        ensures value { result ≡ self.now.failed }
        ensures range { result < 2 ^ 64 }
    {
        u128::from(self.failed)
    }
}

/// What the ports of the four tables were sent since they were opened, and the capacity that is in
/// force at the close.
#[derive(Clone, Copy)]
pub struct Tallies {
    /// Of the port of table 0.
    pub p0: PortTally,
    /// Of the port of table 1.
    pub p1: PortTally,
    /// Of the port of table 2.
    pub p2: PortTally,
    /// Of the port of table 3.
    pub p3: PortTally,
    /// The capacity in force, in sixteenths of a message per second.
    pub capacity: u64,
}
