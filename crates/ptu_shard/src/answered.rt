//! What a turn of a table sent, and what a Delay_Req came to.

use ptu_units::Moment;

/// What a turn did: it sent to the clients of one table what was lawful at `at`.
#[derive(Clone, Copy, Debug, PartialEq, Eq)]
pub struct Turned {
    pub at: Moment,
    /// How many messages were sent.
    pub sent: u64,
    /// How many sends failed.
    pub failed: u64,
}

/// The answer to a Delay_Req at `at` (IEEE 1588-2019 clause 11.3).
#[derive(Clone, Copy, Debug, PartialEq, Eq)]
pub enum Answered {
    /// A Delay_Resp was sent.
    Sent { at: Moment },
    /// A Delay_Resp was lawful, and its send failed.
    Failed { at: Moment },
    /// No grant of Delay_Resp is live.
    NoGrant { at: Moment },
    /// One is live, and a Delay_Resp is lawful from `earliest` on, in nanoseconds.
    TooSoon { at: Moment, earliest: u64 },
}
