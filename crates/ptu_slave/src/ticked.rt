//! What a tick or the stop of a slave sent.

use ptu_units::Moment;

/// What a tick or the stop sent.
#[derive(Clone, Copy, Debug, PartialEq, Eq)]
pub struct Ticked {
    /// The moment of the event.
    pub at: Moment,
    /// How many datagrams were sent.
    pub sent: u64,
    /// How many failed to be sent; the port counted at least as many faults.
    pub failed: u64,
}
