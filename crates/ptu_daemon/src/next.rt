//! The next datagram of a channel.

use ptu_outside::Tally;

/// What came of the next datagram of a channel.
#[derive(Clone, Copy)]
pub(crate) enum Next {
    /// It was received and taken, and so much was sent for it.
    Taken(Tally),
    /// No datagram waits on the channel.
    Nothing,
    /// The receive failed.
    Failed,
}
