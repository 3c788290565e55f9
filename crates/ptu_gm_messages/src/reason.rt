//! Why a grandmaster ignores a datagram.

use ptu_messages::MessageFault;

/// Why a grandmaster ignores a datagram: the first cause that applies, in the order of the variants
/// (the order is the project's own choice).
#[derive(Clone, Copy, Debug, PartialEq, Eq)]
pub enum GmReason {
    /// It spells no message.
    Fault(MessageFault),
    /// Its messageType, which this has, is not known.
    UnknownType(u8),
    /// Its messageType, which this has, is not one that a grandmaster takes.
    Other(u8),
    /// It is of another domain, which this has.
    Domain(u8),
    /// It is a Signaling for another port.
    Target,
}
