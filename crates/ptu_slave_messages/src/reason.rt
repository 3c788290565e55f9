//! Why a slave ignores a datagram.

use ptu_messages::MessageFault;

/// Why a slave ignores a datagram: the first cause that applies, in the order of the variants.
#[derive(Clone, Copy, Debug, PartialEq, Eq)]
pub enum SlaveReason {
    /// It spells no message.
    Fault(MessageFault),
    /// Its messageType is one that this project does not know.
    UnknownType(u8),
    /// Its messageType is known and not for a slave: that of a Delay_Req.
    Other(u8),
    /// Its sender's address is that of none of the masters.
    Stranger,
    /// Its domainNumber is another one.
    Domain(u8),
    /// It is a Signaling whose targetPortIdentity does not match, or a Delay_Resp that answers
    /// another slave.
    Target,
}
