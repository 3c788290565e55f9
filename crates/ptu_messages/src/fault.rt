//! Why the octets of a datagram spell no message.

ghost use Rattle.std.specs.Prelude.{◌≡◌, Some};
ghost use Rattle.ptu_messages.specs.MessageFault.{message_fault_text};

use crate::{HeaderFault, TlvFault};
use std::error::Error;
use std::fmt;

/// Why the octets of a datagram spell no message: the first cause that applies, in the order of the
/// variants, where the causes of TLVs come TLV by TLV. Places count from the first octet of the
/// datagram.
#[derive(Clone, Copy, Debug, PartialEq, Eq)]
pub enum MessageFault {
    /// They begin with no header.
    Header(HeaderFault),
    /// The messageLength is below the least of the messageType.
    Body {
        /// The messageLength.
        said: usize,
        /// The least messageLength of the type.
        need: usize,
    },
    /// A Signaling has more than 32 TLVs.
    TooMany {
        /// Where the 33rd begins.
        at: usize,
    },
    /// A TLV of a Signaling is wrong.
    Tlv {
        /// Where it begins.
        at: usize,
        /// What is wrong with it.
        fault: TlvFault,
    },
    /// No memory was found for the list of TLVs.
    OutOfMemory,
}

impl fmt::Display for MessageFault {
    ghost output = { λ f. Some (message_fault_text f) };

    fn fmt<W: fmt::Write>(&self, f: &mut fmt::Formatter<W>) -> fmt::Result {
        match *self {
            MessageFault::Header(fault) => write!(f, "{fault}"),
            MessageFault::Body { said, need } => write!(
                f,
                "messageLength is {said} and below the {need} of its messageType"
            ),
            MessageFault::TooMany { at } => write!(f, "a 33rd TLV begins at octet {at}"),
            MessageFault::Tlv { at, fault } => write!(f, "TLV at octet {at}: {fault}"),
            MessageFault::OutOfMemory => f.write_str("out of memory"),
        }
    }
}

impl Error for MessageFault {}
