//! Why octets begin with no TLV.

ghost use Rattle.std.specs.Prelude.{Some};
ghost use Rattle.ptu_messages.specs.TlvFault.{tlv_fault_text};

use std::error::Error;
use std::fmt;

/// Why octets begin with no TLV: the first cause that applies, in the order of the variants.
#[derive(Clone, Copy, Debug, PartialEq, Eq)]
pub enum TlvFault {
    /// There are fewer than the 4 octets of a tlvType and a lengthField.
    Short {
        /// The number of octets at hand.
        have: usize,
    },
    /// The value passes the octets that follow these 4.
    Overrun {
        /// The lengthField.
        said: usize,
        /// How many octets follow.
        have: usize,
    },
    /// A known type has another length than its own.
    Length {
        /// The tlvType.
        tlv_type: u16,
        /// The lengthField.
        said: usize,
    },
}

impl fmt::Display for TlvFault {
    ghost output = { λ f. Some (tlv_fault_text f) };

    fn fmt<W: fmt::Write>(&self, f: &mut fmt::Formatter<W>) -> fmt::Result {
        match *self {
            TlvFault::Short { have } => write!(
                f,
                "{have} octets are fewer than the 4 that begin a TLV"
            ),
            TlvFault::Overrun { said, have } => write!(
                f,
                "lengthField is {said} where {have} octets follow"
            ),
            TlvFault::Length { tlv_type, said } => {
                write!(
                    f,
                    "lengthField is {said}, which tlvType {tlv_type} never has"
                )
            }
        }
    }
}

impl Error for TlvFault {}
