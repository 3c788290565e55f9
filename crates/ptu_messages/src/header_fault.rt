//! Why the octets of a datagram begin with no header.

ghost use Rattle.std.specs.Prelude.{Some};
ghost use Rattle.ptu_messages.specs.HeaderFault.{header_fault_text};

use std::error::Error;
use std::fmt;

/// Why the octets of a datagram begin with no header: the first cause that applies, in the order of
/// the variants.
#[derive(Clone, Copy, Debug, PartialEq, Eq)]
pub enum HeaderFault {
    /// There are fewer than the 34 octets of a header.
    Short {
        /// The number of octets at hand.
        have: usize,
    },
    /// The versionPTP is not 2.
    Version {
        /// The versionPTP that was found.
        found: u8,
    },
    /// The majorSdoId is not 0.
    Sdo {
        /// The majorSdoId that was found.
        found: u8,
    },
    /// The messageLength is below 34, or above the number of octets.
    Length {
        /// The messageLength.
        said: usize,
        /// How many octets there are.
        have: usize,
    },
}

impl fmt::Display for HeaderFault {
    ghost output = { λ f. Some (header_fault_text f) };

    fn fmt<W: fmt::Write>(&self, f: &mut fmt::Formatter<W>) -> fmt::Result {
        match *self {
            HeaderFault::Short { have } => write!(
                f,
                "{have} octets are fewer than the 34 of a header"
            ),
            HeaderFault::Version { found } => write!(f, "versionPTP is {found} and not 2"),
            HeaderFault::Sdo { found } => write!(f, "majorSdoId is {found} and not 0"),
            HeaderFault::Length { said, have } => {
                write!(f, "messageLength is {said} and not from 34 to {have}")
            }
        }
    }
}

impl Error for HeaderFault {}
