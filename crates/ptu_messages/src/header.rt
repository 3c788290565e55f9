//! The common header of a PTP message and the identity of a port, as values (IEEE 1588-2019 clauses
//! 5.3.5 and 13.3).

ghost use Rattle.std.specs.Prelude.{◌≡◌, ◌+◌, ◌≤◌, length};

use ptu_units::{u16_at, u64_at};

/// The identity of a port: of the clock that it belongs to, and its number there (IEEE 1588-2019
/// clause 5.3.5).
#[derive(Clone, Copy, Debug, PartialEq, Eq, Hash)]
pub struct PortIdentity {
    /// The clockIdentity, its first octet the highest.
    pub clock: u64,
    /// The portNumber.
    pub port: u16,
}

impl PortIdentity {
    ghost use Rattle.ptu_messages.specs.Header.{identity_at, HasIdentityWidths};
    ghost use Rattle.ptu_messages.specs.HeaderSent.{sent_identity};

    /// The identity in the ten octets from a place on.
    pub fn at(octets: &[u8], place: usize) -> PortIdentity
        requires { place + 10 ≤ length octets.now }
        ensures { result ≡ identity_at octets.now place }
    {
        PortIdentity {
            clock: u64_at(octets, place),
            port: u16_at(octets, place + 8),
        }
    }

    /// The ten octets of the identity: clockIdentity, then portNumber.
    pub fn octets(self) -> [u8; 10]
        ensures octets { result ≡ sent_identity self }
        ensures widths { HasIdentityWidths self }
    {
        let [a, b, c, d, e, f, g, h] = self.clock.to_be_bytes();
        let [i, j] = self.port.to_be_bytes();
        [a, b, c, d, e, f, g, h, i, j]
    }
}

/// What is kept of the common header of a message (IEEE 1588-2019 clause 13.3.2).
#[derive(Clone, Copy, Debug, PartialEq, Eq)]
pub struct Header {
    /// The messageType, of 4 bits (IEEE 1588-2019 table 36).
    pub message_type: u8,
    /// The domainNumber.
    pub domain: u8,
    /// The flagField, its first octet the higher (IEEE 1588-2019 clause 13.3.2).
    pub flags: u16,
    /// The correctionField, in nanoseconds multiplied by 2^16.
    pub correction: i64,
    /// The sourcePortIdentity.
    pub source: PortIdentity,
    /// The sequenceId.
    pub sequence: u16,
}
