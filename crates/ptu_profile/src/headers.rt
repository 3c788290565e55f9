//! The headers of unicast messages (IEEE 1588-2019 clause 13.3).

ghost use Rattle.std.specs.Prelude.{◌≡◌};
ghost use Rattle.ptu_profile.specs.Headers.{unicast_header};

use ptu_messages::{Header, PortIdentity, flags};
use ptu_units::Domain;

/// The header of a message of this type that a port of a domain sends to one address: the
/// unicastFlag alone of the flags.
pub(crate) fn header_from(
    source: PortIdentity,
    domain: Domain,
    message_type: u8,
    correction: i64,
    sequence: u16,
) -> Header
    ensures { result ≡ unicast_header source domain message_type correction sequence }
{
    Header {
        message_type,
        domain: domain.get(),
        flags: flags::UNICAST,
        correction,
        source,
        sequence,
    }
}
