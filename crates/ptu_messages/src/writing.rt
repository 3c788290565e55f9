//! Writes the common header of a message to octets (IEEE 1588-2019 clause 13.3).

ghost use Rattle.std.specs.Prelude.{◌≡◌, ◌<◌, ◌≤◌};
ghost use Rattle.ptu_messages.specs.Header.{HasWidths, AlwaysSpellsHeader};
ghost use Rattle.ptu_messages.specs.HeaderSent.{control_of, sent_header};

use crate::header::Header;
use ptu_units::message_types::{DELAY_REQ, DELAY_RESP, FOLLOW_UP, SYNC};
use ptu_units::sizes::HEADER_LENGTH;

/// minorVersionPTP 1 and versionPTP 2.
const SENT_VERSION: u8 = 0x12;

/// The logMessageInterval of every message that is sent.
const SENT_INTERVAL: u8 = 0x7f;

// The controlField of a messageType (IEEE 1588-2019 clause 13.3.2).
fn control(message_type: u8) -> u8
    ensures { result ≡ control_of message_type }
{
    match message_type {
        SYNC => 0,
        DELAY_REQ => 1,
        FOLLOW_UP => 2,
        DELAY_RESP => 3,
        _ => 5,
    }
}

// The octets of a header as they are sent.
fn sent(header: Header, length: u16) -> [u8; HEADER_LENGTH]
    requires { header.message_type < 16 }
    ensures octets { result ≡ sent_header header length }
    ensures widths { HasWidths header }
{
    let mut octets = [0; HEADER_LENGTH];
    octets[0] = header.message_type;
    octets[1] = SENT_VERSION;
    octets[2..4].copy_from_slice(&length.to_be_bytes());
    octets[4] = header.domain;
    octets[6..8].copy_from_slice(&header.flags.to_be_bytes());
    octets[8..16].copy_from_slice(&header.correction.cast_unsigned().to_be_bytes());
    octets[20..30].copy_from_slice(&header.source.octets());
    octets[30..32].copy_from_slice(&header.sequence.to_be_bytes());
    octets[32] = control(header.message_type);
    octets[33] = SENT_INTERVAL;
    octets
}

/// Writes the header of a message of `length` octets as it is sent: majorSdoId 0, versionPTP 2,
/// minorVersionPTP 1, logMessageInterval 7F, the controlField of its type, and 0 in what is
/// reserved (IEEE 1588-2019 clause 13.3).
pub fn write_header(header: &Header, length: u16, out: &mut [u8; HEADER_LENGTH])
    requires message_type { header.now.message_type < 16 }
    requires least { 34 ≤ length }

    ensures octets { out.new ≡ sent_header header.now length }
    // Whatever follows, it is read as this header.
    ensures again { AlwaysSpellsHeader out.new header.now length }
{
    *out = sent(*header, length);
}
