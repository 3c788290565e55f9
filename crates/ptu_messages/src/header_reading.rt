//! Reads the common header of a message from octets (IEEE 1588-2019 clause 13.3).

ghost use Rattle.std.specs.Prelude.{◌≡◌, ◌↔◌, ℕ, ◌≤◌, length, IsErr, IfOk, IfErr, MatchResult};
ghost use Rattle.ptu_messages.specs.Header.{BeginsMessage, SpellsHeader, header_at};
ghost use Rattle.ptu_messages.specs.{HeaderFault.{HasHeaderFault}, HeaderReading.{header_in}};
ghost use Rattle.ptu_messages.specs.declared.header.Header.{Header};
ghost use Rattle.ptu_messages.specs.declared.header_fault.HeaderFault.{HeaderFault};

use crate::header::{Header, PortIdentity};
use crate::header_fault::HeaderFault;
use ptu_units::sizes::HEADER_LENGTH;
use ptu_units::{high_nibble, i64_at, low_nibble, u16_at};

/// The versionPTP of the messages that are read.
const VERSION: u8 = 2;

// The messageLength, where nothing is wrong with the header.
fn message_length(bytes: &[u8]) -> Result<u16, HeaderFault>
    ensures { MatchResult result (BeginsMessage bytes.now) (HasHeaderFault bytes.now) }
{
    let have = bytes.len();
    if have < HEADER_LENGTH {
        return Err(HeaderFault::Short { have });
    }
    let version = low_nibble(bytes, 1);
    if version != VERSION {
        return Err(HeaderFault::Version { found: version });
    }
    let sdo = high_nibble(bytes, 0);
    if sdo != 0 {
        return Err(HeaderFault::Sdo { found: sdo });
    }
    let length = u16_at(bytes, 2);
    let said = usize::from(length);
    if said < HEADER_LENGTH || said > have {
        return Err(HeaderFault::Length { said, have });
    }
    Ok(length)
}

// The fields that are kept, each from its octets.
fn kept_fields(bytes: &[u8]) -> Header
    requires { 34 ≤ length bytes.now }
    ensures { result ≡ header_at bytes.now }
{
    Header {
        message_type: low_nibble(bytes, 0),
        domain: bytes[4],
        flags: u16_at(bytes, 6),
        correction: i64_at(bytes, 8),
        source: PortIdentity::at(bytes, 20),
        sequence: u16_at(bytes, 30),
    }
}

/// The header that the octets of a datagram begin with, and the messageLength in it, in octets from
/// 34 to the number of `bytes` (IEEE 1588-2019 clause 13.3).
///
/// # Errors
/// The first that applies of `Short`, `Version`, `Sdo` and `Length`.
pub fn read_header(bytes: &[u8]) -> Result<(Header, u16), HeaderFault>
    // What is read is spelled so, and the fault that is answered is there.
    ensures spelled { IfOk result (λ read. SpellsHeader bytes.now read.0 read.1) }
    ensures faulty { IfErr result (HasHeaderFault bytes.now) }

    // What is spelled so is read, and the fault that is there is answered.
    ensures read { (h : Header) (n : ℕ) → SpellsHeader bytes.now h n → result ≡ Ok (h, n) }
    ensures refused { (f : HeaderFault) → HasHeaderFault bytes.now f → result ≡ Err f }

    // It is what the reading of the octets finds.
    ensures value { result ≡ header_in bytes.now }

    // A fault comes exactly where nothing is spelled.
    ensures nothing { IsErr result ↔ ((h : Header) (n : ℕ) → SpellsHeader bytes.now h n → ⊥) }
{
    let length = message_length(bytes)?;
    Ok((kept_fields(bytes), length))
}
