//! Reads a TLV of unicast negotiation from octets (IEEE 1588-2019 clauses 14.1 and 16.1.4).

ghost use Rattle.std.specs.Prelude.{◌≡◌, ◌↔◌, ◌+◌, ◌≤◌, ℕ, length, IsErr, IfOk, IfErr, MatchResult};
ghost use Rattle.ptu_messages.specs.Tlv.{IsWhole, IsFirst, ask_at, SpellsTlv, BeginsWithTlv};
ghost use Rattle.ptu_messages.specs.{TlvFault.{HasTlvFault}, TlvsReading.{tlv_in}, declared.tlv.Tlv.{Tlv}};
ghost use Rattle.ptu_messages.specs.declared.tlvs_fault.TlvFault.{TlvFault};

use crate::tlv::{
    ACKNOWLEDGE, Ask, CANCEL, GRANT, GRANT_LENGTH, KIND_LENGTH, REQUEST, REQUEST_LENGTH, Tlv,
};
use crate::tlvs_fault::TlvFault;
use ptu_units::{high_nibble, u16_at, u32_at};

// How many octets a tlvType and a lengthField have.
const HEAD: usize = 4;

// The octets of the first TLV, to the end that its lengthField says.
fn first(bytes: &[u8]) -> Result<&[u8], TlvFault>
    ensures { MatchResult result (λ octets. IsFirst bytes.now octets.now) (HasTlvFault bytes.now) }
{
    if bytes.len() < HEAD {
        return Err(TlvFault::Short { have: bytes.len() });
    }
    let said = usize::from(u16_at(bytes, 2));
    let have = bytes.len() - HEAD;
    if said > have {
        return Err(TlvFault::Overrun { said, have });
    }
    Ok(&bytes[..HEAD + said])
}

// What is asked for in the value of a REQUEST or a GRANT.
fn ask_of(octets: &[u8]) -> Ask
    requires { 10 ≤ length octets.now }
    ensures { result ≡ ask_at octets.now }
{
    Ask {
        code: high_nibble(octets, 4),
        log: octets[5].cast_signed(),
        seconds: u32_at(octets, 6),
    }
}

// The TLV that is all of the octets.
fn tlv_of(octets: &[u8]) -> Result<Tlv, TlvFault>
    requires { IsWhole octets.now }
    ensures { MatchResult result (SpellsTlv octets.now) (HasTlvFault octets.now) }
{
    let tlv_type = u16_at(octets, 0);
    let length = u16_at(octets, 2);
    match (tlv_type, length) {
        (REQUEST, REQUEST_LENGTH) => Ok(Tlv::Request(ask_of(octets))),
        (GRANT, GRANT_LENGTH) => Ok(Tlv::Grant(ask_of(octets), octets[11] & 1 == 1)),
        (CANCEL, KIND_LENGTH) => Ok(Tlv::Cancel(high_nibble(octets, 4))),
        (ACKNOWLEDGE, KIND_LENGTH) => Ok(Tlv::Ack(high_nibble(octets, 4))),
        (REQUEST..=ACKNOWLEDGE, _) => Err(TlvFault::Length {
            tlv_type,
            said: usize::from(length),
        }),
        _ => Ok(Tlv::Other { tlv_type, length }),
    }
}

/// The TLV that the octets begin with, and its size in octets with its type and length (IEEE
/// 1588-2019 clauses 14.1 and 16.1.4).
///
/// # Errors
/// The first that applies of `Short`, `Overrun` and `Length`.
pub fn next_tlv(bytes: &[u8]) -> Result<(Tlv, usize), TlvFault>
    // What is read is spelled so, and the fault that is answered is there.
    ensures spelled { IfOk result (λ read. BeginsWithTlv bytes.now read.0 read.1) }
    ensures faulty { IfErr result (HasTlvFault bytes.now) }

    // What is spelled so is read, and the fault that is there is answered.
    ensures read { (v : Tlv) (size : ℕ) → BeginsWithTlv bytes.now v size → result ≡ Ok (v, size) }
    ensures refused { (f : TlvFault) → HasTlvFault bytes.now f → result ≡ Err f }

    // It is what the reading of the octets finds.
    ensures value { result ≡ tlv_in bytes.now }

    // A fault comes exactly where nothing is spelled, and what is read is never empty.
    ensures nothing { IsErr result ↔ ((v : Tlv) (size : ℕ) → BeginsWithTlv bytes.now v size → ⊥) }
    ensures size { IfOk result (λ read. (4 ≤ read.1) × (read.1 ≤ length bytes.now)) }
{
    let octets = first(bytes)?;
    let tlv = tlv_of(octets)?;
    Ok((tlv, octets.len()))
}
