//! Reads a whole message from the octets of a datagram, or the first fault in them (IEEE 1588-2019
//! clause 13).

ghost use Rattle.std.specs.Prelude.{◌≡◌, ◌↔◌, ◌⊎◌, ◌≤◌, ℕ, List, length, slice_range, IfOk, IfErr};
ghost use Rattle.ptu_messages.specs.Message.{least_length, SpellsMessage};
ghost use Rattle.ptu_messages.specs.MessageFault.{HasMessageFault, IsSignaling};
ghost use Rattle.ptu_messages.specs.{Reading.{tlvs_in, body_in, message_in}, Outcome.{Gives}};
ghost use Rattle.ptu_messages.specs.declared.message.Message.{Message};
ghost use Rattle.ptu_messages.specs.declared.fault.MessageFault.{MessageFault};

use crate::announcing::announce;
use crate::fault::MessageFault;
use crate::message::{Body, Message};
use crate::stamps::stamp;
use crate::tlv::TLVS_AT;
use crate::tlv_list::TlvList;
use crate::{PortIdentity, Tlv, next_tlv, read_header};
use ptu_units::message_types::{ANNOUNCE, DELAY_REQ, DELAY_RESP, FOLLOW_UP, SIGNALING, SYNC};
use ptu_units::sizes::{ANNOUNCE_LENGTH, DELAY_RESP_LENGTH, HEADER_LENGTH, MOST_TLVS, SYNC_LENGTH};
use std::alloc::Global;
use std::mem::replace;

// The least messageLength of a messageType.
fn least(message_type: u8) -> usize
    ensures { result ≡ least_length message_type }
{
    match message_type {
        SYNC | DELAY_REQ | FOLLOW_UP | SIGNALING => SYNC_LENGTH,
        DELAY_RESP => DELAY_RESP_LENGTH,
        ANNOUNCE => ANNOUNCE_LENGTH,
        _ => HEADER_LENGTH,
    }
}

// The TLVs from octet 44 to `end`, in this room.
fn read_tlvs(mut tlvs: Vec<Tlv>, bytes: &[u8], end: usize) -> Result<Vec<Tlv>, MessageFault>
    requires behind { 44 ≤ end }
    requires within { end ≤ length bytes.now }
    ensures { Gives (λ tlvs. tlvs.items) result (tlvs_in 32 44 (slice_range bytes.now 44 end)) }
{
    tlvs.clear();
    if tlvs.reserve(MOST_TLVS).is_err() {
        return Err(MessageFault::OutOfMemory);
    }
    let mut at = TLVS_AT;
    while at < end {
        if tlvs.len() == MOST_TLVS {
            return Err(MessageFault::TooMany { at });
        }
        let (tlv, size) = match next_tlv(&bytes[at..end]) {
            Ok(read) => read,
            Err(fault) => return Err(MessageFault::Tlv { at, fault }),
        };
        if tlvs.push(tlv).is_err() {
            return Err(MessageFault::OutOfMemory);
        }
        at += size;
    }
    Ok(tlvs)
}

// The body behind the header of a message of `said` octets. The TLVs of a Signaling take the room.
#[tactic(auto, unfolding(crate::specs::Reading::body_in))]
fn read_body(
    alloc: Global,
    room: &mut Vec<Tlv>,
    bytes: &[u8],
    said: usize,
    message_type: u8,
) -> Result<Body, MessageFault>
    requires least { least_length message_type ≤ said }
    requires within { said ≤ length bytes.now }
    ensures value { Gives (λ body. body) result (body_in bytes.now said message_type) }
    ensures memory { result ≡ Err MessageFault.OutOfMemory → message_type ≡ 12 }
{
    match message_type {
        SYNC => Ok(Body::Sync(stamp(bytes, HEADER_LENGTH))),
        DELAY_REQ => Ok(Body::DelayReq(stamp(bytes, HEADER_LENGTH))),
        FOLLOW_UP => Ok(Body::FollowUp(stamp(bytes, HEADER_LENGTH))),
        DELAY_RESP => Ok(Body::DelayResp(stamp(bytes, HEADER_LENGTH), PortIdentity::at(bytes, 44))),
        ANNOUNCE => Ok(Body::Announce(announce(bytes))),
        SIGNALING => {
            let tlvs = read_tlvs(replace(room, Vec::new(alloc)), bytes, said)?;
            Ok(Body::Signaling(PortIdentity::at(bytes, HEADER_LENGTH), TlvList::new(tlvs)))
        }
        _ => Ok(Body::Ignored),
    }
}

// The message, or its first fault.
fn read(alloc: Global, room: &mut Vec<Tlv>, bytes: &[u8]) -> Result<Message, MessageFault>
    ensures value { Gives (λ message. message) result (message_in bytes.now) }
    ensures memory { result ≡ Err MessageFault.OutOfMemory → (n : ℕ) × IsSignaling bytes.now n }
{
    let (header, length) = match read_header(bytes) {
        Ok(read) => read,
        Err(fault) => return Err(MessageFault::Header(fault)),
    };
    let said = usize::from(length);
    let need = least(header.message_type);
    if said < need {
        return Err(MessageFault::Body { said, need });
    }
    let body = read_body(alloc, room, bytes, said, header.message_type)?;
    Ok(Message { header, body })
}

/// The message that the octets of a datagram spell, whatever stands behind its messageLength. The
/// fault is the first that applies (IEEE 1588-2019 clause 13).
///
/// # Errors
/// `OutOfMemory` comes for the list of TLVs alone; all else says what is wrong with the octets.
pub fn read_message(alloc: Global, bytes: &[u8]) -> Result<Message, MessageFault>
    // What is read is spelled so, and the fault that is answered is there.
    ensures spelled { IfOk result (λ message. SpellsMessage bytes.now message) }
    ensures faulty { IfErr result
        (λ f. (f ≡ MessageFault.OutOfMemory) ⊎ HasMessageFault bytes.now f) }

    // What is spelled so is read, and the fault that is there is answered, unless memory was
    // wanted.
    ensures read { (m : Message) → SpellsMessage bytes.now m
        → (result ≡ Ok m) ⊎ (result ≡ Err MessageFault.OutOfMemory) }
    ensures refused { (f : MessageFault) → HasMessageFault bytes.now f
        → (result ≡ Err f) ⊎ (result ≡ Err MessageFault.OutOfMemory) }

    // Memory is wanted for the TLVs of a Signaling alone.
    ensures memory { result ≡ Err MessageFault.OutOfMemory → (n : ℕ) × IsSignaling bytes.now n }

    // It is what the reading of the octets finds.
    ensures value { (result ≡ message_in bytes.now) ⊎ (result ≡ Err MessageFault.OutOfMemory) }
{
    read(alloc, &mut Vec::new(alloc), bytes)
}

/// As `read_message`; the TLVs of a Signaling take this room.
///
/// # Errors
/// `OutOfMemory` comes for the list of TLVs alone; all else says what is wrong with the octets.
pub fn read_message_in(
    alloc: Global,
    room: &mut Vec<Tlv>,
    bytes: &[u8],
) -> Result<Message, MessageFault>
    ensures value { (result ≡ message_in bytes.now) ⊎ (result ≡ Err MessageFault.OutOfMemory) }
    ensures memory { result ≡ Err MessageFault.OutOfMemory → (n : ℕ) × IsSignaling bytes.now n }
{
    read(alloc, room, bytes)
}
