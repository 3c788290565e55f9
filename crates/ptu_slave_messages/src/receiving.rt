//! A datagram as a slave receives it.

ghost use Rattle.std.specs.Prelude.{◌≡◌, ℕ, false, IfOk, IsErr};
ghost use Rattle.ptu_messages.specs.{Message.{HasTlvs, SpellsMessage}, MessageFault.{IsSignaling}};
ghost use Rattle.ptu_messages.specs.{Reading.{message_in}, declared.message.Body.{Body}};
ghost use Rattle.ptu_record.specs.Step.{wanted_kind};
ghost use Rattle.ptu_slave_messages.specs.Heard.{FitsReply, ack_by, acks_of, content_of, grant_signal, signal_by, signals_of, taken_or_not};
ghost use Rattle.ptu_slave_messages.specs.Reception.{is_delay_req, is_unknown, reception};

use crate::content::{Accepted, Content};
use crate::reason::SlaveReason;
use crate::signal::{Signal, SignalList};
use crate::sorting::sender;
use ptu_messages::{Body, Message, MessageFault, Tlv, TlvList, read_message};
use ptu_profile::{Master, SlaveConfig};
use ptu_record::Wants;
use ptu_units::{Kind, OutOfMemory};
use std::alloc::{AllocError, Global};

// What the octets spell.
fn read(alloc: Global, bytes: &[u8]) -> Result<Result<Message, MessageFault>, OutOfMemory>
    ensures value { IfOk result (λ found. found ≡ message_in bytes.now) }
    ensures spelled { IfOk result
        (λ found. IfOk found (λ message. SpellsMessage bytes.now message)) }
    ensures memory { IsErr result → (n : ℕ) × IsSignaling bytes.now n }
{
    match read_message(alloc, bytes) {
        Ok(message) => Ok(Ok(message)),
        Err(MessageFault::OutOfMemory) => Err(OutOfMemory),
        Err(fault) => Ok(Err(fault)),
    }
}

/// The kind with this messageType, where the slave requests it.
pub fn requested(wants: &Wants, code: u8) -> Option<Kind>
    ensures { result ≡ wanted_kind wants.now code }
{
    let kind = Kind::of(code)?;
    match wants.log(kind) {
        Some(_) => Some(kind),
        None => None,
    }
}

// A GRANT of a kind for so many seconds.
fn grant(seconds: u32, kind: Kind) -> Signal
    ensures { result ≡ grant_signal seconds kind }
{
    if seconds == 0 {
        Signal::Denial(kind)
    } else {
        Signal::Grant(kind, seconds)
    }
}

// What is told of a TLV.
fn signal(wants: &Wants, tlv: &Tlv) -> Option<Signal>
    ensures { result ≡ signal_by wants.now tlv.now }
{
    match *tlv {
        Tlv::Grant(ask, _) => requested(wants, ask.code).map(|kind| grant(ask.seconds, kind)),
        Tlv::Cancel(code) => Some(Signal::Cancel(code)),
        Tlv::Ack(code) => Some(Signal::Ack(code)),
        Tlv::Request(_) | Tlv::Other { .. } => None,
    }
}

// The ACKNOWLEDGE_CANCEL that answers a TLV.
fn ack(tlv: &Tlv) -> Option<Tlv>
    ensures { result ≡ ack_by tlv.now }
{
    match *tlv {
        Tlv::Cancel(code) => Some(Tlv::Ack(code)),
        _ => None,
    }
}

// What is told of the TLVs of a Signaling.
fn signals(alloc: Global, wants: &Wants, tlvs: &[Tlv]) -> Result<Vec<Signal>, AllocError>
    ensures { IfOk result (λ list. list.items ≡ signals_of wants.now tlvs.now) }
{
    tlvs.iter()
        .filter_map(|tlv| signal(wants, tlv))
        .collect(alloc)
}

// What answers them.
fn acks(alloc: Global, tlvs: &[Tlv]) -> Result<Vec<Tlv>, AllocError>
    ensures { IfOk result (λ acks. acks.items ≡ acks_of tlvs.now) }
{
    tlvs.iter().filter_map(ack).collect(alloc)
}

// What is kept of a body, which is one that a slave takes.
fn content(alloc: Global, wants: &Wants, body: &Body) -> Result<Content, OutOfMemory>
    requires known { is_unknown body.now ≡ false }
    requires taken { is_delay_req body.now ≡ false }
    ensures content { IfOk result (λ content. content ≡ content_of wants.now body.now) }
    ensures memory { IsErr result → HasTlvs body.now }
{
    Ok(match body {
        Body::Announce(announce) => Content::Announce(announce.class),
        Body::Sync(_) => Content::Sync,
        Body::DelayResp(..) => Content::DelayResp,
        Body::Signaling(_, tlvs) => {
            let list = signals(alloc, wants, tlvs.list())?;
            let acks = acks(alloc, tlvs.list())?;
            Content::Signals(SignalList::new(list), TlvList::new(acks))
        }
        Body::FollowUp(_) => Content::FollowUp,
        Body::DelayReq(_) | Body::Ignored => unreachable!(),
    })
}

/// What a datagram from this IPv4 address is to a slave with these masters: what it needs of a
/// message of one of them, or the first reason to ignore it.
///
/// # Errors
/// Memory is wanted for a Signaling alone.
pub fn receive(
    alloc: Global,
    config: &SlaveConfig,
    masters: &[Master],
    from: u32,
    bytes: &[u8],
) -> Result<Result<Accepted, SlaveReason>, OutOfMemory>
    ensures answer { IfOk result (λ answer. answer ≡
        taken_or_not config.now.wants (reception config.now masters.now from bytes.now)) }
    ensures reply { IfOk result (λ answer. IfOk answer (λ taken. FitsReply taken.content)) }
    ensures memory { IsErr result → (n : ℕ) × IsSignaling bytes.now n }
{
    let message = match read(alloc, bytes)? {
        Ok(message) => message,
        Err(fault) => return Ok(Err(SlaveReason::Fault(fault))),
    };
    let master = match sender(config, masters, from, &message) {
        Ok(master) => master,
        Err(reason) => return Ok(Err(reason)),
    };
    let content = content(alloc, &config.wants, &message.body)?;
    Ok(Ok(Accepted {
        master,
        source: message.header.source,
        sequence: message.header.sequence,
        content,
    }))
}
