//! Datagrams as a grandmaster hears them.

ghost use Rattle.std.specs.Prelude.{◌≡◌, ◌≢◌, ◌≤◌, ◌<◌, ◌++◌, ℕ, [], length, All, IfOk, IfErr, OnOk, OnErr, Ok, Err};
ghost use Rattle.std.specs.List.{cons_option};
ghost use Rattle.ptu_messages.specs.{Message.{HasTlvs, SpellsMessage}, MessageFault.{IsSignaling}};
ghost use Rattle.ptu_messages.specs.Reading.{message_in};
ghost use Rattle.ptu_gm_messages.specs.Items.{AreAnswerable, IsAnswerable, heard_by, heard_in, item_of, items_among, items_by, items_in};
ghost use Rattle.ptu_gm_messages.specs.declared.reason.GmReason.{GmReason};

use crate::heard::Heard;
use crate::item::{Item, Items};
use crate::reason::GmReason;
use crate::room::HearingRoom;
use ptu_messages::{
    Body, Header, Message, MessageFault, PortIdentity, Tlv, TlvList, read_message_in,
};
use ptu_profile::{GmConfig, is_target};
use ptu_units::OutOfMemory;
use std::alloc::{AllocError, Global};
use std::mem::replace;

// The item that a TLV is, if it is one.
fn item(tlv: &Tlv) -> Option<Item>
    ensures { result ≡ item_of tlv.now }
{
    match *tlv {
        Tlv::Request(ask) => Some(Item::Request(ask)),
        Tlv::Cancel(code) => Some(Item::Cancel(code)),
        Tlv::Grant(..) | Tlv::Ack(_) | Tlv::Other { .. } => None,
    }
}

// Adds the item that the TLV is, if it is one.
fn add_item(items: &mut Vec<Item>, tlv: &Tlv) -> Result<(), AllocError>
    ensures { OnOk result (items.new.items
        ≡ items.old.items ++ cons_option (item_of tlv.now) []) }
{
    if let Some(item) = item(tlv) {
        items.push(item)?;
    }
    Ok(())
}

// Adds the items among the TLVs.
fn add_items(items: &mut Vec<Item>, tlvs: &[Tlv]) -> Result<(), AllocError>
    ensures { OnOk result (items.new.items ≡ items.old.items ++ items_among tlvs.now) }
{
    for tlv in tlvs {
        add_item(items, tlv)?;
    }
    Ok(())
}

// The items among the TLVs. They take the room.
fn gather(alloc: Global, room: &mut Vec<Item>, tlvs: &[Tlv]) -> Result<Vec<Item>, AllocError>
    ensures { IfOk result (λ items. items.items ≡ items_among tlvs.now) }
{
    let mut items = replace(room, Vec::new(alloc));
    items.clear();
    add_items(&mut items, tlvs)?;
    Ok(items)
}

// The message, or its fault.
fn read(
    alloc: Global,
    room: &mut Vec<Tlv>,
    bytes: &[u8],
) -> Result<Result<Message, MessageFault>, OutOfMemory>
    ensures value { IfOk result (λ read. read ≡ message_in bytes.now) }
    ensures memory { OnErr result ((n : ℕ) × IsSignaling bytes.now n) }
{
    match read_message_in(alloc, room, bytes) {
        Ok(message) => Ok(Ok(message)),
        Err(MessageFault::OutOfMemory) => Err(OutOfMemory),
        Err(fault) => Ok(Err(fault)),
    }
}

// The items of a Signaling with this header, or the reason why it is ignored.
fn asks(
    alloc: Global,
    room: &mut Vec<Item>,
    config: &GmConfig,
    header: &Header,
    target: &PortIdentity,
    tlvs: &TlvList,
) -> Result<Result<Items, GmReason>, OutOfMemory>
    ensures { IfOk result (λ found. found
        ≡ items_by config.now header.now (Body.Signaling target.now tlvs.now)) }
{
    if header.domain != config.domain.get() {
        return Ok(Err(GmReason::Domain(header.domain)));
    }
    if !is_target(config.identity, *target) {
        return Ok(Err(GmReason::Target));
    }
    Ok(Ok(Items::new(gather(alloc, room, tlvs.list())?)))
}

// The items of a message, or the reason why it is ignored.
fn items_of(
    alloc: Global,
    room: &mut Vec<Item>,
    config: &GmConfig,
    message: &Message,
) -> Result<Result<Items, GmReason>, OutOfMemory>
    ensures value { IfOk result
        (λ found. found ≡ items_by config.now message.now.header message.now.body) }
    ensures memory { OnErr result (HasTlvs message.now.body) }
{
    let header = &message.header;
    match &message.body {
        Body::Signaling(target, tlvs) => asks(alloc, room, config, header, target, tlvs),
        Body::Ignored => Ok(Err(GmReason::UnknownType(header.message_type))),
        Body::Sync(_)
        | Body::DelayReq(_)
        | Body::FollowUp(_)
        | Body::DelayResp(..)
        | Body::Announce(_) => Ok(Err(GmReason::Other(header.message_type))),
    }
}

// What is heard in a message, or the reason why it is ignored.
fn hear_message(
    alloc: Global,
    room: &mut Vec<Item>,
    config: &GmConfig,
    message: &Message,
) -> Result<Result<Heard, GmReason>, OutOfMemory>
    ensures value { IfOk result
        (λ found. found ≡ heard_by config.now message.now.header message.now.body) }
    ensures memory { OnErr result (HasTlvs message.now.body) }
{
    let header = message.header;
    if let Body::DelayReq(_) = &message.body {
        return Ok(if header.domain == config.domain.get() {
            Ok(Heard::DelayReq(header))
        } else {
            Err(GmReason::Domain(header.domain))
        });
    }
    match items_of(alloc, room, config, message)? {
        Ok(items) => Ok(Ok(Heard::Asks(header, items))),
        Err(reason) => Ok(Err(reason)),
    }
}

/// What a grandmaster hears in a datagram: a Delay_Req in its domain, or the REQUESTs and CANCELs
/// of a Signaling in its domain and for its port, in order; or the first reason why it ignores it.
/// The lists take the room.
///
/// # Errors
/// `OutOfMemory` comes for the lists of a Signaling alone.
pub fn hear_in(
    alloc: Global,
    room: &mut HearingRoom,
    config: &GmConfig,
    bytes: &[u8],
) -> Result<Result<Heard, GmReason>, OutOfMemory>
    ensures heard { IfOk result (λ found. found ≡ heard_in config.now bytes.now) }
    // One reply answers what was heard.
    ensures answerable { IfOk result (λ found. IfOk found IsAnswerable) }
    // Want of memory is no reason.
    ensures no_memory { IfOk result (λ found. IfErr found
        (λ reason. reason ≢ GmReason.Fault MessageFault.OutOfMemory)) }
    ensures memory { OnErr result ((n : ℕ) × IsSignaling bytes.now n) }
{
    match read(alloc, &mut room.tlvs, bytes)? {
        Ok(message) => {
            let heard = hear_message(alloc, &mut room.items, config, &message);
            room.keep_tlvs(message);
            heard
        }
        Err(fault) => Ok(Err(GmReason::Fault(fault))),
    }
}

/// As `hear_in`, in room of its own.
///
/// # Errors
/// `OutOfMemory` comes for the lists of a Signaling alone.
pub fn hear(
    alloc: Global,
    config: &GmConfig,
    bytes: &[u8],
) -> Result<Result<Heard, GmReason>, OutOfMemory>
    ensures heard { IfOk result (λ found. found ≡ heard_in config.now bytes.now) }
    // One reply answers what was heard.
    ensures answerable { IfOk result (λ found. IfOk found IsAnswerable) }
    // Want of memory is no reason.
    ensures no_memory { IfOk result (λ found. IfErr found
        (λ reason. reason ≢ GmReason.Fault MessageFault.OutOfMemory)) }
    ensures memory { OnErr result ((n : ℕ) × IsSignaling bytes.now n) }
{
    hear_in(alloc, &mut HearingRoom::new(alloc), config, bytes)
}

/// The REQUESTs and CANCELs of a Signaling in the grandmaster's domain and for its port, in order;
/// or the first reason why a datagram is none. A Delay_Req is `Other` here.
///
/// # Errors
/// `OutOfMemory` comes for the lists of a Signaling alone.
pub fn asks_of(
    alloc: Global,
    config: &GmConfig,
    bytes: &[u8],
) -> Result<Result<Items, GmReason>, OutOfMemory>
    ensures items { IfOk result (λ found. found ≡ items_in config.now bytes.now) }
    // One reply answers them.
    ensures answerable { IfOk result (λ found. IfOk found AreAnswerable) }
    // Want of memory is no reason.
    ensures no_memory { IfOk result (λ found. IfErr found
        (λ reason. reason ≢ GmReason.Fault MessageFault.OutOfMemory)) }
    ensures memory { OnErr result ((n : ℕ) × IsSignaling bytes.now n) }
{
    match read(alloc, &mut Vec::new(alloc), bytes)? {
        Ok(message) => items_of(alloc, &mut Vec::new(alloc), config, &message),
        Err(fault) => Ok(Err(GmReason::Fault(fault))),
    }
}
