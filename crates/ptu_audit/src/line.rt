//! What a line of a report says of a grandmaster.

ghost use Rattle.std.specs.Prelude.{◌≡◌, IfOk};
ghost use Rattle.ptu_messages.specs.Reading.{message_in};
ghost use Rattle.ptu_audit.specs.Lines as specs;

use ptu_audit_lines::{Decision, Entry};
use ptu_messages::{Body, Message, MessageFault, PortIdentity, TlvList, read_message};
use ptu_units::{Client, Kind, OutOfMemory, Stamp};
use std::alloc::Global;

/// What stands behind the number of a line. Moments are in nanoseconds, capacities in sixteenths of
/// a message per second.
#[derive(Drop)]
pub(crate) enum Said {
    /// A grandmaster decided on a REQUEST or a CANCEL.
    Decided(Decision),
    /// The capacity of the grandmaster with this address became another.
    Change {
        grandmaster: u32,
        capacity: u64,
        at: u64,
    },
    /// A grant was shed.
    Shed {
        kind: Kind,
        client: Client,
    },
    /// A Signaling was sent (IEEE 1588-2019 clause 13.12).
    Signaled {
        from: u32,
        to: u32,
        target: PortIdentity,
        list: TlvList,
    },
    /// A message of a kind was sent, with this timestamp.
    Timed {
        from: u32,
        to: u32,
        kind: Kind,
        stamp: Stamp,
    },
    /// It does not matter.
    Other,
}

/// A line of a report.
#[derive(Drop)]
pub(crate) struct Line {
    /// Its number in the report, from 1.
    pub(crate) number: u32,
    /// The number of the script's line that it belongs to.
    pub(crate) script: u64,
    pub(crate) said: Said,
}

// What a message says that was sent from an address to another.
fn sent_by(from: u32, to: u32, body: Body) -> Said
    ensures { result ≡ specs.said_of_body from to body }
{
    match body {
        Body::Sync(stamp) => Said::Timed {
            from,
            to,
            kind: Kind::Sync,
            stamp,
        },
        Body::DelayResp(stamp, _) => Said::Timed {
            from,
            to,
            kind: Kind::DelayResp,
            stamp,
        },
        Body::Announce(announce) => Said::Timed {
            from,
            to,
            kind: Kind::Announce,
            stamp: announce.origin,
        },
        Body::Signaling(target, list) => Said::Signaled {
            from,
            to,
            target,
            list,
        },
        Body::DelayReq(_) | Body::FollowUp(_) | Body::Ignored => Said::Other,
    }
}

// The message, or its fault.
fn read(alloc: Global, octets: &[u8]) -> Result<Result<Message, MessageFault>, OutOfMemory>
    ensures { IfOk result (λ read. read ≡ message_in octets.now) }
{
    match read_message(alloc, octets) {
        Ok(message) => Ok(Ok(message)),
        Err(MessageFault::OutOfMemory) => Err(OutOfMemory),
        Err(fault) => Ok(Err(fault)),
    }
}

// What a datagram says that was sent from an address to another.
fn sent_as(from: u32, to: u32, read: Result<Message, MessageFault>) -> Said
    ensures { result ≡ specs.sent_as from to read }
{
    match read {
        Ok(message) => sent_by(from, to, message.body),
        Err(_) => Said::Other,
    }
}

/// What an entry of a report says.
///
/// # Errors
/// `OutOfMemory`.
pub(crate) fn said_by(alloc: Global, entry: &Entry<'_>) -> Result<Said, OutOfMemory>
    ensures { IfOk result (λ said. said ≡ specs.said_by entry.now) }
{
    match entry {
        Entry::Decided(decision) => Ok(Said::Decided(*decision)),
        Entry::Capacity {
            grandmaster,
            capacity,
            at,
        } => Ok(Said::Change {
            grandmaster: *grandmaster,
            capacity: *capacity,
            at: *at,
        }),
        Entry::Shed { kind, client, .. } => Ok(Said::Shed {
            kind: *kind,
            client: *client,
        }),
        Entry::Send {
            from,
            to,
            octets,
            ..
        } => {
            let read = read(alloc, octets.as_slice())?;
            Ok(sent_as(*from, *to, read))
        }
        Entry::Other => Ok(Said::Other),
    }
}
