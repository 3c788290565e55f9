//! Whether decisions are answered, and sheddings told of.

ghost use Rattle.std.specs.Prelude.{◌≡◌};
ghost use Rattle.ptu_audit.specs.Answered as specs;

use crate::line::Said;
use ptu_audit_lines::Decision;
use ptu_messages::{PortIdentity, Tlv};
use ptu_units::timescale::NANOS_PER_SECOND;
use ptu_units::{Client, Kind};

// Whether the TLV is a GRANT that invites a renewal, of the code and logarithm, from one moment to
// another, in nanoseconds.
fn grants(code: u8, log: i8, at: u64, until: u64, tlv: &Tlv) -> bool
    ensures { result ≡ specs.grants code log at until tlv.now }
{
    match *tlv {
        Tlv::Grant(ask, renewal) => {
            renewal
                && ask.code == code
                && ask.log == log
                && u128::from(at) + u128::from(ask.seconds) * u128::from(NANOS_PER_SECOND)
                    == u128::from(until)
        }
        _ => false,
    }
}

// Whether the TLV denies a request of the code.
fn denies(code: u64, tlv: &Tlv) -> bool
    ensures { result ≡ specs.denies code tlv.now }
{
    match *tlv {
        Tlv::Grant(ask, renewal) => !renewal && u64::from(ask.code) == code && ask.seconds == 0,
        _ => false,
    }
}

// Whether the TLV denies a request of the code and logarithm.
fn denies_at(code: u8, log: i8, tlv: &Tlv) -> bool
    ensures { result ≡ specs.denies_at code log tlv.now }
{
    match *tlv {
        Tlv::Grant(ask, renewal) => {
            !renewal && ask.code == code && ask.seconds == 0 && ask.log == log
        }
        _ => false,
    }
}

// Whether the TLV acknowledges a CANCEL of the code.
fn acknowledges(code: u64, tlv: &Tlv) -> bool
    ensures { result ≡ specs.acknowledges code tlv.now }
{
    match *tlv {
        Tlv::Ack(other) => u64::from(other) == code,
        _ => false,
    }
}

// Whether the TLV answers the decision.
fn answers(decision: &Decision, tlv: &Tlv) -> bool
    ensures { result ≡ specs.answers decision.now tlv.now }
{
    match *decision {
        Decision::Granted {
            kind,
            log,
            at,
            until,
        } => grants(kind.code(), log.value(), at, until, tlv),
        Decision::Short { kind, log, .. } => denies_at(kind.code(), log.value(), tlv),
        Decision::OutsideType { code } => denies(code, tlv),
        Decision::OutsideLog { kind, log } => denies_at(kind.code(), log, tlv),
        Decision::OutsideDuration { kind, log, .. } => denies_at(kind.code(), log.value(), tlv),
        Decision::Cancelled { kind, .. } => acknowledges(u64::from(kind.code()), tlv),
        Decision::Nothing { kind, .. } => acknowledges(u64::from(kind.code()), tlv),
        Decision::NothingCode { code } => acknowledges(code, tlv),
    }
}

/// Whether this says a decision, and the TLV answers it.
pub(crate) fn is_answered_by(said: &Said, tlv: &Tlv) -> bool
    ensures { result ≡ specs.is_answered_by said.now tlv.now }
{
    match said {
        Said::Decided(decision) => answers(decision, tlv),
        _ => false,
    }
}

// Whether the TLVs are the one CANCEL of the code.
fn cancels(code: u8, list: &[Tlv]) -> bool
    ensures { result ≡ specs.cancels code list.now }
{
    match list {
        [Tlv::Cancel(other)] => *other == code,
        _ => false,
    }
}

// Whether the client has this address and identity.
fn is_client(client: &Client, ip: u32, identity: PortIdentity) -> bool
    ensures { result ≡ specs.is_client client.now ip identity }
{
    client.ip == ip && client.clock == identity.clock && client.port == identity.port
}

// Whether this says that the grandmaster sent the client the CANCEL of the kind.
fn tells(grandmaster: u32, kind: Kind, client: &Client, said: &Said) -> bool
    ensures { result ≡ specs.tells grandmaster kind client.now said.now }
{
    match said {
        Said::Signaled {
            from,
            to,
            target,
            list,
        } => {
            *from == grandmaster
                && is_client(client, *to, *target)
                && cancels(kind.code(), list.list())
        }
        _ => false,
    }
}

/// Whether the first says a shedding, and the second that its client was told of it.
pub(crate) fn tells_of(grandmaster: u32, shed: &Said, send: &Said) -> bool
    ensures { result ≡ specs.tells_of grandmaster shed.now send.now }
{
    match shed {
        Said::Shed { kind, client } => tells(grandmaster, *kind, client, send),
        _ => false,
    }
}
