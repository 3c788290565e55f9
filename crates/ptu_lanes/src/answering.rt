//! Answers to the datagrams that a lane takes.

ghost use Rattle.std.specs.{Prelude.{◌≡◌, ◌+◌, ◌^◌, ◌<◌, ◌≤◌, List, [], ◌∷◌, length, map, IfOk, OnErr}, List.{All}};
ghost use Rattle.ptu_outside.specs.HandsOver.{HandsOver};
ghost use Rattle.ptu_units.specs.Kind.{kind_of};
ghost use Rattle.ptu_gm_messages.specs.{Deciding.{answer_to, client_of}, Items.{AreAnswerable}};
ghost use Rattle.ptu_grandmaster.specs.declared.outcome.Outcome.{Outcome};
ghost use Rattle.ptu_grandmaster.specs.Outcomes.{answers_seen, decision_seen, item_seen};
ghost use Rattle.ptu_lanes.specs.Answers.{CancelFits, HasAnswered, WasDecided};
ghost use Rattle.ptu_lanes.specs.Rounds.{HasReplied, reply_if_any};

use crate::service::Service;
use crate::signaling::{Control, IDLE};
use ptu_admit::Cancelled;
use ptu_gm_messages::{Heard, Item, client_of, hear};
use ptu_grandmaster::{Outcome, Outcomes, reply_of};
use ptu_messages::Header;
use ptu_outside::{Channel, Port, Sends, hand};
use ptu_profile::GmConfig;
use ptu_shared::{Rates, Seat};
use ptu_units::sizes::LONGEST_SIGNALING;
use ptu_units::{Client, Kind, Moment, OutOfMemory};
use std::sync::Wait;
use std::sync::ledger::Ledger;

/// Where a datagram came from, and when.
#[derive(Clone, Copy)]
pub(crate) struct Origin {
    pub from: u32,
    pub at: Moment,
}

// Ends the client's grant of the kind with this messageType, if a kind has it.
fn end<P: Port + Send, L: Rates, G: Ledger, R: Ledger, W: Wait>(
    service: &Service<'_, P, L, G, R, W>,
    t: Moment,
    client: &Client,
    code: u8,
) -> Option<Cancelled>
    ensures { CancelFits t (kind_of code) result }
{
    match Kind::of(code) {
        Some(kind) => Some(service.shared.cancel(service.base.rt, t, client, kind)),
        None => None,
    }
}

// Decides an item of the client at the shared tables.
fn answer_item<P: Port + Send, L: Rates, G: Ledger, R: Ledger, W: Wait>(
    service: &Service<'_, P, L, G, R, W>,
    seat: &mut Seat<G, R>,
    t: Moment,
    client: &Client,
    item: Item,
) -> Result<Outcome, OutOfMemory>
    requires ledger { L.parts ≡ 4 }
    requires counts { (seat.old.granted < 2 ^ 56) × (seat.old.refused < 2 ^ 56) }
    ensures item { IfOk result (λ o. item_seen o ≡ item) }
    ensures decided { IfOk result
        (WasDecided L.most service.now.base.now.config.now t client.now) }
    ensures answered { IfOk result (λ o. HasAnswered service.now.base.now.config.now (item ∷ [])
        (answer_to (decision_seen o) ∷ []) seat.old seat.new) }
    ensures no_less { (seat.old.granted ≤ seat.new.granted)
        × (seat.old.refused ≤ seat.new.refused) }
{
    match item {
        Item::Request(ask) => {
            let Service { base, shared } = service;
            let verdict = shared.admit(base.rt, seat, base.config, t, client, &ask)?;
            Ok(Outcome::Verdict(ask, verdict))
        }
        Item::Cancel(code) => {
            let cancelled = end(service, t, client, code);
            Ok(Outcome::Cancel(code, cancelled))
        }
    }
}

// Decides the items of the client at the shared tables, in order.
fn answer_items<P: Port + Send, L: Rates, G: Ledger, R: Ledger, W: Wait>(
    service: &Service<'_, P, L, G, R, W>,
    seat: &mut Seat<G, R>,
    t: Moment,
    client: &Client,
    items: &[Item],
) -> Result<Outcomes, OutOfMemory>
    requires ledger { L.parts ≡ 4 }
    requires few { length items.now ≤ 32 }
    requires counts { (seat.old.granted + 32 ≤ 2 ^ 56) × (seat.old.refused + 32 ≤ 2 ^ 56) }
    ensures items { IfOk result (λ os. map item_seen os ≡ items.now) }
    ensures decided { IfOk result
        (All (WasDecided L.most service.now.base.now.config.now t client.now)) }
    ensures answered { IfOk result (λ os.
        HasAnswered service.now.base.now.config.now items.now (answers_seen os) seat.old seat.new) }
    ensures no_less { (seat.old.granted ≤ seat.new.granted)
        × (seat.old.refused ≤ seat.new.refused) }
{
    let mut outcomes = Vec::new(service.base.alloc);
    for item in items {
        outcomes.push(answer_item(service, seat, t, client, *item)?)?;
    }
    Ok(Outcomes::new(outcomes))
}

// Sends the reply to a Signaling with this header, which came from this IPv4 address. Without
// outcomes there is none. Gives how many were sent and how many failed to be.
fn send_reply<P: Port>(
    port: &mut P,
    config: &GmConfig,
    from: u32,
    header: &Header,
    outcomes: &Outcomes,
) -> Sends
    requires { AreAnswerable (map item_seen outcomes.now) }
    ensures { HandsOver P.Port port.old port.new
        (reply_if_any config.now from header.now (answers_seen outcomes.now))
        result.sent result.failed }
{
    if outcomes.list().is_empty() {
        return Sends::none();
    }
    let mut out = [0; LONGEST_SIGNALING];
    let size = reply_of(config, &header.source, header.sequence, outcomes, &mut out);
    Sends::of(hand(port, from, Channel::General, &out[..size]))
}

// Answers a Signaling with this header: all its items, and then one reply.
fn answer_signaling<P: Port + Send, L: Rates, G: Ledger, R: Ledger, W: Wait>(
    service: &Service<'_, P, L, G, R, W>,
    seat: &mut Seat<G, R>,
    port: &mut P,
    origin: Origin,
    header: &Header,
    items: &[Item],
) -> Result<Control, OutOfMemory>
    requires ledger { L.parts ≡ 4 }
    requires answerable { AreAnswerable items.now }
    requires counts { (seat.old.granted + 32 ≤ 2 ^ 56) × (seat.old.refused + 32 ≤ 2 ^ 56) }
    ensures answered { IfOk result (λ c. (outcomes : List Outcome)
        × (map item_seen outcomes ≡ items.now)
        × All (WasDecided L.most service.now.base.now.config.now origin.at
        (client_of origin.from header.now)) outcomes
        × HasAnswered service.now.base.now.config.now items.now (answers_seen outcomes)
        seat.old seat.new
        × HandsOver P.Port port.old port.new
        (reply_if_any service.now.base.now.config.now origin.from header.now
        (answers_seen outcomes))
        c.sent c.failed) }
    ensures asks { IfOk result (λ c. seat.new.granted + seat.new.refused
        ≡ seat.old.granted + seat.old.refused + c.asks) }
    ensures unsent { OnErr result (port.new ≡ port.old) }
    ensures no_less { (seat.old.granted ≤ seat.new.granted)
        × (seat.old.refused ≤ seat.new.refused) }
{
    let before = seat.granted() + seat.refused();
    let client = client_of(origin.from, header);
    let outcomes = answer_items(service, seat, origin.at, &client, items)?;
    let sends = send_reply(port, service.base.config, origin.from, header, &outcomes);
    Ok(Control {
        asks: seat.granted() + seat.refused() - before,
        sent: sends.sent,
        failed: sends.failed,
    })
}

// Answers a datagram of this origin. Whatever is no Signaling is ignored.
pub(crate) fn answer_datagram<P: Port + Send, L: Rates, G: Ledger, R: Ledger, W: Wait>(
    service: &Service<'_, P, L, G, R, W>,
    seat: &mut Seat<G, R>,
    port: &mut P,
    origin: Origin,
    bytes: &[u8],
) -> Result<Control, OutOfMemory>
    requires ledger { L.parts ≡ 4 }
    requires counts { (seat.old.granted + 32 ≤ 2 ^ 56) × (seat.old.refused + 32 ≤ 2 ^ 56) }
    ensures replied { IfOk result (λ c. (outcomes : List Outcome)
        × HasReplied P.Port L.most service.now.base.now.config.now
        (record { datagram = record { ip = origin.from; bytes = bytes.now }; outcomes = outcomes })
        port.old port.new seat.old seat.new c.asks c.sent c.failed) }
    ensures unsent { OnErr result (port.new ≡ port.old) }
    ensures no_less { (seat.old.granted ≤ seat.new.granted)
        × (seat.old.refused ≤ seat.new.refused) }
{
    match hear(service.base.alloc, service.base.config, bytes)? {
        Ok(Heard::Asks(header, items)) => {
            answer_signaling(service, seat, port, origin, &header, items.list())
        }
        Ok(Heard::DelayReq(_)) => Ok(IDLE),
        Err(_) => Ok(IDLE),
    }
}
