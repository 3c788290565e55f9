//! Rounds of the lane that takes Signaling.

ghost use Rattle.std.specs.Prelude.{◌≡◌, ◌+◌, ◌*◌, ◌^◌, ◌≤◌, ℕ, List, [], length, true, false, if◌then◌else◌, IfOk, IfSome, OnErr};
ghost use Rattle.ptu_outside.specs.Faults.{HasNotFallen, HasRisen, HasRisenBy, HasRisenJust};
ghost use Rattle.ptu_outside.specs.Rounds.{most as most_in_round};
ghost use Rattle.ptu_lanes.specs.Rounds.{BrokeOff, Exchange, Exchanged, HasServed, IsRound, IsUnanswered};
ghost use Rattle.ptu_lanes.specs.Waiting.{PassedBy};

use crate::answering::{Origin, answer_datagram};
use crate::service::Service;
use ptu_config::MOST_DATAGRAMS;
use ptu_outside::{Clock, Port};
use ptu_shared::{Rates, Seat};
use ptu_units::OutOfMemory;
use ptu_units::sizes::LONGEST_DATAGRAM;
use std::sync::Wait;
use std::sync::ledger::Ledger;

/// What a lane did that takes Signaling.
#[derive(Clone, Copy, Debug, PartialEq, Eq)]
pub struct Control {
    /// How many asks within the profile were decided.
    pub asks: u64,
    /// How many replies were sent.
    pub sent: u64,
    /// How many sends and receives failed.
    pub failed: u64,
}

// Nothing was done.
pub(crate) const IDLE: Control = Control {
    asks: 0,
    sent: 0,
    failed: 0,
};

// Takes the first datagram that waits, if one does, and answers it at a new moment of the clock.
// Gives what was done, and whether there may be more to take.
fn take_one<P: Port + Send, C: Clock, L: Rates, G: Ledger, R: Ledger, W: Wait>(
    service: &Service<'_, P, L, G, R, W>,
    seat: &mut Seat<G, R>,
    port: &mut P,
    clock: &mut C,
    buffer: &mut [u8; LONGEST_DATAGRAM],
) -> Result<(Control, bool), OutOfMemory>
    requires ledger { L.parts ≡ 4 }
    requires counts { (seat.old.granted + 32 ≤ 2 ^ 56) × (seat.old.refused + 32 ≤ 2 ^ 56) }
    ensures served { IfOk result (λ r. (exchanges : List Exchange)
        × (length exchanges ≡ (if r.1 then 1 else 0))
        × (missed : ℕ) × (missed ≡ (if r.1 then 0 else r.0.failed))
        × HasServed P.Port L.most service.now.base.now.config.now exchanges port.old port.new
        seat.old seat.new r.0.asks r.0.sent r.0.failed missed) }
    ensures failed { IfOk result (λ r. r.0.failed ≤ 1) }
    ensures end { IfOk result (λ r. r.1 ≡ false
        → ¬ HasRisen (P.faults port.old) (P.faults port.new)
        → IfSome (P.waiting port.new) (λ left. left ≡ [])) }
    ensures moments { IfOk result (λ r.
        PassedBy (if r.1 then 1 else 0) (C.moments clock.old) (C.moments clock.new)) }
    ensures broke_off { OnErr result (IsUnanswered P.Port C.Clock port.old port.new
        clock.old clock.new seat.old seat.new) }
{
    match port.receive(buffer) {
        Ok(Some((from, size))) => {
            let at = clock.now();
            let origin = Origin { from, at };
            let answered = answer_datagram(service, seat, port, origin, &buffer[..size])?;
            Ok((answered, true))
        }
        Ok(None) => Ok((IDLE, false)),
        Err(_) => {
            let failed = Control { failed: 1, ..IDLE };
            Ok((failed, false))
        }
    }
}

/// Takes up to 64 datagrams from the port, until none waits or a receive fails, each at a new
/// moment of the clock. The items of each Signaling are decided at the shared tables, in order, and
/// one reply with all answers goes to its sender on the general channel; all other datagrams, and
/// those without items, get none (IEEE 1588-2019 clause 16.1.4).
///
/// # Errors
/// `OutOfMemory`, with the exchanges so far, which are finished. The datagram at which it comes is
/// taken and not answered; what was decided of it stands, and the seat has counted that.
pub fn control_round<P: Port + Send, C: Clock, L: Rates, G: Ledger, R: Ledger, W: Wait>(
    service: &Service<'_, P, L, G, R, W>,
    seat: &mut Seat<G, R>,
    port: &mut P,
    clock: &mut C,
) -> Result<Control, OutOfMemory>
    requires ledger { L.parts ≡ 4 }
    requires counts { (seat.old.granted ≤ 2 ^ 55) × (seat.old.refused ≤ 2 ^ 55) }
    // The seat's two counts rose together by the asks.
    ensures counts { IfOk result (λ c. seat.new.granted + seat.new.refused
        ≡ seat.old.granted + seat.old.refused + c.asks) }
    ensures no_less { IfOk result (λ c. (seat.old.granted ≤ seat.new.granted)
        × (seat.old.refused ≤ seat.new.refused)) }
    ensures most { IfOk result (λ c. (c.asks ≤ 32 * most_in_round)
        × (c.sent ≤ most_in_round) × (c.failed ≤ most_in_round)) }
    // Where the port tells what waits, and its count did not rise, these are the datagrams that it
    // took, what answered them, and what was counted.
    ensures round { IfOk result (λ c. ¬ HasRisen (P.faults port.old) (P.faults port.new) →
        IfSome (P.waiting port.new) (λ left. IsRound P.Port L.most service.now.base.now.config.now
        port.old port.new left seat.old.granted seat.new.granted c.asks c.sent)) }
    // Whatever its count did, and whether or not it tells: what was taken, answered and counted,
    // what was sent, and that a failed receive was the last.
    ensures exchanged { IfOk result (λ c. Exchanged P.Port C.Clock L.most
        service.now.base.now.config.now 1 c.sent c.failed port.old port.new
        clock.old clock.new seat.old seat.new) }
    ensures broke_off { OnErr result (BrokeOff P.Port C.Clock L.most
        service.now.base.now.config.now port.old port.new clock.old clock.new seat.old seat.new) }
    // Each call that failed is a fault, and there are no other faults.
    ensures failed { IfOk result (λ c.
        HasRisenBy c.failed (P.faults port.old) (P.faults port.new)) }
    ensures just { IfOk result (λ c. P.counts_once ≡ true
        → HasRisenJust c.failed (P.faults port.old) (P.faults port.new)) }
    ensures quiet { IfOk result (λ c. c.failed ≡ 0
        → P.faults port.new ≡ P.faults port.old) }
    ensures no_fall { IfOk result (λ c. HasNotFallen (P.faults port.old) (P.faults port.new)) }
{
    let mut control = IDLE;
    let mut buffer = [0; LONGEST_DATAGRAM];
    for _i in 0..MOST_DATAGRAMS {
        let (one, goes_on) = take_one(service, seat, port, clock, &mut buffer)?;
        control.asks += one.asks;
        control.sent += one.sent;
        control.failed += one.failed;
        if !goes_on {
            break;
        }
    }
    Ok(control)
}
