//! Rounds of a lane that turns tables.

ghost use Rattle.std.specs.Prelude.{◌≡◌, ◌<◌, if◌then◌else◌, is_some};
ghost use Rattle.ptu_shared.specs.Turning.{after_rounds, turns_of, with_turn};
ghost use Rattle.ptu_lanes.specs.Waiting.{PassedBy, rights};

use crate::service::Service;
use ptu_outside::{Clock, Port};
use ptu_shared::{Rates, Turner};
use std::sync::Wait;
use std::sync::ledger::Ledger;

// A turn of the table at a new moment of the clock, where it may be turned.
fn turn_one<P: Port + Send, C: Clock, L: Rates, G: Ledger, R: Ledger, W: Wait>(
    service: &Service<'_, P, L, G, R, W>,
    turner: &mut Turner<L>,
    clock: &mut C,
    table: usize,
)
    requires config { service.now.base.now.config.now ≡ L.config }
    requires table { table < 4 }
    ensures moments { PassedBy (if is_some (turns_of table turner.old) then 1 else 0)
        (C.moments clock.old) (C.moments clock.new) }
    ensures turns { turner.new ≡ with_turn table turner.old }
{
    if !turner.may_turn(table) {
        return;
    }
    let Service { base, shared } = service;
    let _ = shared.turn(base.rt, base.config, turner, table, clock.now());
}

/// Turns the tables that the lane may turn, in order of index, each at a new moment of the clock.
/// What is sent, and what fails to be, is counted beside the tables.
pub fn turn_round<P: Port + Send, C: Clock, L: Rates, G: Ledger, R: Ledger, W: Wait>(
    service: &Service<'_, P, L, G, R, W>,
    turner: &mut Turner<L>,
    clock: &mut C,
)
    requires config { service.now.base.now.config.now ≡ L.config }
    ensures moments { PassedBy (rights turner.old) (C.moments clock.old) (C.moments clock.new) }
    ensures turns { turner.new ≡ after_rounds 1 turner.old }
{
    turn_one(service, turner, clock, 0);
    turn_one(service, turner, clock, 1);
    turn_one(service, turner, clock, 2);
    turn_one(service, turner, clock, 3);
}
