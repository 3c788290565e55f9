//! Ticks and the stop of a slave.

ghost use Rattle.std.specs.Prelude.{◌<◌, ◌≤◌, ◌+◌, List, ◌++◌, map, length};
ghost use Rattle.ptu_outside.specs.HandsOver.{HandsOver};
ghost use Rattle.ptu_record.specs.Tick.{Sending};
ghost use Rattle.ptu_slave_messages.specs.Sending.{sending_departure};
ghost use Rattle.ptu_profile.specs.Target.{all_ones};
ghost use Rattle.ptu_slave.specs.{Kept.{Kept}, Parts.{AllSent, Ticks}};

use crate::node::Core;
use ptu_outside::{Port, Sends};
use ptu_slave_messages::{send_stop, send_tick};
use ptu_units::Moment;

/// What the masters are sent for.
#[derive(Clone, Copy)]
pub(crate) enum Occasion {
    Tick,
    Stop,
}

// Hands to the port what one master is sent.
fn send_one<P: Port>(
    core: &mut Core,
    port: &mut P,
    at: Moment,
    master: usize,
    occasion: Occasion,
) -> Sends
    requires { master < length core.old.masters }
    ensures sends { (first : Kept) (before : List Sending) →
        AllSent occasion master at first core.old before → (more : List Sending) ×
        AllSent occasion (master + 1) at first core.new (before ++ more) ×
        HandsOver P.Port port.old port.new
        (map (sending_departure core.old.config core.old.masters all_ones) more)
        result.sent result.failed }
    ensures few { result.sent + result.failed ≤ 2 }
{
    match occasion {
        Occasion::Tick => {
            let plan = core.ask(at, master);
            send_tick(port, core.config(), core.address(master), &plan)
        }
        Occasion::Stop => {
            let plan = core.end(at, master);
            send_stop(port, core.config(), core.address(master), &plan)
        }
    }
}

/// Hands to the port what is sent to each master, in their order.
pub(crate) fn send_all<P: Port>(
    core: &mut Core,
    port: &mut P,
    at: Moment,
    occasion: Occasion,
) -> Sends
    ensures sends { (sendings : List Sending) ×
        AllSent occasion (length core.old.masters) at core.old core.new sendings ×
        HandsOver P.Port port.old port.new
        (map (sending_departure core.old.config core.old.masters all_ones) sendings)
        result.sent result.failed }
{
    let mut sends = Sends::none();
    for master in 0..core.masters().len() {
        sends = sends.and(send_one(core, port, at, master, occasion));
    }
    sends
}

/// Hands to the port what a tick sends, which is nothing after a stop.
pub(crate) fn tick_all<P: Port>(core: &mut Core, port: &mut P, at: Moment) -> Sends
    ensures sends { (sendings : List Sending) × Ticks at core.old core.new sendings ×
        HandsOver P.Port port.old port.new
        (map (sending_departure core.old.config core.old.masters all_ones) sendings)
        result.sent result.failed }
{
    if core.is_stopped() {
        return Sends::none();
    }
    send_all(core, port, at, Occasion::Tick)
}
