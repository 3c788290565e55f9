//! The daemon of a grandmaster, over a host in two steps.

ghost use Rattle.ptu_config.specs.Limits.{IsGmInRange};
ghost use Rattle.ptu_daemon.specs.{Answers.{HasAnswered}, ServingInTwo.{HasServedInTwo}};

use crate::TwoHost;
use crate::serving::serve;
use ptu_config::GmSettings;
use ptu_outside::{DaemonFault, Host, Sink};
use std::alloc::Global;
use std::sync::Wait;
use std::thread::Threads;

/// Serves a grandmaster of these settings as `serve` does, over the ports of the host in two steps,
/// and writes the same line: a Sync counts there as one datagram, and it failed where its Sync or
/// its Follow_Up did.
///
/// # Errors
/// `Open` if the host does not open, or not the control port, after which the ports and clocks are
/// given back to it; `Write` if the sink does not take the line; and `OutOfMemory`, after which the
/// ports and clocks are dropped.
pub fn serve_in_two_steps<W: Threads + Wait + Sync, H: Host, K: Sink>(
    rt: &W,
    alloc: Global,
    settings: &GmSettings,
    host: &mut H,
    sink: &mut K,
) -> Result<(), DaemonFault>
    requires range { IsGmInRange settings.now }
    ensures answer { HasAnswered K.Sink sink.old sink.new (H.faults host.old) (H.faults host.new)
        (H.opened_at host.new) (H.control_at host.old) (H.control_at host.new) settings.now
        (λ said. HasServedInTwo H.P.Port H.C.Clock settings.now (H.opening host.old)
        (H.back host.new) (H.control host.old) (H.control_back host.new) said) result }
{
    let mut two = TwoHost::new(host);
    serve(rt, alloc, settings, &mut two, sink)
}
