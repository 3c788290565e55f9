//! The words `serve` and `slave`: settings in, a daemon over the host.

ghost use Rattle.std.specs.Prelude.{◌≡◌, ◌≢◌, ◌⊎◌, ◌∷◌, [], length, map};
ghost use Rattle.ptu_outside.specs.{Faults.{HasRisen}, Handing.{HasPut, HasPutFront}};
ghost use Rattle.ptu_judges.specs.Boxes.{IsFreshStock};
ghost use Rattle.ptu_report.specs.Runs.{IsReadWithin};
ghost use Rattle.ptu_config.specs.{Limits.{IsGmInRange}, Refusals.{setting_refusal_text}};
ghost use Rattle.ptu_daemon.specs.Answers.{HasAnswered};
ghost use Rattle.ptu_run.specs.{Answers.{HasEnded}, Daemons.{HasRunServe, HasRunSlave, IsServed}};

use crate::status::{
    BAD_LINE, BROKEN_PROMISE, OUT_OF_MEMORY, SINK_FAULT, SOURCE_FAULT, daemon_status,
};
use ptu_config::{GmSettings, RefusalLine, SetupFault, gm_setup, slave_setup};
use ptu_daemon::{DaemonFault, serve, serve_in_two_steps};
use ptu_judges::Stock;
use ptu_outside::{Host, Sink, Source, write_whole};
use ptu_slave_daemon::slave;
use std::alloc::Global;
use std::sync::Wait;
use std::thread::Threads;

// Writes the line that refuses settings, in one piece.
fn write_refusal<K: Sink>(alloc: Global, line: RefusalLine, sink: &mut K) -> u8
    ensures statuses { (result ≡ BAD_LINE) ⊎ (result ≡ SINK_FAULT) ⊎ (result ≡ OUT_OF_MEMORY) }
    ensures whole { result ≡ BAD_LINE
        → HasPut K.written K.handed sink.old sink.new (setting_refusal_text line ∷ []) }
    ensures part { result ≡ SINK_FAULT
        → HasPutFront K.written K.handed sink.old sink.new (setting_refusal_text line) }
    ensures nothing { result ≡ OUT_OF_MEMORY → sink.new ≡ sink.old }
    ensures fault { result ≡ SINK_FAULT → HasRisen (K.faults sink.old) (K.faults sink.new) }
    ensures still { result ≢ SINK_FAULT → K.faults sink.new ≡ K.faults sink.old }
{
    let Ok(text) = format!(in alloc; "{line}") else {
        return OUT_OF_MEMORY;
    };
    match write_whole(sink, text.as_bytes()) {
        Ok(()) => BAD_LINE,
        Err(_) => SINK_FAULT,
    }
}

// Serves a grandmaster of these settings over the ports of the host, or over these in two steps.
fn serve_by<W: Threads + Wait + Sync, H: Host, K: Sink>(
    rt: &W,
    alloc: Global,
    settings: &GmSettings,
    host: &mut H,
    sink: &mut K,
) -> Result<(), DaemonFault>
    requires range { IsGmInRange settings.now }
    ensures answer { HasAnswered K.Sink sink.old sink.new (H.faults host.old) (H.faults host.new)
        (H.opened_at host.new) (H.control_at host.old) (H.control_at host.new) settings.now
        (λ said. IsServed H.P.Port H.C.Clock (H.opening host.old) (H.back host.new)
        (H.control host.old) (H.control_back host.new) settings.now said) result }
{
    if settings.two_step {
        serve_in_two_steps(rt, alloc, settings, host, sink)
    } else {
        serve(rt, alloc, settings, host, sink)
    }
}

/// Serves a grandmaster over the host, by the settings that the source has left, and gives the
/// status of that.
pub(crate) fn run_serve<W: Threads + Wait + Sync, S: Source, K: Sink, H: Host>(
    rt: &W,
    alloc: Global,
    source: &mut S,
    sink: &mut K,
    host: &mut H,
) -> u8
    ensures served { HasRunServe H.P.Port H.C.Clock K.written K.handed sink.old sink.new
        (H.opening host.old) (H.back host.new) (H.control host.old) (H.control_back host.new)
        (H.opened_at host.new) (H.control_at host.old) (H.control_at host.new)
        (S.left source.old) (S.left source.new) host.old host.new result }
    ensures ended { HasEnded result (S.faults source.old) (S.faults source.new)
        (K.faults sink.old) (K.faults sink.new) (H.faults host.old) (H.faults host.new) }
    ensures no_audit { result ≢ BROKEN_PROMISE }
    ensures bounded { IsReadWithin S.Source source.old source.new 65537 }
{
    match gm_setup(alloc, source) {
        Ok(settings) => daemon_status(serve_by(rt, alloc, &settings, host, sink)),
        Err(SetupFault::Refused(line)) => write_refusal(alloc, line, sink),
        Err(SetupFault::Read) => SOURCE_FAULT,
        Err(SetupFault::OutOfMemory) => OUT_OF_MEMORY,
    }
}

/// Runs a slave over the host, by the settings that the source has left and with judges of the
/// stock, and gives the status of that.
pub(crate) fn run_slave<S: Source, K: Sink, H: Host>(
    alloc: Global,
    source: &mut S,
    sink: &mut K,
    host: &mut H,
    stock: Stock,
) -> u8
    requires stock { IsFreshStock held stock }
    ensures followed { HasRunSlave H.P.Port H.C.Clock K.written K.handed sink.old sink.new
        (H.opening host.old) (H.back host.new) (H.opened_at host.new)
        (length stock.flags.items) (length stock.gaps.items)
        (S.left source.old) (S.left source.new) host.old host.new result }
    ensures ended { HasEnded result (S.faults source.old) (S.faults source.new)
        (K.faults sink.old) (K.faults sink.new) (H.faults host.old) (H.faults host.new) }
    ensures no_audit { result ≢ BROKEN_PROMISE }
    ensures bounded { IsReadWithin S.Source source.old source.new 65537 }
{
    match slave_setup(alloc, source, stock.flags.len(), stock.gaps.len()) {
        Ok(settings) => daemon_status(slave(alloc, &settings, host, sink, stock)),
        Err(SetupFault::Refused(line)) => write_refusal(alloc, line, sink),
        Err(SetupFault::Read) => SOURCE_FAULT,
        Err(SetupFault::OutOfMemory) => OUT_OF_MEMORY,
    }
}
