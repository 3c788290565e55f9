//! The call `slave`: opens the host, runs all rounds, and writes the lines of the slave.

ghost use Rattle.std.specs.Prelude.{◌≡◌, ℕ, List, length, map, IfOk, OnOk, OnErr, IsErrOf, true};
ghost use Rattle.ptu_outside.specs.{declared.opened.Opened.{Opened}, Handing.{HasPutPart}};
ghost use Rattle.ptu_config.specs.{Limits.{IsSlaveInRange}, Rounds.{all_slave_rounds}};
ghost use Rattle.ptu_judges.specs.Boxes.{IsFreshStock};
ghost use Rattle.ptu_outside.specs.Opening.{OpenedAt};
ghost use Rattle.ptu_slave_daemon.specs.Answers.{CountsOpen, CountsWrite, FailsWith, WasGivenBack, WasOpened};
ghost use Rattle.ptu_slave_daemon.specs.{Happenings.{Selection}, Lines.{output, slave_texts}};
ghost use Rattle.ptu_slave_daemon.specs.Opening.{are_enough};
ghost use Rattle.ptu_slave_daemon.specs.Served.{AreAside, HasServed, HasStopped};

use crate::halt::Halt;
use crate::opening::open_slave;
use crate::rounds::run;
use ptu_config::SlaveSettings;
use ptu_judges::Stock;
use ptu_outside::{Clock, DaemonFault, Failed, Host, Opened, Port, Sink};
use ptu_units::OutOfMemory;
use std::alloc::Global;

// The run over ports and clocks that were opened, which are handed back, with whether the sink
// failed.
fn run_over<P: Port, C: Clock, K: Sink>(
    alloc: Global,
    settings: &SlaveSettings,
    stock: Stock,
    opened: Opened<P, C>,
    sink: &mut K,
) -> Result<(Opened<P, C>, Result<(), Failed>), OutOfMemory>
    requires range { IsSlaveInRange settings.now }
    requires stock { IsFreshStock held stock }
    requires enough { are_enough settings.now.masters
        (length stock.flags.items) (length stock.gaps.items) ≡ true }
    ensures aside { IfOk result (λ pair. AreAside P.sent opened pair.0) }
    ensures served { IfOk result (λ pair. OnOk pair.1
        (HasServed P.Port C.Clock K.written K.handed
        settings.now opened pair.0 sink.old sink.new)) }
    ensures part { IfOk result (λ pair. OnErr pair.1 ((selections : List Selection) × (sends : ℕ)
        × (failures : ℕ) × HasPutPart K.written K.handed sink.old sink.new
        (slave_texts (output (all_slave_rounds settings.now) selections sends failures)))) }
    ensures front { IfOk result (λ pair. OnErr pair.1
        (HasStopped P.Port C.Clock K.written K.handed
        settings.now opened pair.0 sink.old sink.new)) }
    ensures counts { IfOk result (λ pair. FailsWith pair.1 (K.faults sink.old)
        (K.faults sink.new)) }
    ensures stopped { OnErr result ((selections : List Selection) × (sends : ℕ) × (failures : ℕ)
        × HasPutPart K.written K.handed sink.old sink.new
        (slave_texts (output (all_slave_rounds settings.now) selections sends failures))) }
    ensures still { OnErr result (K.faults sink.new ≡ K.faults sink.old) }
{
    let Opened {
        p4,
        p5: mut event,
        c0: mut clock,
        ..
    } = opened;
    let mut slave = open_slave(alloc, settings, stock, p4)?;
    let answer = run(
        alloc,
        settings.all_rounds(),
        &mut slave,
        &mut event,
        &mut clock,
        sink,
    );
    let written = match answer {
        Ok(()) => Ok(()),
        Err(halt) => match halt {
            Halt::Write => Err(Failed),
            Halt::OutOfMemory => return Err(OutOfMemory),
        },
    };
    let back = Opened {
        p4: slave.into_port(),
        p5: event,
        c0: clock,
        ..opened
    };
    Ok((back, written))
}

/// Runs a slave with these settings, which are in their ranges, over the ports and clocks of a
/// host, and writes to the sink. In a round it takes up to 64 datagrams of the general channel and
/// then as many of the event channel, and ticks, and waits for the next datagram or for what is due
/// next; a failed send or receive is counted, and it goes on. At the end it stops, and writes its
/// closing line. The judges are taken from the stock, which is fresh and has one of the stated rule
/// for every master.
///
/// # Errors
/// `Open` where the host opened nothing, and then nothing is written; `Write` where the sink
/// failed; `OutOfMemory`. Ports and clocks are given back to the host but after `OutOfMemory`,
/// before which they are dropped.
pub fn slave<H: Host, K: Sink>(
    alloc: Global,
    settings: &SlaveSettings,
    host: &mut H,
    sink: &mut K,
    stock: Stock,
) -> Result<(), DaemonFault>
    requires range { IsSlaveInRange settings.now }
    requires stock { IsFreshStock held stock }
    requires enough { are_enough settings.now.masters
        (length stock.flags.items) (length stock.gaps.items) ≡ true }

    // The slave ran over the ports and clocks that the host opened, which were given back to it:
    // what port 4 was sent, and what was written, are those of the rounds where all is told and no
    // port failed; and whatever the ports did the closing line was written last, with the rounds of
    // the settings, and with numbers that the ports bear out.
    ensures served { OnOk result ((before : Opened H.P H.C) × (after : Opened H.P H.C)
        × WasOpened (H.opening host.old) before × WasGivenBack (H.back host.new) after
        × HasServed H.P.Port H.C.Clock K.written K.handed
        settings.now before after sink.old sink.new) }

    // What was written when it stopped is a front of an output of this form: lines of selections,
    // and the closing line.
    ensures part { OnErr result ((selections : List Selection) × (sends : ℕ) × (failures : ℕ)
        × HasPutPart K.written K.handed sink.old sink.new
        (slave_texts (output (all_slave_rounds settings.now) selections sends failures))) }
    // Where nothing was opened nothing is written.
    ensures nothing { IsErrOf result DaemonFault.Open → sink.new ≡ sink.old }
    // Where the sink failed the ports and clocks were given back too; and where they tell all and
    // no port failed, what was written is a front of what the rounds say.
    ensures stopped { IsErrOf result DaemonFault.Write
        → (before : Opened H.P H.C) × (after : Opened H.P H.C)
        × WasOpened (H.opening host.old) before × WasGivenBack (H.back host.new) after
        × HasStopped H.P.Port H.C.Clock K.written K.handed
        settings.now before after sink.old sink.new }
    // The host was opened at the settings' address and port numbers, and stands on what it stood
    // on.
    ensures at { OpenedAt result (H.opened_at host.new) (record {
      ip = settings.now.ip;
      event_port = settings.now.event_port;
      general_port = settings.now.general_port;
    }) }
    ensures name { H.name host.new ≡ H.name host.old }
    // A fault always shows, and want of memory is none.
    ensures host_counts { CountsOpen result (H.faults host.old) (H.faults host.new) }
    ensures sink_counts { CountsWrite result (K.faults sink.old) (K.faults sink.new) }
{
    let opened = host.open(
        settings.ip,
        settings.event_port.get(),
        settings.general_port.get(),
    );
    let Ok(opened) = opened else {
        return Err(DaemonFault::Open);
    };
    let Ok((back, written)) = run_over(alloc, settings, stock, opened, sink) else {
        return Err(DaemonFault::OutOfMemory);
    };
    host.close(back);
    match written {
        Ok(()) => Ok(()),
        Err(_) => Err(DaemonFault::Write),
    }
}
