//! Each call of the outside fails once under a slave's daemon. A failed call is counted in the last
//! line and the slave goes on; what it sends next shows that number, ask and grant were spent. It
//! refuses a slave that asks again at once, or with the same number, after a send that failed; one
//! that holds a grant whose CANCEL it could not send; one that takes more of a channel in a round
//! in which a receive failed; a fault that is not counted, or counted twice; and one that goes on
//! after a line that was not taken.

ghost use Rattle.std.specs.Prelude.{◌≤◌, length, map, IfOk};
ghost use Rattle.ptu_config.specs.Limits.{IsSlaveInRange};
ghost use Rattle.ptu_judges.specs.Boxes.{IsFreshStock};
ghost use Rattle.ptu_outside.specs.MemoryPort.{FitAll};

use super::daemon::{ANNOUNCE, ASK, SYNC, host_at, one_judge, settings};
use ptu_config::SlaveSettings;
use ptu_judges::{FlagJudge, Stock};
use ptu_outside::samples::idle_port;
use ptu_outside::{Arrival, Channel, DaemonFault, Datagram, MemClock, MemHost, MemPort, MemSink};
use ptu_slave_daemon::{has_judges, slave};
use ptu_units::Moment;
use std::alloc::Global;
use std::process::Abort;
use std::test::Fail;

const MASTER: u32 = 0x0a00_0001;

/// The ask again, with the number after the first.
const NEXT_ASK: &str = "0c120040040004000000000000000000000000000a0000000000001100010001057f\
     ffffffffffffffffffff00040006b0010000012c0004000600fc0000012c";

/// The master grants Announce and Sync.
pub(crate) const GRANT: &str =
    "0c120044040004000000000000000000000000000a0000000000000100010000057f\
     0a00000000000011000100050008b0010000012c00010005000800fc0000012c0001";

/// The master cancels Sync.
const CANCEL: &str = "0c120032040004000000000000000000000000000a0000000000000100010001057f\
     0a000000000000110001000600020000";

/// At the stop the slave cancels Announce, with its next number; an acknowledgement takes none.
const LAST_CANCEL: &str = "0c120032040004000000000000000000000000000a0000000000001100010001057f\
     ffffffffffffffffffff00060002b000";

// What happens to one slave, and what it writes and sends by port 4.
#[derive(Clone, Copy)]
struct Case {
    // The moments that the clock tells, in seconds; there is one for each datagram, each round, and
    // the stop.
    seconds: &'static [u64],
    rounds: u32,
    general: &'static [&'static str],
    event: &'static [&'static str],
    // The calls that fail, from 1.
    sends: &'static [u64],
    general_receives: &'static [u64],
    event_receives: &'static [u64],
    writes: &'static [u64],
    answer: Result<(), DaemonFault>,
    output: &'static str,
    sent: &'static [&'static str],
}

const QUIET: Case = Case {
    seconds: &[0],
    rounds: 1,
    general: &[],
    event: &[],
    sends: &[],
    general_receives: &[],
    event_receives: &[],
    writes: &[],
    answer: Ok(()),
    output: "round 1 selected none\nrounds 1 sent 1 failed 0\n",
    sent: &[ASK],
};

const CASES: [Case; 7] = [
    // The first ask: the next one, a second later, has the next number.
    Case {
        seconds: &[0, 1],
        rounds: 2,
        sends: &[1],
        output: "round 1 selected none\nrounds 2 sent 1 failed 1\n",
        sent: &[NEXT_ASK],
        ..QUIET
    },
    // It is not sent again at once.
    Case {
        rounds: 2,
        sends: &[1],
        output: "round 1 selected none\nrounds 2 sent 0 failed 1\n",
        sent: &[],
        ..QUIET
    },
    // A receive of the general channel, which gives the grants in round 2, and the CANCEL at the
    // stop.
    Case {
        rounds: 2,
        general: &[GRANT],
        general_receives: &[1],
        sends: &[2],
        output: "round 1 selected none\nrounds 2 sent 1 failed 2\n",
        ..QUIET
    },
    // The acknowledgement of the master's CANCEL; the stop cancels what is left.
    Case {
        rounds: 2,
        general: &[GRANT, CANCEL],
        general_receives: &[1],
        sends: &[2],
        output: "round 1 selected none\nrounds 2 sent 2 failed 2\n",
        sent: &[ASK, LAST_CANCEL],
        ..QUIET
    },
    // A receive of the event channel: the Sync is heard in round 2.
    Case {
        rounds: 2,
        general: &[ANNOUNCE],
        event: &[SYNC],
        event_receives: &[1],
        output: "round 1 selected none\nround 2 selected 10.0.0.1\nrounds 2 sent 1 failed 1\n",
        ..QUIET
    },
    // The first line, and the last one.
    Case {
        rounds: 2,
        writes: &[1],
        answer: Err(DaemonFault::Write),
        output: "",
        ..QUIET
    },
    Case {
        writes: &[2],
        answer: Err(DaemonFault::Write),
        output: "round 1 selected none\n",
        ..QUIET
    },
];

// A datagram of the master.
fn arrival(alloc: Global, digits: &str) -> Result<Arrival, Fail>
    ensures { IfOk result (λ a. length a.bytes ≤ 2048) }
{
    let bytes = hex::decode(alloc, digits)?;
    if bytes.len() > 2048 {
        return Err(Fail::new("a datagram is not longer"));
    }
    Ok(Arrival {
        ip: MASTER,
        bytes: Datagram::new(bytes),
    })
}

/// What waits at a port of these datagrams of the master, of which there are at most two.
pub(crate) fn arrivals(alloc: Global, datagrams: &[&str]) -> Result<Vec<Arrival>, Fail>
    ensures { IfOk result (λ list. FitAll list.items) }
{
    match datagrams {
        [] => Ok(Vec::new(alloc)),
        [one] => Ok(Vec::from_array(alloc, [arrival(alloc, one)?])?),
        [one, two, ..] => {
            let list = [arrival(alloc, one)?, arrival(alloc, two)?];
            Ok(Vec::from_array(alloc, list)?)
        }
    }
}

fn clock(alloc: Global, seconds: &[u64]) -> Result<MemClock, Fail> {
    let mut moments = Vec::new(alloc);
    for second in seconds {
        let nanos = second.saturating_mul(1_000_000_000);
        moments.push(Moment::of(nanos).ok_or("a moment is below 2^62")?)?;
    }
    Ok(MemClock::new(moments))
}

// Port 4 was sent these to the master, and nothing else.
fn assert_sent(rt: &impl Abort, alloc: Global, port: &MemPort, sent: &[&str]) -> Result<(), Fail> {
    for (place, wanted) in sent.iter().enumerate() {
        let (ip, channel, bytes) = port.sent(place).ok_or("too few were sent")?;
        let digits = hex::encode(alloc, bytes)?;
        assert!(rt; digits.as_str() == *wanted);
        assert!(rt; (ip, channel) == (MASTER, Channel::General));
    }
    assert!(rt; port.sent(sent.len()).is_none(), "one more was sent");
    Ok(())
}

// The host of a case.
fn host(alloc: Global, case: &Case) -> Result<MemHost, Fail> {
    let at_general = arrivals(alloc, case.general)?;
    let at_event = arrivals(alloc, case.event)?;
    let sends = case.sends.to_vec(alloc)?;
    let general_receives = case.general_receives.to_vec(alloc)?;
    let event_receives = case.event_receives.to_vec(alloc)?;
    let clock = clock(alloc, case.seconds)?;
    let p4 = MemPort::new(alloc, at_general, sends, general_receives);
    let p5 = MemPort::new(alloc, at_event, Vec::new(alloc), event_receives);
    Ok(host_at(alloc, clock, p4, p5, false))
}

// Runs the slave of a case over its host.
fn assert_run(
    rt: &impl Abort,
    alloc: Global,
    case: &Case,
    settings: &SlaveSettings,
    host: &mut MemHost,
    stock: Stock,
) -> Result<(), Fail>
    requires range { IsSlaveInRange settings.now }
    requires stock { IsFreshStock held stock }
{
    let mut sink = MemSink::new(alloc, case.writes.to_vec(alloc)?);
    assert!(rt; has_judges(settings, &stock));
    assert!(rt; slave(alloc, settings, host, &mut sink, stock) == case.answer);
    let output = str::from_utf8(sink.bytes()).ok().ok_or("plain text")?;
    assert_eq!(rt; output, case.output);
    let back = host.back().ok_or("given back")?;
    assert_sent(rt, alloc, &back.p4, case.sent)
}

fn assert_case(rt: &impl Abort, alloc: Global, case: &Case, stock: Stock) -> Result<(), Fail>
    requires { IsFreshStock held stock }
{
    let settings = settings(alloc, case.rounds.max(1), 1)?;
    let mut host = host(alloc, case)?;
    let run = assert_run(rt, alloc, case, &settings, &mut host, stock);
    drop(host);
    run
}

#[test]
fn calls_fail_once(rt: HostRuntime) -> Result<(), Fail> {
    let alloc = rt.alloc();
    for case in &CASES {
        let stock = one_judge(alloc, Box::new(alloc, FlagJudge::new())?)?;
        assert_case(&rt, alloc, case, stock)?;
    }
    Ok(())
}

#[test]
fn a_host_that_does_not_open_is_a_fault(rt: HostRuntime) -> Result<(), Fail> {
    let alloc = rt.alloc();
    let settings = settings(alloc, 1, 1)?;
    let clock = clock(alloc, &[])?;
    let stock = one_judge(alloc, Box::new(alloc, FlagJudge::new())?)?;
    let mut host = host_at(alloc, clock, idle_port(alloc), idle_port(alloc), true);
    let mut sink = MemSink::new(alloc, Vec::new(alloc));
    assert!(rt; has_judges(&settings, &stock));
    let answer = slave(alloc, &settings, &mut host, &mut sink, stock);
    drop(host);
    assert!(rt; answer == Err(DaemonFault::Open));
    assert!(rt; sink.bytes().is_empty());
    Ok(())
}
