//! Until when a slave's daemon waits after a round.

ghost use Rattle.ptu_config.specs.Limits.{IsSlaveInRange};
ghost use Rattle.ptu_judges.specs.Boxes.{IsFreshStock};

use super::daemon::{ANNOUNCE, SYNC, one_judge, settings};
use super::daemon_faults::{GRANT, arrivals};
use ptu_config::SlaveSettings;
use ptu_judges::{FlagJudge, Stock};
use ptu_outside::samples::{OnceHost, event_noted, noting, opened_with};
use ptu_outside::{MemPort, MemSink};
use ptu_slave_daemon::{has_judges, slave};
use std::alloc::Global;
use std::process::Abort;
use std::sync::atomic::AtomicU64;
use std::test::Fail;

const SECOND: u64 = 1_000_000_000;

// A wait ends by so many nanoseconds after what is due.
const SLACK: u64 = 1_100_000;

// A port at which these datagrams of the master wait.
fn port_with(alloc: Global, datagrams: &[&str]) -> Result<MemPort, Fail> {
    let waiting = arrivals(alloc, datagrams)?;
    Ok(MemPort::new(alloc, waiting, Vec::new(alloc), Vec::new(alloc)))
}

// Runs a slave over a host with these ports 4 and 5, whose clocks stand at 0: how often the port of
// the event channel waited, and until when first and last. No other port waited.
fn waits_of(
    rt: &impl Abort,
    alloc: Global,
    settings: &SlaveSettings,
    general: MemPort,
    event: MemPort,
    stock: Stock,
) -> Result<(u64, u64, u64), Fail>
    requires range { IsSlaveInRange settings.now }
    requires stock { IsFreshStock held stock }
{
    let waited = AtomicU64::new(0);
    let mut opened = opened_with(alloc, general);
    opened.p5 = event;
    let mut host = OnceHost::new(noting(opened, &waited, false));
    let mut sink = MemSink::new(alloc, Vec::new(alloc));
    assert!(rt; has_judges(settings, &stock));
    assert!(rt; slave(alloc, settings, &mut host, &mut sink, stock) == Ok(()));
    let noted = match &host.back {
        Some(opened) => event_noted(opened),
        None => None,
    };
    Ok(noted.ok_or("only the port of the event channel waits")?)
}

// What waits at the two channels, and until when the slave then waits after each of two rounds.
const ROWS: [(&[&str], &[&str], u64); 3] = [
    // For the ask after one that is not answered.
    (&[], &[], SECOND),
    // For the renewal of grants of 300 seconds.
    (&[GRANT], &[], 150 * SECOND),
    // For the loss of Sync, after three periods of 62.5 ms.
    (&[GRANT, ANNOUNCE], &[SYNC], 187_500_001),
];

// It refuses a daemon that does not wait after each round, one that waits by a port that does not
// receive events, one that waits past what is due, and one whose wait ends before it is.
#[test]
fn a_round_ends_with_a_wait_for_what_is_due(rt: HostRuntime) -> Result<(), Fail> {
    let alloc = rt.alloc();
    let settings = settings(alloc, 2, 1)?;
    for (general, event, due) in ROWS {
        let stock = one_judge(alloc, Box::new(alloc, FlagJudge::new())?)?;
        let (general, event) = (port_with(alloc, general)?, port_with(alloc, event)?);
        let waits = waits_of(&rt, alloc, &settings, general, event, stock)?;
        let until = due + SLACK;
        assert_eq!(rt; waits, (2, until, until));
    }
    Ok(())
}
