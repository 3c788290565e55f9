//! How a daemon waits.

ghost use Rattle.ptu_config.specs.Limits.{IsGmInRange};

use super::staged::assert_said;
use super::values::{capacity_of, senders_of};
use super::waiting::{SYNC, asking};
use ptu_config::GmSettings;
use ptu_config::samples::GM_SETTINGS;
use ptu_outside::MemPort;
use ptu_outside::samples::{OnceHost, event_noted, idle_port, noting, opened_with};
use std::alloc::Global;
use std::process::Abort;
use std::sync::Wait;
use std::sync::atomic::AtomicU64;
use std::test::Fail;
use std::thread::Threads;

// The last moment that there is.
const LAST: u64 = (1 << 62) - 1;

const SECOND: u64 = 1_000_000_000;

// How often the port of the event channel waits, and until when first and last, where this port
// receives the general channel and the run writes this line. No other port waits.
fn waits_of(
    rt: &(impl Abort + Threads + Wait + Sync),
    alloc: Global,
    settings: &GmSettings,
    general: MemPort,
    line: &str,
) -> Result<(u64, u64, u64), Fail>
    requires { IsGmInRange settings.now }
{
    let waited = AtomicU64::new(0);
    let opened = noting(
        opened_with(alloc, general),
        &waited,
        settings.senders.get() > 0,
    );
    let mut host = OnceHost::new(opened);
    assert_said(rt, alloc, settings, &mut host, line);
    let noted = match &host.back {
        Some(opened) => event_noted(opened),
        None => None,
    };
    Ok(noted.ok_or("only the port of the event channel waits")?)
}

// A port at which a client asks for a Sync a second.
fn port_with_ask(alloc: Global) -> Result<MemPort, Fail> {
    let waiting = asking(alloc, SYNC)?;
    Ok(MemPort::new(alloc, waiting, Vec::new(alloc), Vec::new(alloc)))
}

// So many lanes wait at the end of each of three rounds.
fn assert_waits(
    rt: &(impl Abort + Threads + Wait + Sync),
    alloc: Global,
    lanes: u64,
) -> Result<(), Fail> {
    let idle = "rounds 3 sent 0 failed 0 granted 0 refused 0 held 0\n";
    let granted = "rounds 3 sent 1 failed 0 granted 1 refused 0 held 16\n";
    let settings = GmSettings {
        rounds: 3,
        capacity: capacity_of(rt, 16),
        senders: senders_of(rt, lanes),
        ..GM_SETTINGS
    };
    let none = waits_of(rt, alloc, &settings, idle_port(alloc), idle)?;
    assert_eq!(rt; none, (3, LAST, LAST));
    let asked = waits_of(rt, alloc, &settings, port_with_ask(alloc)?, granted)?;
    assert_eq!(rt; asked, (3, SECOND, SECOND));
    Ok(())
}

// It refuses a daemon that does not wait after each round, one that waits by a port that does not
// receive events, one that waits past the moment at which a Sync is due, and one that waits for no
// longer than it has to where nothing is.
#[test]
fn a_round_ends_with_a_wait_for_what_is_due(rt: HostRuntime) -> Result<(), Fail> {
    assert_waits(&rt, rt.alloc(), 0)
}

// It refuses the same of lanes, and a lane that looks what is due before the others have done their
// round, so that the first message of a grant of this round is late.
#[test]
fn a_round_of_lanes_ends_with_a_wait_for_what_is_due(rt: HostRuntime) -> Result<(), Fail> {
    for lanes in 1..5 {
        assert_waits(&rt, rt.alloc(), lanes)?;
    }
    Ok(())
}

// It refuses lanes that wait where they meet behind the change of capacity, too, which is done
// before a round.
#[test]
fn lanes_do_not_wait_at_the_change_of_capacity(rt: HostRuntime) -> Result<(), Fail> {
    let alloc = rt.alloc();
    let line = "rounds 3 sent 2 failed 0 granted 1 refused 0 held 0\n";
    let settings = GmSettings {
        rounds: 3,
        capacity: capacity_of(&rt, 16),
        senders: senders_of(&rt, 2),
        change_round: 2,
        new_capacity: Some(capacity_of(&rt, 8)),
        ..GM_SETTINGS
    };
    let changed = waits_of(&rt, alloc, &settings, port_with_ask(alloc)?, line)?;
    assert_eq!(rt; changed, (3, SECOND, SECOND));
    Ok(())
}
