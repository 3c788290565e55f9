//! A grandmaster that is to be served by lanes, of which one is refused its thread: all is served
//! on one thread, as without lanes. Each of these wrong bodies is refused here, and each was seen
//! to be:
//!
//! - The lanes that have their threads serve, or the run ends as where memory is wanting. (That the
//!   daemon ends well.)
//! - A thread more is made than may be. (The clocks that lanes read.)
//! - A lane takes a datagram or a moment before all threads are made. (The ports and the clocks.)

ghost use Rattle.ptu_config.specs.Limits.{IsGmInRange};

use super::staged::{Given, StagedPort, arriving, still};
use super::values::{capacity_of, senders_of};
use super::waiting::{SYNC, request};
use ptu_config::GmSettings;
use ptu_config::samples::GM_SETTINGS;
use ptu_daemon::serve_within;
use ptu_outside::samples::OnceHost;
use ptu_outside::{Clock, MemClock, MemSink, Opened};
use ptu_units::Moment;
use std::alloc::Global;
use std::process::Abort;
use std::sync::Wait;
use std::test::Fail;
use std::thread::Threads;

type Ports = Opened<StagedPort, MemClock>;

// Three rounds, with a change of the capacity before the last.
fn settings(rt: &impl Abort, senders: u8) -> GmSettings
    ensures { IsGmInRange result }
{
    GmSettings {
        rounds: 3,
        capacity: capacity_of(rt, 32),
        senders: senders_of(rt, senders.into()),
        change_round: 3,
        new_capacity: Some(capacity_of(rt, 16)),
        ..GM_SETTINGS
    }
}

// A Delay_Req of the client of table 0.
const DELAY_REQ: &str = "0112002c040004000000000000000000000000000a0000000000000300010000\
    017f00000000000000000000";

// A clock that tells the seconds from 0 on.
fn seconds(alloc: Global) -> Result<MemClock, Fail> {
    let mut moments = Vec::new(alloc);
    for second in 0..60u64 {
        let moment = Moment::of(second * 1_000_000_000);
        moments.push(moment.ok_or("a moment is below 2^62")?)?;
    }
    Ok(MemClock::new(moments))
}

// A host at whose general channel clients of tables 0 and 1 ask for Syncs, and at whose event
// channel the Delay_Req comes in the second round.
fn host(alloc: Global) -> Result<OnceHost<StagedPort>, Fail> {
    let asks = vec![in alloc;
        arriving(alloc, 0x0a00_0103, request(alloc, "03", SYNC)?.as_str())?,
        arriving(alloc, 0x0a00_0104, request(alloc, "04", SYNC)?.as_str())?,
    ]?;
    let delay = vec![in alloc; Given::Nothing, arriving(alloc, 0x0a00_0103, DELAY_REQ)?]?;
    let mut opened = still(alloc);
    opened.p4 = StagedPort::new(alloc, asks, Vec::new(alloc));
    opened.p5 = StagedPort::new(alloc, delay, Vec::new(alloc));
    opened.c0 = seconds(alloc)?;
    opened.c1 = seconds(alloc)?;
    opened.c2 = seconds(alloc)?;
    opened.c3 = seconds(alloc)?;
    opened.c4 = seconds(alloc)?;
    opened.c5 = seconds(alloc)?;
    Ok(OnceHost::new(opened))
}

// What is given back, and the line, where so many lanes turn tables, and so many threads may be
// made.
fn serve_with(
    rt: &(impl Abort + Threads + Wait + Sync),
    alloc: Global,
    senders: u8,
    threads: usize,
) -> Result<(Ports, MemSink), Fail> {
    let mut host = host(alloc)?;
    let mut sink = MemSink::new(alloc, Vec::new(alloc));
    let settings = settings(rt, senders);
    let served = serve_within(rt, alloc, threads, &settings, &mut host, &mut sink);
    assert!(rt; served.is_ok(), "{senders} lanes and {threads} threads");
    let back = host.back.take();
    drop(host);
    Ok((back.ok_or("ports are given back")?, sink))
}

// Two ports were sent the same.
fn assert_same(rt: &impl Abort, one: &StagedPort, other: &StagedPort) {
    for index in 0..60 {
        assert!(rt; one.sent(index) == other.sent(index), "datagram {index}");
    }
}

// Two clocks tell the same next.
fn assert_same_moment(rt: &impl Abort, one: &mut MemClock, other: &mut MemClock) {
    assert!(rt; one.now() == other.now(), "a clock was read more often");
}

// Two runs have left the ports and clocks alike.
fn assert_alike(rt: &impl Abort, one: &mut Ports, other: &mut Ports) {
    assert_same(rt, &one.p0, &other.p0);
    assert_same(rt, &one.p1, &other.p1);
    assert_same(rt, &one.p2, &other.p2);
    assert_same(rt, &one.p3, &other.p3);
    assert_same(rt, &one.p4, &other.p4);
    assert_same(rt, &one.p5, &other.p5);
    assert_same_moment(rt, &mut one.c0, &mut other.c0);
    assert_same_moment(rt, &mut one.c1, &mut other.c1);
    assert_same_moment(rt, &mut one.c2, &mut other.c2);
    assert_same_moment(rt, &mut one.c3, &mut other.c3);
    assert_same_moment(rt, &mut one.c4, &mut other.c4);
    assert_same_moment(rt, &mut one.c5, &mut other.c5);
}

// Where one thread too few may be made, or fewer, all is as without lanes.
fn assert_refused(
    rt: &(impl Abort + Threads + Wait + Sync),
    alloc: Global,
    senders: u8,
    threads: usize,
) -> Result<(), Fail> {
    let (mut alone, line) = serve_with(rt, alloc, 0, 0)?;
    let (mut refused, other_line) = serve_with(rt, alloc, senders, threads)?;
    assert!(rt;
        line.bytes() == other_line.bytes(),
        "the line without lanes"
    );
    assert_alike(rt, &mut alone, &mut refused);
    Ok(())
}

// Where the threads are enough the lane that takes Delay_Reqs has read its clock, once.
fn assert_made(
    rt: &(impl Abort + Threads + Wait + Sync),
    alloc: Global,
    senders: u8,
) -> Result<(), Fail> {
    let (mut back, _) = serve_with(rt, alloc, senders, 1 + usize::from(senders))?;
    assert_eq!(rt; back.c1.now().nanos(), 1_000_000_000);
    Ok(())
}

// The first thread is refused, or the second, and so on, or none.
#[test]
fn a_refused_thread_leaves_all_to_one(rt: HostRuntime) -> Result<(), Fail> {
    for senders in 1..5 {
        for threads in 0..1 + usize::from(senders) {
            assert_refused(&rt, rt.alloc(), senders, threads)?;
        }
        assert_made(&rt, rt.alloc(), senders)?;
    }
    Ok(())
}
