ghost use Rattle.std.specs.{Prelude.{IfOk}, List.{All}};
ghost use Rattle.ptu_grandmaster.specs.Driven.{IsPossible};

use ptu_grandmaster::{Gm, GmEvent, Reply, Taken, drive};
use ptu_outside::{Datagram, MemPort};
use ptu_shard::samples::{CONFIG, SECOND};
use ptu_shard::{Answered, Turned};
use ptu_units::{Capacity, Moment};
use std::alloc::Global;
use std::process::Abort;
use std::test::Fail;

/// The addresses of two clients, one of table 2 and one of table 3.
const FIRST: u32 = 0x0a00_0111;

const SECOND_CLIENT: u32 = 0x0a00_0112;

/// A REQUEST of Announce at logarithm 1, and of Sync at logarithm 0, for 300 s.
const ANNOUNCE: &str = "00040006b0010000012c";

const SYNC: &str = "0004000600000000012c";

/// A REQUEST of Delay_Resp at logarithm 0, and a Delay_Req of the first client.
const DELAY_RESP: &str = "0004000690000000012c";

const DELAY_REQ: &str = "0112002c040004000000000000000000000000000a000000000000110001\
     0007017f00000000000000000000";

fn moment(nanos: u64) -> Result<Moment, Fail> {
    Ok(Moment::of(nanos).ok_or("a moment is below 2^62")?)
}

// A capacity of so many sixteenths of a message per second.
fn capacity(sixteenths: u64) -> Result<Capacity, Fail> {
    Ok(Capacity::of(sixteenths).ok_or("a capacity is within its limits")?)
}

// A Signaling of so many octets of the client at this address to every port, with these TLVs.
fn signaling(alloc: Global, from: u32, octets: u8, tlvs: &str) -> Result<Vec<u8>, Fail> {
    let mut bytes = hex::decode(
        alloc,
        "0c120036040004000000000000000000000000000a000000000000110001\
         0000057fffffffffffffffffffff",
    )?;
    if let Some(length) = bytes.get_mut(3) {
        *length = octets;
    }
    if let Some(clock) = bytes.get_mut(27) {
        *clock = (from % 256) as u8;
    }
    bytes.extend_from_slice(&hex::decode(alloc, tlvs)?)?;
    Ok(bytes)
}

// A port that fails at the listed sends.
fn port(alloc: Global, fails: Vec<u64>) -> MemPort {
    MemPort::new(alloc, Vec::new(alloc), fails, Vec::new(alloc))
}

// A grandmaster of capacity 16, whose port 2 and port of replies fail at the listed sends.
fn grandmaster(alloc: Global, fails: Vec<u64>, reply_fails: Vec<u64>) -> Result<Gm<MemPort>, Fail> {
    let capacity = capacity(16)?;
    let p0 = port(alloc, Vec::new(alloc));
    let p1 = port(alloc, Vec::new(alloc));
    let p2 = port(alloc, fails);
    let p3 = port(alloc, Vec::new(alloc));
    let reply = port(alloc, reply_fails);
    Ok(Gm::new(alloc, CONFIG, capacity, p0, p1, p2, p3, reply))
}

// What a close counts: the share of each table, their total, the grants and the refusals.
type Counts = ([u64; 4], u64, u64, u64);

fn close(gm: Gm<MemPort>) -> Counts {
    let (closed, reply) = gm.close();
    drop(reply);
    let shares = closed.counts;
    let counts = (shares, closed.total, closed.granted, closed.refused);
    drop(closed);
    counts
}

// Hands in a Signaling of so many octets, and says whether a reply to it was sent.
fn is_answered(
    alloc: Global,
    gm: &mut Gm<MemPort>,
    nanos: u64,
    from: u32,
    signal: (u8, &str),
) -> Result<bool, Fail> {
    let (octets, tlvs) = signal;
    let datagram = signaling(alloc, from, octets, tlvs)?;
    let taken = gm.take(moment(nanos)?, from, &datagram)?;
    let answered = matches!(&taken, Taken::Asked(_, Reply::Sent));
    drop(taken);
    Ok(answered)
}

// Changes the capacity to 8: how many grants are shed, how many CANCELs are sent, and how many
// fail.
fn change(gm: &mut Gm<MemPort>, nanos: u64) -> Result<(usize, u64, u64), Fail> {
    let changed = gm.set_capacity(moment(nanos)?, capacity(8)?)?;
    let counts = (changed.shed.list().len(), changed.sent, changed.failed);
    drop(changed);
    Ok(counts)
}

// The moment of each turn, how many messages are sent, and how many sends fail.
const TURNS: [(u64, u64, u64); 3] = [(SECOND, 0, 1), (1_999_999_999, 0, 0), (2 * SECOND, 1, 0)];

// A grant of Sync is sent in its periods, of which a failed send spends one, until it is cancelled.
fn assert_sent_and_cancelled(
    rt: &impl Abort,
    alloc: Global,
    gm: &mut Gm<MemPort>,
) -> Result<(), Fail> {
    assert!(rt; is_answered(alloc, gm, 0, FIRST, (54, SYNC))?);
    assert!(rt; gm.count(2) == 1);
    for (at, sent, failed) in TURNS {
        let at = moment(at)?;
        assert!(rt; gm.turn(2, at) == Turned { at, sent, failed });
    }
    assert!(rt; is_answered(alloc, gm, SECOND, FIRST, (50, "000600020000"))?);
    assert!(rt; gm.count(2) == 0);
    Ok(())
}

#[test]
fn a_failed_send_spends_its_period(rt: HostRuntime) -> Result<(), Fail> {
    let alloc = rt.alloc();
    let mut gm = grandmaster(alloc, vec![in alloc; 1]?, Vec::new(alloc))?;
    let done = assert_sent_and_cancelled(&rt, alloc, &mut gm);
    assert!(rt; close(gm) == ([0; 4], 0, 1, 0));
    done
}

// A lower capacity sheds the newer of two grants, and its client asks in vain.
fn assert_shed(rt: &impl Abort, alloc: Global, gm: &mut Gm<MemPort>) -> Result<(), Fail> {
    assert!(rt; is_answered(alloc, gm, 0, FIRST, (54, ANNOUNCE))?);
    assert!(rt; is_answered(alloc, gm, SECOND, SECOND_CLIENT, (54, ANNOUNCE))?);
    assert!(rt; change(gm, 2 * SECOND)? == (1, 1, 0));
    assert!(rt; is_answered(alloc, gm, 2 * SECOND, SECOND_CLIENT, (54, ANNOUNCE))?);
    Ok(())
}

#[test]
fn a_close_counts_what_is_held_granted_and_refused(rt: HostRuntime) -> Result<(), Fail> {
    let alloc = rt.alloc();
    let mut gm = grandmaster(alloc, Vec::new(alloc), Vec::new(alloc))?;
    let done = assert_shed(&rt, alloc, &mut gm);
    assert!(rt; close(gm) == ([0, 0, 8, 0], 8, 2, 1));
    done
}

// Whether the answer to the Delay_Req failed.
fn is_delay_failed(alloc: Global, gm: &mut Gm<MemPort>) -> Result<bool, Fail> {
    let datagram = hex::decode(alloc, DELAY_REQ)?;
    let taken = gm.take(moment(SECOND)?, FIRST, &datagram)?;
    let failed = matches!(&taken, Taken::Delay(Answered::Failed { .. }));
    drop(taken);
    Ok(failed)
}

// A reply, a Delay_Resp and the CANCEL of a change fail, and what was decided stands.
fn assert_failures(rt: &impl Abort, alloc: Global, gm: &mut Gm<MemPort>) -> Result<(), Fail> {
    assert!(rt; !is_answered(alloc, gm, 0, FIRST, (54, DELAY_RESP))?);
    assert!(rt; gm.count(2) == 1);
    assert!(rt; is_delay_failed(alloc, gm)?);
    assert!(rt; change(gm, 2 * SECOND)? == (1, 0, 1));
    assert!(rt; gm.count(2) == 0);
    Ok(())
}

// Refuses a failed send that is told as one that was sent, or that takes a decision back.
#[test]
fn failed_sends_are_told(rt: HostRuntime) -> Result<(), Fail> {
    let alloc = rt.alloc();
    let mut gm = grandmaster(alloc, vec![in alloc; 1]?, vec![in alloc; 1, 2]?)?;
    let done = assert_failures(&rt, alloc, &mut gm);
    assert!(rt; close(gm) == ([0; 4], 0, 1, 0));
    done
}

// A datagram of the first client at a moment.
fn taken(alloc: Global, t: Moment, octets: u8, tlvs: &str) -> Result<GmEvent, Fail>
    ensures { IfOk result IsPossible }
{
    let bytes = Datagram::new(signaling(alloc, FIRST, octets, tlvs)?);
    let from = FIRST;
    Ok(GmEvent::Take { t, from, bytes })
}

// A turn of the first client's table.
fn turn(t: Moment) -> GmEvent
    ensures { IsPossible result }
{
    GmEvent::Turn { t, table: 2 }
}

// How many timing messages a grandmaster of this capacity sends over these events.
fn sent_over(alloc: Global, sixteenths: u64, events: &[GmEvent]) -> Result<u64, Fail>
    requires { All IsPossible events.now }
{
    let p0 = port(alloc, Vec::new(alloc));
    let p1 = port(alloc, Vec::new(alloc));
    let p2 = port(alloc, Vec::new(alloc));
    let p3 = port(alloc, Vec::new(alloc));
    let reply = port(alloc, Vec::new(alloc));
    let driven = drive(
        alloc,
        CONFIG,
        capacity(sixteenths)?,
        p0,
        p1,
        p2,
        p3,
        reply,
        events,
    )?;
    let sent = driven.sent;
    drop(driven);
    Ok(sent)
}

// A run of events counts the messages that are sent. Refuses a grant whose first message comes at
// once, and a turn that sends behind a CANCEL.
#[test]
fn a_driven_grandmaster_counts_its_messages(rt: HostRuntime) -> Result<(), Fail> {
    let alloc = rt.alloc();
    let (first, second) = (moment(SECOND)?, moment(2 * SECOND)?);
    let third = moment(3 * SECOND)?;
    let asked = taken(alloc, Moment::default(), 54, SYNC)?;
    let cancelled = taken(alloc, second, 50, "000600020000")?;
    let events = [
        asked,
        turn(Moment::default()),
        turn(first),
        turn(second),
        cancelled,
        turn(third),
    ];
    assert!(rt; sent_over(alloc, 16, &events)? == 2);
    Ok(())
}
