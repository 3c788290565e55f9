use ptu_outside::Meeting;
use std::sync::Wait;
use std::sync::atomic::{AtomicU64, Ordering};
use std::test::Fail;
use std::thread::{join, yield_now};

const ROUNDS: u32 = 4;

// How long the slow lane pauses in each round.
const LOOKS: u32 = 1000;

// The limit of looks at a count.
const MOST_LOOKS: u64 = 50_000_000;

// How many rounds two lanes have done, and how far apart they were at most when one had done a
// round.
#[derive(Drop)]
struct Seen {
    fast: AtomicU64,
    slow: AtomicU64,
    apart: AtomicU64,
}

impl Seen {
    // A lane does a round.
    fn count(&self, own: &AtomicU64, other: &AtomicU64) {
        let own = own.fetch_add(1, Ordering::SeqCst).wrapping_add(1);
        let other = other.load(Ordering::SeqCst);
        let apart = if own < other {
            other - own
        } else {
            own - other
        };
        self.apart.fetch_max(apart, Ordering::SeqCst);
    }

    // Gives the fast lane time to run ahead.
    fn pause(&self) {
        for _ in 0..LOOKS {
            yield_now();
        }
    }
}

fn run_fast(rt: &impl Wait, meeting: &Meeting, seen: &Seen) {
    for _ in 0..ROUNDS {
        seen.count(&seen.fast, &seen.slow);
        meeting.meet(rt);
    }
}

fn run_slowly(rt: &impl Wait, meeting: &Meeting, seen: &Seen) {
    for _ in 0..ROUNDS {
        seen.pause();
        seen.count(&seen.slow, &seen.fast);
        meeting.meet(rt);
    }
}

// Two lanes are never more than one round apart. It refuses a meeting that nobody waits at.
#[test]
fn lanes_stay_in_step(rt: HostRuntime) -> Result<(), Fail> {
    let seen = Seen {
        fast: AtomicU64::new(0),
        slow: AtomicU64::new(0),
        apart: AtomicU64::new(0),
    };
    let meeting = Meeting::new(2);
    join(
        &rt,
        || run_fast(&rt, &meeting, &seen),
        || run_slowly(&rt, &meeting, &seen),
    );
    assert!(rt; seen.apart.load(Ordering::SeqCst) == 1);
    assert!(rt; seen.slow.load(Ordering::SeqCst) == u64::from(ROUNDS));
    Ok(())
}

// A lane that gives up ends the work of the other, which does not wait for it.
#[test]
fn a_lane_that_gives_up_ends_all(rt: HostRuntime) -> Result<(), Fail> {
    let meeting = Meeting::new(2);
    meeting.give_up(&rt);
    assert!(rt; meeting.meet(&rt).is_none());
    Ok(())
}

// One that gives up while the other waits for it lets it go on, and tells it.
#[test]
fn a_lane_that_waits_is_told(rt: HostRuntime) -> Result<(), Fail> {
    let meeting = Meeting::new(2);
    let (goes_on, ()) = join(
        &rt,
        || meeting.meet(&rt).is_some(),
        || {
            for _ in 0..LOOKS {
                yield_now();
            }
            meeting.give_up(&rt)
        },
    );
    assert!(rt; !goes_on);
    Ok(())
}

// What three lanes have done: the one that awaits the others begins, and is told; the others come.
#[derive(Drop)]
struct Awaited {
    begun: AtomicU64,
    told: AtomicU64,
    came: AtomicU64,
}

fn nobody_awaited() -> Awaited {
    Awaited {
        begun: AtomicU64::new(0),
        told: AtomicU64::new(0),
        came: AtomicU64::new(0),
    }
}

// Waits for the two others, and tells how many of them had come then, and that it waited.
fn await_two(rt: &impl Wait, meeting: &Meeting, awaited: &Awaited) -> (bool, u64) {
    awaited.begun.store(1, Ordering::SeqCst);
    let goes_on = meeting.await_others(rt);
    awaited.told.store(1, Ordering::SeqCst);
    (goes_on, awaited.came.load(Ordering::SeqCst))
}

// Looks until the count is 1, or the limit of looks is reached.
fn is_seen(count: &AtomicU64) -> bool {
    for _ in 0..MOST_LOOKS {
        if count.load(Ordering::SeqCst) == 1 {
            return true;
        }
    }
    false
}

// Comes a while after the other lane has begun to wait.
fn come_late(rt: &impl Wait, meeting: &Meeting, awaited: &Awaited) -> bool {
    let is_awaited = is_seen(&awaited.begun);
    for _ in 0..LOOKS {
        yield_now();
    }
    awaited.came.fetch_add(1, Ordering::SeqCst);
    meeting.meet(rt).is_some() && is_awaited
}

// It refuses a lane that goes on before all others have come, and one that ends their meeting
// before it comes itself.
#[test]
fn a_lane_awaits_all_others(rt: HostRuntime) -> Result<(), Fail> {
    let awaited = nobody_awaited();
    let meeting = Meeting::new(3);
    let (found, met) = join(
        &rt,
        || {
            let found = await_two(&rt, &meeting, &awaited);
            let goes_on = meeting.meet(&rt).is_some();
            (found, goes_on)
        },
        || {
            join(
                &rt,
                || come_late(&rt, &meeting, &awaited),
                || come_late(&rt, &meeting, &awaited),
            )
        },
    );
    assert_eq!(rt; found, ((true, 2), true));
    assert_eq!(rt; met, (true, true));
    Ok(())
}

// Gives up a while after the other lane has begun to wait, looks whether it is told, and gives up
// for the third.
fn give_up_twice(rt: &impl Wait, meeting: &Meeting, awaited: &Awaited) -> bool {
    let is_awaited = is_seen(&awaited.begun);
    for _ in 0..LOOKS {
        yield_now();
    }
    meeting.give_up(rt);
    let is_told = is_awaited && is_seen(&awaited.told);
    meeting.give_up(rt);
    is_told
}

// It refuses a lane that awaits the others still where one has given up.
#[test]
fn a_lane_that_awaits_others_is_told(rt: HostRuntime) -> Result<(), Fail> {
    let awaited = nobody_awaited();
    let meeting = Meeting::new(3);
    let (found, is_told) = join(
        &rt,
        || await_two(&rt, &meeting, &awaited),
        || give_up_twice(&rt, &meeting, &awaited),
    );
    assert_eq!(rt; found, (false, 0));
    assert!(rt; is_told);
    Ok(())
}
