ghost use Rattle.std.specs.Prelude.{◌≡◌, ◌<◌, ◌^◌, length};

use ptu_record::Quality;
use ptu_select::{Selector, WatchState};
use ptu_units::Moment;
use std::alloc::Global;
use std::process::Abort;

const SECOND: u64 = 1_000_000_000;

// A master's Announce of this class and Sync at so many seconds, after which its judge finds
// nothing: the second, the master and the class.
type Pair = (u64, usize, u8);

fn at(rt: &impl Abort, nanos: u64) -> Moment {
    Moment::of(nanos).expect(rt, "below 2^62")
}

// A selector with timeouts of 48 s and this time to wait.
fn selector(rt: &impl Abort, alloc: Global, wait: u64, priorities: &[u8]) -> Selector
    requires { wait < 2 ^ 62 }
    ensures { length result ≡ length priorities.now }
{
    let timeout = 48 * SECOND;
    let selector = Selector::new(alloc, timeout, timeout, None, wait, priorities);
    selector.expect(rt, "memory")
}

fn take(rt: &impl Abort, selector: &mut Selector, masters: usize, pair: Pair)
    requires { length selector.old ≡ masters }
    ensures { length selector.new ≡ masters }
{
    let (second, master, class) = pair;
    assert!(rt; master < masters);
    assert!(rt; second < 1000);
    let t = at(rt, second * SECOND);
    selector.announce(t, master, class);
    selector.sync(t, master);
    selector.flag(t, master, false);
}

// The selector hears what came from a second on and up to another.
fn take_between(
    rt: &impl Abort,
    selector: &mut Selector,
    masters: usize,
    pairs: &[Pair],
    from: u64,
    to: u64,
)
    requires { length selector.old ≡ masters }
    ensures { length selector.new ≡ masters }
{
    for &pair in pairs {
        if from <= pair.0 && pair.0 <= to {
            take(rt, selector, masters, pair);
        }
    }
}

// The choice after what is not later, with a minute of waiting.
fn choice(
    rt: &impl Abort,
    alloc: Global,
    priorities: &[u8],
    pairs: &[Pair],
    nanos: u64,
) -> Option<usize> {
    let mut selector = selector(rt, alloc, 60 * SECOND, priorities);
    take_between(
        rt,
        &mut selector,
        priorities.len(),
        pairs,
        0,
        nanos / SECOND,
    );
    selector.select(at(rt, nanos))
}

// The choice at each moment is this one, in a fresh look and in two of a selector that is kept.
fn assert_choices(
    rt: &impl Abort,
    alloc: Global,
    priorities: &[u8],
    pairs: &[Pair],
    looks: &[(u64, Option<usize>)],
) {
    let mut kept = selector(rt, alloc, 60 * SECOND, priorities);
    let mut from = 0;
    for &(nanos, selected) in looks {
        take_between(rt, &mut kept, priorities.len(), pairs, from, nanos / SECOND);
        from = nanos / SECOND + 1;
        let fresh = choice(rt, alloc, priorities, pairs, nanos);
        let found = [
            fresh,
            kept.select(at(rt, nanos)),
            kept.select(at(rt, nanos)),
        ];
        assert_eq!(rt; found, [selected; 3], "at {nanos}");
    }
}

const LOSS: [Pair; 8] = [
    (0, 0, 84),
    (0, 1, 90),
    (48, 0, 84),
    (48, 1, 90),
    (96, 1, 90),
    (100, 0, 84),
    (140, 0, 84),
    (140, 1, 90),
];

const RESTORATION: [(u64, Option<usize>); 6] = [
    (48_000_000_000, Some(0)),
    (96_000_000_000, Some(0)),
    (96_000_000_001, Some(1)),
    (100_000_000_000, Some(1)),
    (159_999_999_999, Some(1)),
    (160_000_000_000, Some(0)),
];

const TIE: [Pair; 4] = [(0, 0, 84), (0, 1, 84), (1, 0, 110), (1, 1, 110)];

const KEPT: [Pair; 5] = [
    (0, 0, 84),
    (0, 1, 90),
    (48, 1, 90),
    (50, 0, 84),
    (98, 0, 110),
];

const CHANGES: [(u64, Option<usize>); 7] = [
    (0, Some(0)),
    (48_000_000_000, Some(0)),
    (48_000_000_001, Some(1)),
    (50_000_000_000, Some(1)),
    (96_000_000_000, Some(1)),
    (96_000_000_001, None),
    (98_000_000_001, None),
];

// The priorities of the masters, what is heard of them, and the choice at some moments.
type Scene = (
    &'static [u8],
    &'static [Pair],
    &'static [(u64, Option<usize>)],
);

const SCENES: [Scene; 7] = [
    (&[1, 1], &LOSS, &RESTORATION),
    (&[2, 1], &LOSS, &RESTORATION),
    (&[1, 1], &TIE, &[(0, Some(0)), (SECOND, None)]),
    (&[2, 1], &TIE, &[(0, Some(1))]),
    (&[1], &[(0, 0, 6)], &[(0, None)]),
    (&[], &[], &[(0, None)]),
    (&[1, 1], &KEPT, &CHANGES),
];

// Refuses a choice that is kept over an event or a loss.
#[test]
fn a_kept_choice_is_that_of_a_fresh_look(rt: HostRuntime) {
    for (priorities, pairs, looks) in SCENES {
        assert_choices(&rt, rt.alloc(), priorities, pairs, looks);
    }
}

#[test]
fn the_state_of_one_master(rt: HostRuntime) {
    let mut selector = Selector::new(rt.alloc(), SECOND, SECOND, None, 0, &[1, 1]).expect(
        &rt, "memory",
    );
    take(&rt, &mut selector, 2, (0, 1, 96));
    selector.flag(at(&rt, SECOND), 1, true);
    let unusable = WatchState {
        loss_announce: false,
        loss_sync: false,
        loss_delay: false,
        unusable: true,
        waiting: false,
        quality: Some(Quality::SsuB),
    };
    assert!(rt; selector.state(at(&rt, SECOND), 1) == unusable);
    assert!(rt; selector.state(at(&rt, SECOND), 0).loss_announce);
}

#[test]
fn ten_million_looks_at_one_choice(rt: HostRuntime) {
    let mut selector = selector(&rt, rt.alloc(), 0, &[0; 20000]);
    let start = at(&rt, 0);
    selector.announce(start, 7, 84);
    selector.sync(start, 7);
    for _ in 0..10_000_000 {
        assert!(rt; selector.select(start) == Some(7));
    }
}
