//! The calls of a judge, as it writes them down itself.
ghost use Rattle.std.specs.Prelude.{◌≡◌, false, IfOk, length};
ghost use Rattle.ptu_judges.specs.Held.{flag_held};
ghost use Rattle.ptu_slave.specs.SeenBy.{seen_by};

use super::slave::{Row, SECOND, config, play_all, slave_of_one};
use ptu_judges::{Conduct, Judge};
use ptu_outside::MemPort;
use ptu_outside::samples::idle_port;
use ptu_record::Rule;
use ptu_slave::Slave;
use ptu_units::Moment;
use std::alloc::Global;
use std::cell::Cell;
use std::rc::Rc;
use std::test::Fail;

// What a judge is called for.
#[derive(Clone, Copy, PartialEq)]
enum Call {
    Sync(u16),
    Told(bool),
    Asked,
}

// The first calls of a judge, in their order.
type Calls = [Option<Call>; 6];

// A judge that finds what it was told last, and lists its calls.
#[derive(Drop)]
struct Listing {
    unusable: bool,
    calls: Rc<Cell<Calls>>,
}

impl Listing {
    fn note(&self, call: Call) {
        let mut calls = self.calls.get();
        for place in &mut calls {
            if place.is_none() {
                *place = Some(call);
                break;
            }
        }
        self.calls.set(calls);
    }
}

impl Conduct for Listing {
    ghost hears = { λ old t seq new. new ≡ old };

    ghost is_told = { λ old t unusable new. new ≡ record old { unusable = unusable } };

    ghost finds = { λ old t unusable new. (unusable ≡ old.unusable) × (new ≡ old) };
}

impl Judge for Listing {
    ghost held = { λ j. flag_held j.unusable };

    fn rule(&self) -> Option<Rule> {
        Some(Rule::Flag)
    }

    fn heard(&mut self, t: Moment, seq: u16) {
        let _ = t;
        self.note(Call::Sync(seq));
    }

    fn told(&mut self, t: Moment, unusable: bool) {
        let _ = t;
        self.unusable = unusable;
        self.note(Call::Told(unusable));
    }

    fn assess(&mut self, t: Moment) -> bool {
        let _ = t;
        self.note(Call::Asked);
        self.unusable
    }
}

// A judge that lists its calls, and the list.
fn new_listing(alloc: Global) -> Result<(Rc<Cell<Calls>>, Listing), Fail>
    ensures { IfOk result (λ pair. pair.1.unusable ≡ false) }
{
    let calls: Rc<Cell<Calls>> = Rc::new(alloc, Cell::new([None; 6]))?;
    let listing = Listing {
        unusable: false,
        calls: calls.clone()?,
    };
    Ok((calls, listing))
}

// A slave of one master with such a judge, and the judge's list.
fn slave_of_listing(alloc: Global) -> Result<(Rc<Cell<Calls>>, Slave<MemPort>), Fail>
    ensures { IfOk result (λ pair.
        length (seen_by held pair.1).kept.masters ≡ 1) }
{
    let (calls, judge) = new_listing(alloc)?;
    let config = config()?;
    let slave = slave_of_one(alloc, config, Box::new(alloc, judge)?, idle_port(alloc))?;
    Ok((calls, slave))
}

// Each event makes its calls of the judge once: a Sync, the operator's word, and a tick.
#[test]
fn a_judge_is_called_once_for_each_event(rt: HostRuntime) -> Result<(), Fail> {
    let alloc = rt.alloc();
    let at = Moment::of(SECOND).ok_or("below 2^62")?;
    let later = Moment::of(2 * SECOND).ok_or("below 2^62")?;
    let (calls, mut slave) = slave_of_listing(alloc)?;
    let rows = [(0, Row::Announce), (0, Row::Sync(7))];
    play_all(&rt, alloc, &mut slave, &rows)?;
    slave.flag(at, 0, true);
    slave.tick(later);
    drop(slave);
    assert!(rt;
        calls.get()
            == [
                Some(Call::Sync(7)),
                Some(Call::Asked),
                Some(Call::Told(true)),
                Some(Call::Asked),
                Some(Call::Asked),
                None
            ]
    );
    Ok(())
}

// A judge that takes over is asked once, and the former one no more.
#[test]
fn a_judge_that_takes_over_is_asked_once(rt: HostRuntime) -> Result<(), Fail> {
    let alloc = rt.alloc();
    let at = Moment::of(SECOND).ok_or("below 2^62")?;
    let (calls, judge) = new_listing(alloc)?;
    let judge = Box::new(alloc, judge)?;
    let (former_calls, mut slave) = slave_of_listing(alloc)?;
    slave.set_judge(at, 0, judge);
    drop(slave);
    assert!(rt; former_calls.get() == [None; 6]);
    assert!(rt; calls.get() == [Some(Call::Asked), None, None, None, None, None]);
    Ok(())
}
