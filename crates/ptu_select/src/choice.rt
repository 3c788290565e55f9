//! The choice among all masters, with the span of moments for which it stays right.

ghost use Rattle.std.specs.{Prelude.{◌≡◌, ℕ, ◌<◌, ◌≤◌}, Option.{ForSome, option_map}};
ghost use Rattle.ptu_select.specs.{Candidate.{best_of}, Choice.{Stands}};

use crate::candidate::{Candidate, better_of};
use crate::master::WatchedMaster;
use ptu_units::Moment;

/// The place of the selected master with the moments for which it stands where nothing is entered:
/// from the first on, before the second, both in nanoseconds.
#[derive(Clone, Copy)]
pub struct Choice {
    pub from: u64,
    pub until: u64,
    pub place: Option<usize>,
}

/// The choice that is kept, where it stands at the moment, or else that of the moment.
pub fn choice_at(kept: Option<Choice>, masters: &[WatchedMaster], t: Moment) -> Choice
    requires { ForSome kept (λ kept. Stands masters.now kept) }
    ensures stands { Stands masters.now result }
    ensures from { result.from ≤ t }
    ensures until { t < result.until }
{
    match kept {
        Some(kept) if kept.from <= t.nanos() && t.nanos() < kept.until => kept,
        _ => new_choice(masters, t),
    }
}

// The choice of the moment, by a look at every master.
fn new_choice(masters: &[WatchedMaster], t: Moment) -> Choice
    ensures stands { Stands masters.now result }
    ensures from { result.from ≡ t }
    ensures until { t < result.until }
{
    let best = best_candidate(masters, t);
    Choice {
        from: t.nanos(),
        until: next_change(masters, t),
        place: best.map(|best| best.place),
    }
}

// The best of the masters that may be selected at the moment.
fn best_candidate(masters: &[WatchedMaster], t: Moment) -> Option<Candidate>
    ensures { result ≡ best_of t masters.now }
{
    masters
        .iter()
        .enumerate()
        .fold(None, |best, (place, master)| {
            better_of(best, master.candidate(place, t))
        })
}

// A moment after `t`, the first at which the state of a master is another one than at `t`, where
// nothing is entered.
fn next_change(masters: &[WatchedMaster], t: Moment) -> u64
    ensures later { t < result }
    ensures before { (x : ℕ) → t ≤ x → x < result → best_of x masters.now ≡ best_of t masters.now }
{
    let mut until = u64::MAX;
    for master in masters {
        until = until.min(master.watch.next_change(t));
    }
    until
}
