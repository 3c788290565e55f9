//! The judge of the rule `gap`: it finds a master unusable if too many of its last sixteen Syncs
//! are missing.

ghost use Rattle.std.specs.Prelude.{◌≡◌, ◌<◌, ◌≤◌, not, count_by};
ghost use Rattle.ptu_record.specs.Marks.{marks_up, marks_after};
ghost use Rattle.ptu_judges.specs.{Held.{fresh, gaps_find, gaps_held}, Shifting.{shifted}};

use crate::judge::{Conduct, Judge};
use ptu_record::Rule;
use ptu_units::Moment;
use std::marker::Model;

/// How many places behind the greatest sequenceId have a mark, with its own.
const PLACES: usize = 16;

/// A judge that finds its master unusable where the operator said so last, or where at least so
/// many of the last sixteen Syncs are missing.
#[derive(Drop)]
pub struct GapJudge {
    missing: u8,
    top: Option<u16>,
    marks: [bool; PLACES],
    unusable: bool,
}

impl Model for GapJudge {
    ghost use Rattle.ptu_judges.specs.Held.{Gaps};

    ghost Value = { Gaps };

    ghost view = { λ j. record {
      missing = j.missing;
      marks = record { top = j.top; set = j.marks };
      flag = j.unusable;
    } };
}

impl GapJudge {
    /// A judge that was told nothing, for 1 to 16 missing Syncs.
    pub fn new(n: u8) -> GapJudge
        requires { (1 ≤ n) × (n ≤ 16) }
        ensures { ⟦<GapJudge as Judge>⟧.held result ≡ fresh (Rule.Gap n) }
    {
        GapJudge {
            missing: n,
            top: None,
            marks: [true; PLACES],
            unusable: false,
        }
    }
}

// The mark of a place once each has moved up by so many places: one that opens is clear, but for
// the first.
fn mark_from(marks: &[bool; PLACES], by: usize, place: usize) -> bool
    requires { place < 16 }
    ensures { result ≡ shifted by marks.now place }
{
    place == 0 || (by <= place && marks[place - by])
}

// Each mark so many places further up.
fn moved_up(marks: &[bool; PLACES], by: usize) -> [bool; PLACES]
    ensures { result ≡ marks_up by marks.now }
{
    let mut moved = [true; PLACES];
    for i in 0..PLACES {
        moved[i] = mark_from(marks, by, i);
    }
    moved
}

// The greatest number and the marks, once a Sync of this number is heard.
fn marks_with(top: Option<u16>, marks: [bool; PLACES], seq: u16) -> (Option<u16>, [bool; PLACES])
    ensures { record { top = result.0; set = result.1 }
        ≡ marks_after (record { top = top; set = marks }) seq }
{
    let Some(last) = top else {
        return (Some(seq), marks);
    };
    let ahead = (seq as usize + 65536 - last as usize) % 65536;
    if ahead == 0 {
        (top, marks)
    } else if ahead <= 32767 {
        (Some(seq), moved_up(&marks, ahead))
    } else if 65536 - ahead <= 15 {
        let mut filled = marks;
        filled[65536 - ahead] = true;
        (top, filled)
    } else {
        (Some(seq), [true; PLACES])
    }
}

// How many marks are clear.
fn clear_count(marks: &[bool; PLACES]) -> usize
    ensures { result ≡ count_by (λ mark. not mark) marks.now }
{
    marks.iter().filter(|mark| !**mark).count()
}

impl Conduct for GapJudge {
    ghost hears = { λ old t seq new. new ≡ record old { marks = marks_after old.marks seq } };

    ghost is_told = { λ old t unusable new. new ≡ record old { flag = unusable } };

    ghost finds = { λ old t unusable new. (unusable ≡ gaps_find old) × (new ≡ old) };
}

impl Judge for GapJudge {
    ghost held = { gaps_held };

    fn rule(&self) -> Option<Rule> {
        Some(Rule::Gap(self.missing))
    }

    fn heard(&mut self, t: Moment, seq: u16) {
        let _ = t;
        let (top, marks) = marks_with(self.top, self.marks, seq);
        self.top = top;
        self.marks = marks;
    }

    fn told(&mut self, t: Moment, unusable: bool) {
        let _ = t;
        self.unusable = unusable;
    }

    fn assess(&mut self, t: Moment) -> bool {
        let _ = t;
        let clear = clear_count(&self.marks);
        self.unusable || clear >= self.missing as usize
    }
}
