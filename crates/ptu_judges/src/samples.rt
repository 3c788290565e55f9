//! A judge for tests.

ghost use Rattle.std.specs.Prelude.{◌≡◌, ◌≤◌, None, false};
ghost use Rattle.ptu_record.specs.Marks.{fresh_marks};
ghost use Rattle.ptu_judges.specs.Held.{IsFresh};

use crate::judge::{Conduct, Judge};
use ptu_record::Rule;
use ptu_units::Moment;
use std::cell::Cell;
use std::rc::Rc;

/// A judge of another's making: it finds its master unusable from the second question on, and tells
/// when it is dropped.
pub struct OwnJudge {
    asked: u8,
    dropped: Rc<Cell<bool>>,
}

impl OwnJudge {
    /// A judge that was asked nothing yet, which sets this when it is dropped.
    pub fn new(dropped: Rc<Cell<bool>>) -> OwnJudge
        ensures { IsFresh (⟦<OwnJudge as Judge>⟧.held result) }
    {
        OwnJudge { asked: 0, dropped }
    }
}

impl Drop for OwnJudge {
    fn drop(self) {
        let OwnJudge { asked: _, dropped } = self;
        dropped.set(true);
    }
}

impl Conduct for OwnJudge {
    ghost hears = { λ old t seq new. new ≡ old };

    ghost is_told = { λ old t unusable new. new ≡ old };

    ghost finds = { λ old t unusable new. old.asked ≤ new.asked };
}

impl Judge for OwnJudge {
    ghost held = { λ _. record { rule = None; marks = fresh_marks; flag = false } };

    fn rule(&self) -> Option<Rule> {
        None
    }

    fn heard(&mut self, t: Moment, seq: u16) {
        let _ = (t, seq);
    }

    fn told(&mut self, t: Moment, unusable: bool) {
        let _ = (t, unusable);
    }

    fn assess(&mut self, t: Moment) -> bool {
        let _ = t;
        self.asked = self.asked.saturating_add(1);
        self.asked > 1
    }
}
