//! The judge of the rule `flag`: an operator says whether the master is unusable.

ghost use Rattle.std.specs.Prelude.{◌≡◌};
ghost use Rattle.ptu_judges.specs.Held.{flag_held, fresh};

use crate::judge::{Conduct, Judge};
use ptu_record::Rule;
use ptu_units::Moment;
use std::marker::Model;

/// A judge that finds what the operator said last, at first that its master is usable.
#[derive(Drop)]
pub struct FlagJudge {
    unusable: bool,
}

impl Model for FlagJudge {
    ghost use Rattle.std.specs.Prelude.{Bool};

    ghost Value = { Bool };

    ghost view = { λ j. j.unusable };
}

impl FlagJudge {
    /// A judge that was told nothing.
    pub fn new() -> FlagJudge
        ensures { ⟦<FlagJudge as Judge>⟧.held result ≡ fresh Rule.Flag }
    {
        FlagJudge { unusable: false }
    }
}

impl Conduct for FlagJudge {
    ghost hears = { λ old t seq new. new ≡ old };

    ghost is_told = { λ old t unusable new. new ≡ unusable };

    ghost finds = { λ old t unusable new. (unusable ≡ old) × (new ≡ old) };
}

impl Judge for FlagJudge {
    ghost held = { flag_held };

    fn rule(&self) -> Option<Rule> {
        Some(Rule::Flag)
    }

    fn heard(&mut self, t: Moment, seq: u16) {
        let _ = (t, seq);
    }

    fn told(&mut self, t: Moment, unusable: bool) {
        let _ = t;
        self.unusable = unusable;
    }

    fn assess(&mut self, t: Moment) -> bool {
        let _ = t;
        self.unusable
    }
}
