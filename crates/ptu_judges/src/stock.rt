//! Judges in reserve: a slave's daemon takes one for each master.

ghost use Rattle.std.specs.{Prelude.{◌≡◌, [], map}, Option.{MatchOption}};
ghost use Rattle.ptu_judges.specs.Held.{HasNone, HasTaken, IsStock};

use crate::judge::Judge;
use ptu_record::{NAMED_GAP, Rule};
use std::alloc::Global;

/// Judges in reserve, of which a call takes those that it needs: of the rule Flag, and of the rule
/// Gap of `NAMED_GAP`. A call that takes a stock asks that all of them are fresh (`IsStock`).
#[derive(Drop)]
pub struct Stock {
    pub flags: Vec<Box<dyn Judge>>,
    pub gaps: Vec<Box<dyn Judge>>,
}

impl Stock {
    /// A stock without judges.
    pub fn empty(alloc: Global) -> Stock
        ensures none { (result.flags.items ≡ []) × (result.gaps.items ≡ []) }
        ensures stock { IsStock (map held result.flags.items)
            (map held result.gaps.items) }
    {
        Stock {
            flags: Vec::new(alloc),
            gaps: Vec::new(alloc),
        }
    }

    /// Takes the last judge of a rule; `None` where none is left. Of a gap of another length than
    /// `NAMED_GAP` a stock has none.
    pub fn take(&mut self, rule: Rule) -> Option<Box<dyn Judge>>
        requires { IsStock (map held self.old.flags.items)
            (map held self.old.gaps.items) }
        ensures { MatchOption result
            (HasNone rule (map held self.old.flags.items)
            (map held self.old.gaps.items))
            (λ judge. HasTaken rule (map held self.old.flags.items)
            (map held self.old.gaps.items) (map held self.new.flags.items)
            (map held self.new.gaps.items) (held judge)) }
    {
        match rule {
            Rule::Flag => self.flags.pop(),
            Rule::Gap(NAMED_GAP) => self.gaps.pop(),
            Rule::Gap(_) => None,
        }
    }
}
