//! Judges that are taken as a script names them.
ghost use Rattle.std.specs.{Prelude.{map}, Option.{MatchOption}};
ghost use Rattle.ptu_judges.specs.Held.{IsStock};
ghost use Rattle.ptu_script.specs.Limits.{IsNamed};
ghost use Rattle.ptu_lab.specs.Steps.{HasNone, HasTaken};

use ptu_judges::{Judge, Rule};

/// The judges that are left: of the rule Flag, and of the rule Gap of 4.
#[derive(Drop)]
pub struct Reserve {
    pub flags: Vec<Box<dyn Judge>>,
    pub gaps: Vec<Box<dyn Judge>>,
}

/// Takes the last judge of a rule that a script can name; `None` where none is left.
pub fn take_judge(stock: &mut Reserve, rule: Rule) -> Option<Box<dyn Judge>>
    requires stock { IsStock (map held stock.old.flags.items)
        (map held stock.old.gaps.items) }
    requires named { IsNamed rule }
    ensures { MatchOption result
        (HasNone rule (map held stock.old.flags.items)
        (map held stock.old.gaps.items))
        (λ judge. HasTaken rule (map held stock.old.flags.items)
        (map held stock.old.gaps.items) (map held stock.new.flags.items)
        (map held stock.new.gaps.items) (held judge)) }
{
    match rule {
        Rule::Flag => stock.flags.pop(),
        Rule::Gap(_) => stock.gaps.pop(),
    }
}
