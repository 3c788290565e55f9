//! Values for tests and examples: what a verdict says, in numbers.

ghost use Rattle.std.specs.Prelude.{◌≡◌};
ghost use Rattle.ptu_admit.specs.Samples.{told_of};

use crate::verdict::{Outside, Verdict};

/// What a verdict says.
#[derive(Clone, Copy, Debug, PartialEq, Eq)]
pub enum Told {
    /// Granted at the first moment, until the second.
    Granted(u64, u64),
    /// Short at a moment: the rates of the others, its own, and the capacity.
    Short(u64, u64, u64, u64),
    /// Outside the profile.
    Outside(Outside),
}

/// What this verdict says.
pub fn numbers_of(verdict: &Verdict) -> Told
    ensures { result ≡ told_of verdict.now }
{
    match verdict {
        Verdict::Granted(grant) => Told::Granted(grant.at().nanos(), grant.until()),
        Verdict::Short(shortage) => {
            let at = shortage.at().nanos();
            Told::Short(at, shortage.others(), shortage.rate(), shortage.capacity())
        }
        Verdict::Outside(outside) => Told::Outside(*outside),
    }
}
