//! The trait of what gives moments. The core of the program reads no clock but through it.

ghost use Rattle.std.specs.Prelude.{◌≡◌, ◌≢◌, ℕ, List, [], Option, Some, option_map};
ghost use Rattle.ptu_outside.specs.{Clocks.{after_first}, Faults.{HasNotFallen}};
ghost use Rattle.ptu_outside.specs.Telling.{IfTold, IsFirstTold};

use ptu_units::Moment;

/// Where moments come from. They need not rise.
pub trait Clock: Drop {
    /// The moments to come, if they are observable. The last one comes again and again.
    ghost moments: { Self → Option (List ℕ) };

    /// How many faults there have been. A clock that had one still answers.
    ghost faults: { Self → ℕ };

    /// The moment that it is now.
    fn now(&mut self) -> Moment
        ensures first { IsFirstTold (moments self.old) result }
        ensures rest { IfTold (moments self.new) (option_map after_first (moments self.old)) }
        ensures no_fall { HasNotFallen (faults self.old) (faults self.new) };

    /// There is always a moment to come.
    ghost never_empty: { (c : Self) → moments c ≢ Some [] };
}
