//! A clock in memory, for tests and for scripts: it answers a list of moments.

ghost use Rattle.std.specs.Prelude.{◌≡◌, [], Some, option_map};
ghost use Rattle.ptu_outside.specs.{Clocks.{after_first}, Faults.{HasNotFallen}};
ghost use Rattle.ptu_outside.specs.MemoryClock.{moments_of, clock_of};
ghost use Rattle.ptu_outside.specs.Telling.{IfTold, IsFirstTold};

use crate::clock::Clock;
use ptu_units::Moment;
use std::marker::Model;

/// A clock in memory. Its moments are always observable, and it never has a fault.
#[derive(Drop)]
pub struct MemClock {
    moments: Vec<Moment>,
    next: usize,
}

impl Model for MemClock {
    ghost use Rattle.std.specs.Prelude.{◌≤◌, ◌-◌, drop, vec_len};
    ghost use Rattle.ptu_outside.specs.MemoryClock.{MemoryClock, clock_of};

    ghost Value = { MemoryClock };

    ghost view = { λ c. clock_of (drop c.next c.moments.items) };

    ghost invariant = { λ c. c.next ≤ vec_len c.moments - 1 };
}

impl MemClock {
    /// A clock that answers these moments, one after the other, and then the last one again and
    /// again. With no moments it answers 0.
    pub fn new(moments: Vec<Moment>) -> MemClock
        ensures { result ≡ clock_of moments.items }
    {
        MemClock { moments, next: 0 }
    }
}

impl Clock for MemClock {
    ghost use Rattle.std.proofs.Common.{rules};

    ghost moments = { λ c. Some (moments_of c) };

    ghost faults = { λ _. 0 };

    fn now(&mut self) -> Moment
        ensures first { IsFirstTold (Some (moments_of self.old)) result }
        ensures rest { IfTold (Some (moments_of self.new))
            (option_map after_first (Some (moments_of self.old))) }
        ensures no_fall { HasNotFallen 0 0 }
    {
        let Some(now) = self.moments.get(self.next).copied() else {
            return Moment::default();
        };
        if self.next + 1 < self.moments.len() {
            self.next += 1;
        }
        now
    }

    ghost never_empty = { Prim.search rules };
}
