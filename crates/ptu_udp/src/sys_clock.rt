//! The clock of the system as a clock of this program.

ghost use Rattle.std.specs.Prelude.{◌≡◌, None};

use ptu_outside::Clock;
use ptu_units::Moment;
use std::marker::Model;
use std::time::Instant;
use std::{io, time};

/// The system's clock, which counts nanoseconds from its start. Where it cannot be read, it
/// answers its last moment again, and counts a fault.
#[derive(Drop)]
pub struct SysClock<R> {
    runtime: R,
    start: Instant,
    last: Moment,
    faults: u64,
}

impl<R> Model for SysClock<R> {
    ghost use Rattle.std.specs.Prelude.{ℕ};

    ghost Value = { ℕ };

    ghost view = { λ c. c.faults };
}

impl<R: time::Clock + Drop> SysClock<R> {
    // A clock whose zero is this instant.
    pub(crate) fn since(runtime: R, start: Instant) -> SysClock<R> {
        SysClock {
            runtime,
            start,
            last: Moment::default(),
            faults: 0,
        }
    }

    // How long ago its zero is, where the system tells it and it is a moment.
    fn read(&self) -> io::Result<Option<Moment>> {
        let nanos = self.start.elapsed(&self.runtime)?.as_nanos();
        Ok(u64::try_from(nanos).ok().and_then(Moment::of))
    }
}

impl<R: time::Clock + Drop> Clock for SysClock<R> {
    ghost use Rattle.std.proofs.Common.{rules};

    ghost moments = { λ _. None };

    ghost faults = { λ c. c };

    fn now(&mut self) -> Moment {
        match self.read() {
            Ok(Some(moment)) => self.last = moment,
            Ok(None) | Err(_) => self.faults = self.faults.saturating_add(1),
        }
        self.last
    }

    ghost never_empty = { Prim.search rules };
}
