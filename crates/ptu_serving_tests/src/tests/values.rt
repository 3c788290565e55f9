//! Values of settings for tests.

ghost use Rattle.std.specs.Prelude.{◌≡◌};
ghost use Rattle.ptu_units.specs.Limits.{IsCapacity, IsSenders};

use ptu_units::{Capacity, Senders};
use std::process::Abort;

/// A capacity of so many sixteenths of a message per second.
pub(crate) fn capacity_of(rt: &impl Abort, sixteenths: u64) -> Capacity
    ensures value { result ≡ sixteenths }
    ensures range { IsCapacity result }
{
    Capacity::of(sixteenths).expect(rt, "a capacity is within its limits")
}

/// So many lanes that turn tables.
pub(crate) fn senders_of(rt: &impl Abort, lanes: u64) -> Senders
    ensures value { result ≡ lanes }
    ensures range { IsSenders result }
{
    Senders::of(lanes).expect(rt, "there are four lanes at most")
}
