//! Turns a moment into a timestamp.

ghost use Rattle.std.specs.Prelude.{◌≡◌, ◌+◌, ◌/◌, ◌%◌, ◌<◌, ◌^◌};

use crate::moment::Moment;
use crate::nodes::Epoch;
use crate::stamp::Stamp;

/// Nanoseconds in a second.
pub const NANOS_PER_SECOND: u64 = 1_000_000_000;

/// The timestamp of a moment on a timescale that stands at `epoch` seconds at moment zero.
pub fn stamp(epoch: Epoch, at: Moment) -> Stamp
    ensures seconds { result.seconds ≡ epoch + at / NANOS_PER_SECOND }
    ensures nanos { result.nanos ≡ at % NANOS_PER_SECOND }
    // They stand in the 48 bits of a message.
    ensures fits { result.seconds < 2 ^ 48 }
{
    Stamp {
        seconds: epoch.get() + at.nanos() / NANOS_PER_SECOND,
        nanos: (at.nanos() % NANOS_PER_SECOND) as u32,
    }
}
