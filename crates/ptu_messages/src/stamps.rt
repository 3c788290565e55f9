//! Timestamps in octets (IEEE 1588-2019 clause 5.3.3).

ghost use Rattle.std.specs.Prelude.{◌≡◌, ◌+◌, ◌≤◌, ◌<◌, ◌^◌, length};
ghost use Rattle.ptu_messages.specs.{Message.{HasStampWidths, stamp_at}, Sent.{sent_stamp}};

use ptu_units::{Stamp, u32_at, u48_at, u48_octets};

/// The timestamp in the ten octets from a place on.
pub fn stamp(octets: &[u8], place: usize) -> Stamp
    requires { place + 10 ≤ length octets.now }
    ensures { result ≡ stamp_at octets.now place }
{
    Stamp {
        seconds: u48_at(octets, place),
        nanos: u32_at(octets, place + 6),
    }
}

/// The ten octets of a timestamp.
pub fn stamp_octets(stamp: Stamp) -> [u8; 10]
    requires { stamp.seconds < 2 ^ 48 }
    ensures octets { result ≡ sent_stamp stamp }
    ensures widths { HasStampWidths stamp }
{
    let [a, b, c, d, e, f] = u48_octets(stamp.seconds);
    let [g, h, i, j] = stamp.nanos.to_be_bytes();
    [a, b, c, d, e, f, g, h, i, j]
}
