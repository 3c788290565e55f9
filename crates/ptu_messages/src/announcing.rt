//! The body of an Announce in octets (IEEE 1588-2019 clause 13.5).

ghost use Rattle.std.specs.Prelude.{◌≡◌, ◌≤◌, ◌<◌, ◌^◌, length};
ghost use Rattle.ptu_messages.specs.Message.{HasAnnounceWidths, announce_at};
ghost use Rattle.ptu_messages.specs.Sent.{sent_announce};

use crate::message::AnnounceBody;
use crate::stamps::{stamp, stamp_octets};
use ptu_units::sizes::HEADER_LENGTH;
use ptu_units::{i16_at, u16_at, u64_at};

/// The body in octets 34 to 63 of an Announce.
pub fn announce(octets: &[u8]) -> AnnounceBody
    requires { 64 ≤ length octets.now }
    ensures { result ≡ announce_at octets.now }
{
    AnnounceBody {
        origin: stamp(octets, HEADER_LENGTH),
        utc_offset: i16_at(octets, 44),
        priority1: octets[47],
        class: octets[48],
        accuracy: octets[49],
        variance: u16_at(octets, 50),
        priority2: octets[52],
        grandmaster: u64_at(octets, 53),
        steps: u16_at(octets, 61),
        time_source: octets[63],
    }
}

/// The thirty octets of the body.
pub fn announce_octets(body: AnnounceBody) -> [u8; 30]
    requires { body.origin.seconds < 2 ^ 48 }
    ensures octets { result ≡ sent_announce body }
    ensures widths { HasAnnounceWidths body }
{
    let mut octets = [0; 30];
    octets[..10].copy_from_slice(&stamp_octets(body.origin));
    octets[10..12].copy_from_slice(&body.utc_offset.cast_unsigned().to_be_bytes());
    octets[13] = body.priority1;
    octets[14] = body.class;
    octets[15] = body.accuracy;
    octets[16..18].copy_from_slice(&body.variance.to_be_bytes());
    octets[18] = body.priority2;
    octets[19..27].copy_from_slice(&body.grandmaster.to_be_bytes());
    octets[27..29].copy_from_slice(&body.steps.to_be_bytes());
    octets[29] = body.time_source;
    octets
}
