//! Finds a sent datagram by its number.

ghost use Rattle.std.specs.Prelude.{◌≡◌};
ghost use Rattle.ptu_world.specs.World.{datagram_numbered};

use ptu_report_lines::{SentList, SentRef};

/// The datagram that was sent with this number among those that were sent, in order: they are
/// numbered from 1. `None` where none was.
pub fn datagram_of(sent: &SentList, number: u64) -> Option<SentRef<'_>>
    ensures { result ≡ datagram_numbered number sent.now }
{
    if number == 0 {
        return None;
    }
    sent.get((number - 1) as usize)
}
