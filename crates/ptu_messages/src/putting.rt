//! Octets at their place in a datagram that is written.

ghost use Rattle.std.specs.Prelude.{◌≡◌, ◌+◌, ◌≤◌, ◌++◌, length, take, drop};

/// Puts the octets at a place, and leaves what stands before and behind.
pub fn put(out: &mut [u8], place: usize, octets: &[u8])
    requires { place + length octets.now ≤ length out.old }
    ensures { out.new
        ≡ take place out.old ++ octets.now ++ drop (place + length octets.now) out.old }
{
    out[place..place + octets.len()].copy_from_slice(octets);
}
