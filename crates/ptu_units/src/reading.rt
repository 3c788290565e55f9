//! Big-endian numbers in octets, read at a place.

ghost use Rattle.std.specs.{Prelude.{◌≡◌, ◌+◌, ◌≤◌, ◌<◌, ◌^◌, length}, Int.{w16, w64}};
ghost use Rattle.ptu_units.specs.Number.{number_at, signed_at, high_nibble_at, low_nibble_at};

/// The number in the two octets from a place on.
pub fn u16_at(octets: &[u8], place: usize) -> u16
    requires { place + 2 ≤ length octets.now }
    ensures { result ≡ number_at octets.now place 2 }
{
    u16::from_be_bytes([octets[place], octets[place + 1]])
}

/// The number in the four octets from a place on.
pub fn u32_at(octets: &[u8], place: usize) -> u32
    requires { place + 4 ≤ length octets.now }
    ensures { result ≡ number_at octets.now place 4 }
{
    u32::from_be_bytes([
        octets[place],
        octets[place + 1],
        octets[place + 2],
        octets[place + 3],
    ])
}

/// The number in the six octets from a place on.
pub fn u48_at(octets: &[u8], place: usize) -> u64
    requires { place + 6 ≤ length octets.now }
    ensures value { result ≡ number_at octets.now place 6 }
    ensures below { result < 2 ^ 48 }
{
    u64::from_be_bytes([
        0,
        0,
        octets[place],
        octets[place + 1],
        octets[place + 2],
        octets[place + 3],
        octets[place + 4],
        octets[place + 5],
    ])
}

/// The number in the eight octets from a place on.
pub fn u64_at(octets: &[u8], place: usize) -> u64
    requires { place + 8 ≤ length octets.now }
    ensures { result ≡ number_at octets.now place 8 }
{
    u64::from_be_bytes([
        octets[place],
        octets[place + 1],
        octets[place + 2],
        octets[place + 3],
        octets[place + 4],
        octets[place + 5],
        octets[place + 6],
        octets[place + 7],
    ])
}

/// The number with a sign in the two octets from a place on.
pub fn i16_at(octets: &[u8], place: usize) -> i16
    requires { place + 2 ≤ length octets.now }
    ensures { result ≡ signed_at w16 octets.now place }
{
    u16_at(octets, place).cast_signed()
}

/// The number with a sign in the eight octets from a place on.
pub fn i64_at(octets: &[u8], place: usize) -> i64
    requires { place + 8 ≤ length octets.now }
    ensures { result ≡ signed_at w64 octets.now place }
{
    u64_at(octets, place).cast_signed()
}

/// The higher four bits of the octet at a place.
pub fn high_nibble(octets: &[u8], place: usize) -> u8
    requires { place < length octets.now }
    ensures value { result ≡ high_nibble_at octets.now place }
    ensures four_bits { result < 16 }
{
    octets[place] >> 4
}

/// The lower four bits of the octet at a place.
pub fn low_nibble(octets: &[u8], place: usize) -> u8
    requires { place < length octets.now }
    ensures value { result ≡ low_nibble_at octets.now place }
    ensures four_bits { result < 16 }
{
    octets[place] & 0x0f
}
