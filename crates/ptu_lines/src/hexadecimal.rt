//! Octets as hexadecimal digits.

ghost use Rattle.std.specs.Prelude.{◌≡◌, ◌*◌, length};
ghost use Rattle.hex.specs.Hex.{encode_lower};

/// Writes two hexadecimal digits in lower case for each octet, which fill the room.
#[inline(always)]
pub(crate) fn write_hexadecimal(octets: &[u8], room: &mut [u8])
    requires { length room.old ≡ 2 * length octets.now }
    ensures { room.new ≡ encode_lower octets.now }
{
    hex::encode_to_slice(octets, room).unwrap();
}
