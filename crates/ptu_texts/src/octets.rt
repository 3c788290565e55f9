//! Octets written as hexadecimal digits.

ghost use Rattle.std.specs.Prelude.{◌≡◌, ◌++◌, OnOk};
ghost use Rattle.hex.specs.Hex.{encode_lower};

use ptu_lines::{Draft, Text};
use ptu_units::OutOfMemory;

/// Octets, as two hexadecimal digits in lower case each.
#[derive(Clone, Copy)]
pub struct OctetsText<'a>(pub &'a [u8]);

impl Text for OctetsText<'_> {
    ghost text = { λ o. encode_lower o.0.now };

    #[inline(always)]
    fn put(&self, draft: &mut Draft) -> Result<(), OutOfMemory> {
        draft.put_digits(self.0)
    }
}
