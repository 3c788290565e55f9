//! The octets of a datagram in a line, in a buffer that the caller lends. So a reader of commands
//! allocates nothing.

ghost use Rattle.std.specs.Prelude.{◌≡◌};

use std::marker::Model;

/// The octets of a datagram that a line names, in room that the reader's caller lent. A clause sees
/// them as a list.
#[derive(Debug, Drop)]
pub struct LentOctets<'a> {
    octets: &'a [u8],
}

impl<'a> Model for LentOctets<'a> {
    ghost use Rattle.std.specs.Prelude.{ℕ, List};

    ghost Value = { List ℕ };

    ghost view = { λ o. o.octets.now };
}

impl<'a> LentOctets<'a> {
    /// The octets of a datagram that stand in the buffer of a caller.
    pub fn new(octets: &'a [u8]) -> LentOctets<'a>
        ensures { result ≡ octets.now }
    {
        LentOctets { octets }
    }

    /// The octets of the datagram, in order.
    pub fn as_slice(&self) -> &'a [u8]
        ensures { result.now ≡ self.now }
    {
        self.octets
    }
}
