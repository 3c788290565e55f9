//! The octets of one datagram as a value, for ports in memory.

ghost use Rattle.std.specs.Prelude.{◌≡◌};

use std::marker::Model;

/// The octets of one datagram. A clause sees it as the list of these.
#[derive(Drop)]
pub struct Datagram {
    octets: Vec<u8>,
}

impl Model for Datagram {
    ghost use Rattle.std.specs.Prelude.{List, ℕ};

    ghost Value = { List ℕ };

    ghost view = { λ d. d.octets.items };
}

impl Datagram {
    /// The datagram of these octets.
    pub fn new(bytes: Vec<u8>) -> Datagram
        ensures { result ≡ bytes.items }
    {
        Datagram { octets: bytes }
    }

    /// The octets of the datagram.
    pub fn bytes(&self) -> &[u8]
        ensures { result.now ≡ self.now }
    {
        &self.octets
    }
}
