//! The client that a message comes from, by its address and its header.

ghost use Rattle.std.specs.Prelude.{◌≡◌};
ghost use Rattle.ptu_gm_messages.specs.Deciding.{client_of};

use ptu_messages::Header;
use ptu_units::Client;

/// The client of a message with this header, which came from this IPv4 address.
pub fn client_of(from: u32, header: &Header) -> Client
    ensures { result ≡ client_of from header.now }
{
    Client {
        ip: from,
        clock: header.source.clock,
        port: header.source.port,
    }
}
