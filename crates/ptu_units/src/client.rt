//! Clients of a grandmaster, and the table that each belongs to. Every request and Delay_Req goes
//! to its table by `table_of`.

ghost use Rattle.std.specs.Prelude.{◌≡◌, ◌<◌};
ghost use Rattle.ptu_units.specs.Client.{table_of as table_of_client};

/// A client of a grandmaster: the IPv4 address that a message came from, and the message's
/// sourcePortIdentity (IEEE 1588-2019 clause 7.5.2). Clients are ordered by address, then clock
/// identity, then port number.
#[derive(Clone, Copy, Debug, PartialEq, Eq, PartialOrd, Ord, Hash)]
pub struct Client {
    /// The IPv4 address, its first octet highest.
    pub ip: u32,
    /// The clock identity, its first octet highest.
    pub clock: u64,
    /// The port number.
    pub port: u16,
}

/// The table, from 0 to 3, that a client belongs to: the last octet of its clock identity plus its
/// port number, modulo 4.
pub fn table_of(client: &Client) -> usize
    ensures value { result ≡ table_of_client client.now }
    ensures below { result < 4 }
{
    ((client.clock % 256) as usize + client.port as usize) % 4
}
