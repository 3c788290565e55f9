//! Whether two clients, or two pairs of a client and a kind, are one.

ghost use Rattle.std.specs.Prelude.{◌≡◌};
ghost use Rattle.ptu_units.specs.Client.{kind_place, same_client, same_lease};

use ptu_units::{Client, Kind};

// The place of a kind in the order of kinds.
fn place(kind: Kind) -> u8
    ensures { result ≡ kind_place kind }
{
    match kind {
        Kind::Announce => 0,
        Kind::Sync => 1,
        Kind::DelayResp => 2,
    }
}

/// Whether the two are one client.
pub(crate) fn is_same_client(a: &Client, b: &Client) -> bool
    ensures { result ≡ same_client a.now b.now }
{
    a.ip == b.ip && a.clock == b.clock && a.port == b.port
}

/// Whether the two pairs of a client and a kind are one.
pub(crate) fn is_same(a: &Client, kind: Kind, b: &Client, other: Kind) -> bool
    ensures { result ≡ same_lease a.now kind b.now other }
{
    is_same_client(a, b) && place(kind) == place(other)
}
