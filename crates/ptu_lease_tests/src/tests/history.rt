ghost use Rattle.std.specs.Prelude.{◌≡◌};
ghost use Rattle.ptu_units.specs.Client.{client_cmp, kind_cmp, same_client, same_kind};

use ptu_units::{Client, Kind};
use std::cmp::Ordering;

fn client(ip: u32, clock: u64, port: u16) -> Client {
    Client { ip, clock, port }
}

// The derived orders and comparisons are those of the definitions.
fn compare(a: &Client, b: &Client) -> Ordering
    ensures { result ≡ client_cmp a.now b.now }
{
    a.cmp(b)
}

fn is_same(a: &Client, b: &Client) -> bool
    ensures { result ≡ same_client a.now b.now }
{
    a == b
}

fn compare_kinds(a: Kind, b: Kind) -> Ordering
    ensures { result ≡ kind_cmp a b }
{
    a.cmp(&b)
}

fn is_same_kind(a: Kind, b: Kind) -> bool
    ensures { result ≡ same_kind a b }
{
    a == b
}

#[test]
fn clients_in_order(rt: HostRuntime) {
    let middle = client(5, 5, 5);
    let found = (
        compare(&middle, &client(6, 0, 0)),
        compare(&middle, &client(5, 4, 9)),
        compare(&middle, &client(5, 5, 6)),
        compare_kinds(Kind::Sync, Kind::DelayResp),
        is_same(&middle, &client(5, 5, 5)),
        is_same_kind(Kind::Announce, Kind::Sync),
    );
    let (less, greater) = (Ordering::Less, Ordering::Greater);
    assert_eq!(rt; found, (less, greater, less, less, true, false));
}
