//! Numbers written as six octets, the size that Rust's `to_be_bytes` does not have.

ghost use Rattle.std.specs.Prelude.{◌≡◌, ◌<◌, ◌^◌};
ghost use Rattle.ptu_units.specs.Number.{number_at, octets_of};

/// A number in six octets, the highest octet first. std's `to_be_bytes` writes numbers of two, four
/// and eight.
pub fn u48_octets(n: u64) -> [u8; 6]
    requires { n < 2 ^ 48 }
    ensures octets { result ≡ octets_of 6 n }
    ensures again { number_at result 0 6 ≡ n }
{
    let [_, _, a, b, c, d, e, f] = n.to_be_bytes();
    [a, b, c, d, e, f]
}
