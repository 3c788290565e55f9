//! What the definitions of texts mean: each word that is written is read again, and values that
//! were made out by hand.

ghost use Rattle.std.specs.Prelude.{◌≡◌, ◌<◌, ◌≤◌, ◌^◌, ℕ, List, Some, length};
ghost use Rattle.hex.specs.Hex.{IsBytes, encode_lower};
ghost use Rattle.ptu_lines.specs.Words.{clock_of, ip_of, octets_of};
ghost use Rattle.ptu_texts.specs.Samples.{NamesAreWritten, FaultsAreWritten};
ghost use Rattle.ptu_texts.specs.Texts.{address_text, clock_text};

/// The word that an address, a clockIdentity or the octets of a datagram are written as has the
/// form of IP, CLOCK or HEX, and is read as just these. (NUM and LOG are what numbers are printed
/// as, by the laws of those forms.)
pub fn words_are_read_again()
    ensures address { (ip : ℕ) → ip < 2 ^ 32 → ip_of (address_text ip) ≡ Some ip }
    ensures clock { (clock : ℕ) → clock < 2 ^ 64 → clock_of (clock_text clock) ≡ Some clock }
    ensures octets { (octets : List ℕ) → IsBytes octets → 1 ≤ length octets →
        length octets ≤ 2048 → octets_of (encode_lower octets) ≡ Some octets }
{}

/// The texts of values that were made out by hand.
pub fn sample_texts()
    ensures names { NamesAreWritten }
    ensures faults { FaultsAreWritten }
{}
