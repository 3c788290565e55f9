//! Laws of the definitions that the contracts of this crate cite: each is the contract of a
//! function that does nothing.

ghost use Rattle.std.specs.Prelude.{◌≡◌, ◌<◌, ◌≤◌, ◌^◌, ◌+◌, ◌*◌, ◌++◌, ◌+ℤ◌, ℕ, ℤ, pos, List, All, length, slice_index};
ghost use Rattle.std.specs.Int.{w8, w16, w64, cast_signed, cast_unsigned};
ghost use Rattle.std.specs.Int.RustNames.{FitsSigned};
ghost use Rattle.ptu_units.specs.Number.{number_at, octets_of, signed_at, signed_octets, high_nibble_at, low_nibble_at};
ghost use Rattle.ptu_units.specs.Samples.{NumbersAreRead, SignsAreRead, NibblesAreRead};

/// What was written is read at its place, whatever stands before and behind it.
#[tactic(auto, using(crate::proofs::BigEndian::written_is_read))]
pub fn written_is_read()
    ensures many { (count n : ℕ) → length (octets_of count n) ≡ count }
    ensures again { (count n : ℕ) → n < 256 ^ count → number_at (octets_of count n) 0 count ≡ n }
    ensures front { (octets rest : List ℕ) (place count : ℕ) → place + count ≤ length octets
        → number_at (octets ++ rest) place count ≡ number_at octets place count }
    ensures behind { (front octets : List ℕ) (place count : ℕ) →
        number_at (front ++ octets) (length front + place) count ≡ number_at octets place count }
    ensures fits { (octets : List ℕ) (place count : ℕ) → All (λ o. o < 256) octets
        → number_at octets place count < 256 ^ count }
    ensures halves { (octets : List ℕ) (place : ℕ) →
        16 * high_nibble_at octets place + low_nibble_at octets place ≡ slice_index octets place }
{}

/// A sign is two's complement, and what was written is read.
#[tactic(auto, using(crate::proofs::Signs::signs_are_read))]
pub fn twos_complement()
    ensures low { (n : ℕ) → n < 2 ^ 63 → cast_signed w64 n ≡ pos n }
    ensures high { (n : ℕ) → 2 ^ 63 ≤ n → n < 2 ^ 64 → cast_signed w64 n +ℤ pos (2 ^ 64) ≡ pos n }
    ensures low_16 { (n : ℕ) → n < 2 ^ 15 → cast_signed w16 n ≡ pos n }
    ensures high_16 { (n : ℕ) → 2 ^ 15 ≤ n → n < 2 ^ 16
        → cast_signed w16 n +ℤ pos (2 ^ 16) ≡ pos n }
    ensures low_8 { (n : ℕ) → n < 2 ^ 7 → cast_signed w8 n ≡ pos n }
    ensures high_8 { (n : ℕ) → 2 ^ 7 ≤ n → n < 2 ^ 8 → cast_signed w8 n +ℤ pos (2 ^ 8) ≡ pos n }
    ensures again_64 { (z : ℤ) → FitsSigned w64 z → signed_at w64 (signed_octets w64 z) 0 ≡ z }
    ensures again_16 { (z : ℤ) → FitsSigned w16 z → signed_at w16 (signed_octets w16 z) 0 ≡ z }
    ensures again_8 { (z : ℤ) → FitsSigned w8 z → signed_at w8 (signed_octets w8 z) 0 ≡ z }
{}

/// The definitions at numbers that were made out by hand.
pub fn sample_numbers()
    ensures numbers { NumbersAreRead }
    ensures signs { SignsAreRead }
    ensures nibbles { NibblesAreRead }
{}
