//! Laws of the definitions that the contracts of this crate cite: each is the contract of a
//! function that does nothing.

ghost use Rattle.std.specs.Prelude.{◌≡◌, ◌⊎◌, ◌↔◌, ◌<◌, ◌≤◌, ◌^◌, ℕ, List, All, Ok, Err};
ghost use Rattle.ptu_messages.specs.Header.{HasWidths, SpellsHeader, AlwaysSpellsHeader};
ghost use Rattle.ptu_messages.specs.{HeaderFault.{HasHeaderFault}, HeaderReading.{header_in}};
ghost use Rattle.ptu_messages.specs.HeaderSent.{sent_header};
ghost use Rattle.ptu_messages.specs.HeaderSamples.{HeadersAreSpelled, HeaderFaultsAreFound, HeadersAreSent};
ghost use Rattle.ptu_messages.specs.declared.header.Header.{Header};
ghost use Rattle.ptu_messages.specs.declared.header_fault.HeaderFault.{HeaderFault};

/// Every list of octets spells one header with one messageLength, or has one fault, and never both.
pub fn one_header_reading()
    ensures one_or_other { (octets : List ℕ) →
        ((h : Header) × (n : ℕ) × SpellsHeader octets h n)
        ⊎ ((f : HeaderFault) × HasHeaderFault octets f) }
    ensures never_both { (octets : List ℕ) (h : Header) (n : ℕ) (f : HeaderFault) →
        SpellsHeader octets h n → HasHeaderFault octets f → ⊥ }
    ensures one_header { (octets : List ℕ) (h h' : Header) (n n' : ℕ) →
        SpellsHeader octets h n → SpellsHeader octets h' n' → (h ≡ h') × (n ≡ n') }
    ensures one_fault { (octets : List ℕ) (f f' : HeaderFault) → HasHeaderFault octets f →
        HasHeaderFault octets f' → f ≡ f' }
{}

/// Octets spell only headers whose fields fit them, and each such header is read where it was sent.
pub fn sent_header_is_read()
    ensures widths { (octets : List ℕ) (h : Header) (n : ℕ) → All (λ o. o < 256) octets →
        SpellsHeader octets h n → HasWidths h }
    ensures again { (h : Header) (n : ℕ) → HasWidths h → 34 ≤ n → n < 2 ^ 16 →
        AlwaysSpellsHeader (sent_header h n) h n }
{}

/// The reading of octets and the relations on them say the same.
pub fn header_reading_is_spelling()
    ensures found { (octets : List ℕ) (h : Header) (n : ℕ) → (header_in octets ≡ Ok (h, n))
        ↔ SpellsHeader octets h n }
    ensures refused { (octets : List ℕ) (f : HeaderFault) → (header_in octets ≡ Err f)
        ↔ HasHeaderFault octets f }
{}

/// The definitions at headers that were made out by hand.
pub fn sample_headers()
    ensures spelled { HeadersAreSpelled }
    ensures faulty { HeaderFaultsAreFound }
    ensures sent { HeadersAreSent }
{}
