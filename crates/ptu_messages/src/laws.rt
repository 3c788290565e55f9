//! Laws of the definitions that the contracts of this crate cite: each is the contract of a
//! function that does nothing.

ghost use Rattle.std.specs.Prelude.{◌≡◌, ◌⊎◌, ◌↔◌, ◌≤◌, ℕ, List, All, length, Ok, Err};
ghost use Rattle.ptu_messages.specs.declared.header.Header.{Header};
ghost use Rattle.ptu_messages.specs.declared.header.PortIdentity.{PortIdentity};
ghost use Rattle.ptu_messages.specs.Header as headers;
ghost use Rattle.ptu_messages.specs.{declared.tlv.Tlv.{Tlv}, TlvsSent.{IsSendable}, Tlv.{HasWidths}};
ghost use Rattle.ptu_messages.specs.declared.message.Message.{Message};
ghost use Rattle.ptu_messages.specs.declared.fault.MessageFault.{MessageFault};
ghost use Rattle.ptu_messages.specs.Message.{HasBodyWidths, SpellsMessage};
ghost use Rattle.ptu_messages.specs.Sent.{AlwaysSpells, IsFixed, sent_message, signaling};
ghost use Rattle.ptu_messages.specs.Samples.{MessagesAreSpelled, FaultsAreFound, MessagesAreSent};
ghost use Rattle.ptu_messages.specs.{MessageFault.{HasMessageFault}, Reading.{message_in}};

/// Every list of octets spells one message, or has one fault, and never both.
pub fn one_reading()
    ensures one_or_other { (octets : List ℕ) →
        ((m : Message) × SpellsMessage octets m) ⊎ ((f : MessageFault) × HasMessageFault octets f) }
    ensures never_both { (octets : List ℕ) (m : Message) (f : MessageFault) →
        SpellsMessage octets m → HasMessageFault octets f → ⊥ }
    ensures one_message { (octets : List ℕ) (m m' : Message) →
        SpellsMessage octets m → SpellsMessage octets m' → m ≡ m' }
    ensures one_fault { (octets : List ℕ) (f f' : MessageFault) →
        HasMessageFault octets f → HasMessageFault octets f' → f ≡ f' }
{}

/// The reading of octets and the relations on them say the same.
pub fn reading_is_spelling()
    ensures found { (octets : List ℕ) (m : Message) → (message_in octets ≡ Ok m)
        ↔ SpellsMessage octets m }
    ensures refused { (octets : List ℕ) (f : MessageFault) → (message_in octets ≡ Err f)
        ↔ HasMessageFault octets f }
{}

/// Each message that is sent is read, whatever octets follow it.
pub fn sent_is_read()
    ensures fixed { (m : Message) → headers.HasWidths m.header → HasBodyWidths m.body → IsFixed m
        → AlwaysSpells (sent_message m) m }
    ensures signalings { (h : Header) (target : PortIdentity) (tlvs : List Tlv)
        → headers.HasWidths h
        → headers.HasIdentityWidths target → All HasWidths tlvs → h.message_type ≡ 12
        → length tlvs ≤ 32 → All IsSendable tlvs
        → AlwaysSpells (sent_message (signaling h target tlvs)) (signaling h target tlvs) }
{}

/// The definitions at datagrams that were made out by hand.
pub fn sample_messages()
    ensures spelled { MessagesAreSpelled }
    ensures faulty { FaultsAreFound }
    ensures sent { MessagesAreSent }
{}
