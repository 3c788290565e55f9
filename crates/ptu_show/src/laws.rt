//! The definitions that the contracts of this crate cite, at inputs made out by hand.

ghost use Rattle.std.specs.Prelude.{◌≡◌, ◌↔◌, ◌+◌, ◌^◌, List, Some, pos};
ghost use Rattle.ptu_units.specs.declared.stamp.Stamp.{Stamp};
ghost use Rattle.ptu_messages.specs.declared.header.Header.{Header};
ghost use Rattle.ptu_messages.specs.declared.message.Body.TheVariants as bodies;
ghost use Rattle.ptu_show.specs.declared.half.Half.{Half};
ghost use Rattle.ptu_show.specs.{declared.half.Part.TheVariants.{Sync, FollowUp}, Halves.{joined_sync}};
ghost use Rattle.ptu_show.specs.Joins.{partner, JoinsWith};
ghost use Rattle.ptu_show.specs.JoinSamples.{HalvesAreJoined, HalvesAreSpelled, HalvesJoin};
ghost use Rattle.ptu_show.specs.JoinSamples.{HalvesWait, InputsAreJoined, KeysAreApart};
ghost use Rattle.ptu_show.specs.Samples.{DatagramsAreShown, InputsAreShown, TlvsAreShown};

/// The lines of datagrams that were made out by hand, and the output for whole inputs.
pub fn sample_lines()
    ensures datagrams { DatagramsAreShown }
    ensures tlvs { TlvsAreShown }
    ensures inputs { InputsAreShown }
{}

/// Halves that were made out by hand: which of them join and wait, what they come to, and the
/// output for whole inputs.
pub fn sample_joins()
    ensures join { HalvesJoin }
    ensures keys { KeysAreApart }
    ensures wait { HalvesWait }
    ensures joined { HalvesAreJoined }
    ensures spelled { HalvesAreSpelled }
    ensures inputs { InputsAreJoined }
{}

/// A half joins with another exactly where the other is the half of its key directly before it,
/// does not itself join, and is of the other type.
pub fn joining_is_relation()
    ensures { (halves : List Half) (half before : Half) →
        (partner halves half ≡ Some before) ↔ JoinsWith halves half before }
{}

/// A Sync in one step without a correction that was sent in two, as it is with twoStepFlag and then
/// as a Follow_Up of the time, comes back.
pub fn two_steps_are_undone()
    ensures { (header : Header) (sent stamp : Stamp) → header.correction ≡ pos 0 → joined_sync
        (record {
          part = Sync;
          header = record header { flags = header.flags + 2 ^ 9 };
          stamp = sent;
        })
        (record { part = FollowUp; header = record header { message_type = 8 }; stamp = stamp })
        ≡ Some (record { header = header; body = bodies.Sync stamp }) }
{}
