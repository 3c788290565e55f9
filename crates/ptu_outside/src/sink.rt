//! The trait of where octets go, and the call that writes a whole text.

ghost use Rattle.std.specs.Prelude.{◌≡◌, ◌<◌, ◌≤◌, ◌∷◌, [], ℕ, List, Option, length, take, IfOk, OnOk, OnErr};
ghost use Rattle.std.specs.Io.KnownBytes.{append_known};
ghost use Rattle.ptu_outside.specs.{Faults.{HasRisen}, Handing.{Grows, HasPut, HasPutFront}};

use crate::failed::Failed;

/// Where octets go.
pub trait Sink {
    /// The octets that were written, if they are observable.
    ghost written: { Self → Option (List ℕ) };

    /// The pieces that it got, one for each call, if they are observable.
    ghost handed: { Self → Option (List (List ℕ)) };

    /// How many faults there have been.
    ghost faults: { Self → ℕ };

    /// Takes octets from the front of `piece`, at least one of a piece that is not empty, and gives
    /// how many.
    fn write(&mut self, piece: &[u8]) -> Result<usize, Failed>
        ensures within { IfOk result (λ n. n ≤ length piece.now) }
        ensures some { IfOk result (λ n. 0 < length piece.now → 0 < n) }
        // What was taken was added. A sink tells after a call exactly where it told before.
        ensures taken { IfOk result (λ n.
            written self.new ≡ append_known (written self.old) (take n piece.now)) }
        ensures kept { OnErr result (written self.new ≡ written self.old) }
        // Whatever became of it, it was handed this piece.
        ensures handed { Grows (handed self.old) (handed self.new) (piece.now ∷ []) }
        // The count of faults rises exactly where the call fails.
        ensures risen { OnErr result (HasRisen (faults self.old) (faults self.new)) }
        ensures still { OnOk result (faults self.new ≡ faults self.old) }
        ensures no_fall { faults self.old ≤ faults self.new };
}

/// Writes the whole text: the sink gets it in one piece, and then what it did not take, until all
/// is taken.
///
/// # Errors
/// `Failed` at the first call of the sink that fails. A prefix of the text was written then.
#[inline(always)]
pub fn write_whole<K: Sink>(sink: &mut K, text: &[u8]) -> Result<(), Failed>
    ensures whole { OnOk result (HasPut K.written K.handed sink.old sink.new (text.now ∷ [])) }
    ensures part { OnErr result (HasPutFront K.written K.handed sink.old sink.new text.now) }
    ensures risen { OnErr result (HasRisen (K.faults sink.old) (K.faults sink.new)) }
    ensures still { OnOk result (K.faults sink.new ≡ K.faults sink.old) }
    ensures no_fall { K.faults sink.old ≤ K.faults sink.new }
{
    let mut at = 0;
    while at < text.len() {
        at += sink.write(&text[at..])?;
    }
    Ok(())
}
