//! The trait of a program that reads lines and writes lines. The driver in this crate runs it.

ghost use Rattle.std.specs.{Prelude.{◌≡◌, ◌≤◌, ◌∷◌, [], IfOk, OnOk, length}, List.{AllPass}};
ghost use Rattle.ptu_lines.specs.Script.{is_plain};
ghost use Rattle.ptu_report.specs.Rules.{Rules, IsOutcome};

use crate::texts::Texts;
use ptu_lines::LineCause;
use ptu_units::OutOfMemory;
use std::alloc::Global;

/// What a line comes to, or the end of the lines: `None`, or why it is refused.
///
/// # Errors
/// `OutOfMemory`.
pub type Stepped<C> = Result<Option<C>, OutOfMemory>;

/// A program over lines: each line is refused, or it gives texts of output and changes the state. A
/// value is a state.
pub trait Reporter {
    /// What a state means, as clauses see a value of this type. No program ever has one.
    type Meaning;

    /// Why a line is refused.
    type Cause: Drop;

    /// What the program does, over meanings.
    ghost rules: { Rules Self.Meaning Self.Cause };

    /// The state has this meaning. It may have several; one that has none is taken nowhere.
    ghost stands_for: { Self → Self.Meaning → Type 0 };

    /// Takes the line with this number, from 1: adds its texts, or answers the cause of its
    /// refusal.
    fn take(
        &mut self,
        alloc: Global,
        number: u64,
        line: &[u8],
        texts: &mut Texts,
    ) -> Stepped<Self::Cause>
        requires means { (meaning : Self.Meaning) × stands_for self.old meaning }
        requires first { 1 ≤ number }
        requires last { number ≤ 67108864 }
        requires short { length line.now ≤ 8192 }
        requires plain { AllPass is_plain line.now }
        requires empty { texts.old ≡ [] }
        ensures { IfOk result (λ refused. (meaning : Self.Meaning) → stands_for self.old meaning
            → IsOutcome (rules.step meaning number line.now) (stands_for self.new) texts.new
            refused) };

    /// Ends the output, after so many lines.
    fn close(&mut self, alloc: Global, lines: u64, texts: &mut Texts) -> Stepped<Self::Cause>
        requires means { (meaning : Self.Meaning) × stands_for self.old meaning }
        requires last { lines ≤ 67108864 }
        requires empty { texts.old ≡ [] }
        ensures { IfOk result (λ refused. (meaning : Self.Meaning) → stands_for self.old meaning
            → IsOutcome (rules.close meaning lines) (stands_for self.new) texts.new refused) };

    /// Adds the text that names the line with this number as refused.
    fn refuse(number: u64, cause: &Self::Cause, texts: &mut Texts) -> Result<(), OutOfMemory>
        requires { texts.old ≡ [] }
        ensures { OnOk result (texts.new ≡ rules.refusal number cause.now ∷ []) };

    /// The cause of a line that the reader of lines refuses.
    fn cause_of(cause: LineCause) -> Self::Cause
        ensures { result ≡ rules.cause_of cause };
}
