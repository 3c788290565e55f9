//! A program over lines, run to the end of its input.

ghost use Rattle.std.specs.Prelude.{◌≡◌, ℕ, List, Some, OnOk, IfSome};
ghost use Rattle.ptu_lines.specs.Script.{script_lines};
ghost use Rattle.ptu_report.specs.{Rules.{meaning_of, texts_of}, Reported.{HasReported}};
ghost use Rattle.ptu_report.specs.Runs.{HasRunThrough, IfWritten};

use crate::driver::report;
use crate::ending::Ending;
use crate::fault::RunFault;
use crate::reporter::Reporter;
use crate::stop::Stop;
use ptu_outside::{Sink, Source};
use std::alloc::Global;

/// Reports the lines that the source has left, as `report` does, and answers how many there are.
///
/// # Errors
/// `Line` exactly where a line is refused, after the text that names it was handed over. `Read`
/// exactly where the source failed, `Write` exactly where the sink failed, and `OutOfMemory`. No
/// clause says what the reporter is then.
pub fn run<R: Reporter, S: Source, K: Sink>(
    alloc: Global,
    reporter: &mut R,
    source: &mut S,
    sink: &mut K,
) -> Result<u64, RunFault<R::Cause>>
    requires means { (meaning : R.Meaning) × R.stands_for reporter.old meaning }
    // The whole output was put, and the answer says how it ends.
    ensures whole { (meaning : R.Meaning) → R.stands_for reporter.old meaning
        → (input : List ℕ) → S.left source.old ≡ Some input → IfWritten result
        (λ ending. HasReported K.written K.handed sink.old sink.new R.rules meaning
        (script_lines input) ending) }
    // The reporter then stands for what all lines lead to.
    ensures last { OnOk result ((meaning : R.Meaning) → R.stands_for reporter.old meaning
        → (input : List ℕ) → S.left source.old ≡ Some input
        → IfSome (meaning_of R.rules meaning (script_lines input)) (R.stands_for reporter.new)) }
    // What was read and put, whatever is answered.
    ensures ran { (meaning : R.Meaning) → R.stands_for reporter.old meaning
        → HasRunThrough S.Source K.Sink source.old source.new sink.old sink.new R.rules meaning
        (λ input. texts_of R.rules meaning (script_lines input)) result }
{
    match report(alloc, reporter, source, sink) {
        Ok(Ending::Whole { lines }) => Ok(lines),
        Ok(Ending::Refused { number, cause }) => Err(RunFault::Line { number, cause }),
        Err(Stop::Read) => Err(RunFault::Read),
        Err(Stop::Write) => Err(RunFault::Write),
        Err(Stop::OutOfMemory) => Err(RunFault::OutOfMemory),
    }
}
