//! The driver: lines are read and reported one after the other.

ghost use Rattle.std.specs.Prelude.{◌≡◌, ◌≢◌, ◌≤◌, ◌+◌, ℕ, List, [], ◌∷◌, Some, option_map, IfOk, IfErr, OnOk, OnErr, IfNone, IfSome, IsErrOf};
ghost use Rattle.std.specs.Io.KnownBytes.{IsAtEnd};
ghost use Rattle.ptu_outside.specs.Handing.{HasPut, HasPutPart};
ghost use Rattle.ptu_lines.specs.Script.{ScriptLine, script_lines};
ghost use Rattle.ptu_lines.specs.Reading.{octets_taken, lines_left, AgreesOnEnd, Gives, IsReadToEnd, IsStopped};
ghost use Rattle.ptu_report.specs.Rules.{closing, meaning_of, texts_of, texts_until};
ghost use Rattle.ptu_report.specs.{Runs.{IsReadWithin}, Stops.{CountsRead, CountsWrite}};
ghost use Rattle.ptu_report.specs.Reported.{HasReported, HasReportedAllRead};
ghost use Rattle.ptu_report.specs.Step.{texts_found, is_whole, HasStepped};

use crate::ending::Ending;
use crate::reporter::Reporter;
use crate::stop::Stop;
use crate::texts::Texts;
use ptu_lines::{LineReader, LinesFault};
use ptu_outside::{Sink, Source, write_whole};
use std::alloc::Global;

// Hands a text to the sink in one piece, and its rest again until all is taken.
#[inline(always)]
fn put<K: Sink>(sink: &mut K, text: &[u8]) -> Result<(), Stop>
    ensures whole { OnOk result (HasPut K.written K.handed sink.old sink.new (text.now ∷ [])) }
    ensures part { OnErr result (HasPutPart K.written K.handed sink.old sink.new (text.now ∷ [])) }
    ensures cause { IfErr result (λ stop. stop ≡ Stop.Write) }
    ensures counts { CountsWrite result (K.faults sink.old) (K.faults sink.new) }
{
    match write_whole(sink, text) {
        Ok(()) => Ok(()),
        Err(_) => Err(Stop::Write),
    }
}

// One text after the other.
#[inline(always)]
fn put_all<K: Sink>(sink: &mut K, texts: &Texts) -> Result<(), Stop>
    ensures whole { OnOk result (HasPut K.written K.handed sink.old sink.new texts.now) }
    ensures part { OnErr result (HasPutPart K.written K.handed sink.old sink.new texts.now) }
    ensures cause { IfErr result (λ stop. stop ≡ Stop.Write) }
    ensures counts { CountsWrite result (K.faults sink.old) (K.faults sink.new) }
{
    'texts: for place in 0..texts.count() {
        put(sink, texts.text(place))?;
    }
    Ok(())
}

// Names a line as refused, which ends the output.
fn refuse<R: Reporter, K: Sink>(
    sink: &mut K,
    number: u64,
    cause: R::Cause,
    texts: &mut Texts,
) -> Result<Ending<R::Cause>, Stop>
    ensures ending { IfOk result (λ ending. ending ≡ Ending.Refused number cause) }
    ensures whole { OnOk result (HasPut K.written K.handed sink.old sink.new
        (R.rules.refusal number cause ∷ [])) }
    ensures part { OnErr result (HasPutPart K.written K.handed sink.old sink.new
        (R.rules.refusal number cause ∷ [])) }
    ensures cause { IfErr result (λ stop. stop ≢ Stop.Read) }
    ensures counts { CountsWrite result (K.faults sink.old) (K.faults sink.new) }
{
    texts.clear();
    R::refuse(number, &cause, texts)?;
    put_all(sink, texts)?;
    Ok(Ending::Refused { number, cause })
}

// Hands on what a line or the end came to: its texts, or the text that names it as refused, which
// ends the output.
#[inline(always)]
fn put_found<R: Reporter, K: Sink>(
    sink: &mut K,
    number: u64,
    refused: Option<R::Cause>,
    texts: &mut Texts,
) -> Result<Option<Ending<R::Cause>>, Stop>
    ensures ending { IfOk result (λ ended. ended ≡ option_map (Ending.Refused number) refused) }
    ensures whole { OnOk result (HasPut K.written K.handed sink.old sink.new
        (texts_found (R.rules.refusal number) texts.old refused)) }
    ensures part { OnErr result (HasPutPart K.written K.handed sink.old sink.new
        (texts_found (R.rules.refusal number) texts.old refused)) }
    ensures cause { IfErr result (λ stop. stop ≢ Stop.Read) }
    ensures counts { CountsWrite result (K.faults sink.old) (K.faults sink.new) }
{
    match refused {
        None => {
            put_all(sink, texts)?;
            Ok(None)
        }
        Some(cause) => Ok(Some(refuse::<R, K>(sink, number, cause, texts)?)),
    }
}

// Reads one line more and reports it; or the end, or a refused line, which is the last one.
fn one_line<R: Reporter, S: Source, K: Sink>(
    alloc: Global,
    reporter: &mut R,
    reader: &mut LineReader,
    source: &mut S,
    sink: &mut K,
    texts: &mut Texts,
) -> Result<Option<Ending<R::Cause>>, Stop>
    requires means { (meaning : R.Meaning) × R.stands_for reporter.old meaning }
    requires in_step { AgreesOnEnd reader.old.is_ended (S.left source.old) }
    ensures in_step { AgreesOnEnd reader.new.is_ended (S.left source.new) }
    ensures stepped { IfOk result
        (λ ended. (meaning : R.Meaning) → R.stands_for reporter.old meaning
        → HasStepped K.written K.handed sink.old sink.new R.rules meaning reader.old reader.new
        (S.left source.old) (S.left source.new) (R.stands_for reporter.new) ended) }
    ensures number { IfOk result (λ ended. IfNone ended
        (reader.new.number ≡ reader.old.number + 1)) }
    ensures end { IfOk result (λ ended. IfSome ended (λ ending. is_whole ending
        → IsAtEnd (S.left source.new))) }
    ensures part { OnErr result ((meaning : R.Meaning) → R.stands_for reporter.old meaning
        → (left : List ScriptLine) → lines_left reader.old (S.left source.old) ≡ Some left
        → HasPutPart K.written K.handed sink.old sink.new
        (texts_until R.rules (closing R.rules) meaning reader.old.number left)) }
    ensures stopped { IsErrOf result Stop.Read
        → IsStopped reader.old reader.new (S.left source.old) (S.left source.new) }
    ensures nothing { IsErrOf result Stop.Read → sink.new ≡ sink.old }
    ensures gives { (given : List (List ℕ))
        × Gives reader.old reader.new (S.left source.old) (S.left source.new) given }
    ensures bounded { octets_taken reader.new ≤ 67108865 }
    ensures few { reader.new.number ≤ 67108864 }
    ensures ends { IsReadToEnd reader.old.is_ended (S.ends source.old)
        → IsReadToEnd reader.new.is_ended (S.ends source.new) }
    ensures source_counts { CountsRead result (S.faults source.old) (S.faults source.new) }
    ensures sink_counts { CountsWrite result (K.faults sink.old) (K.faults sink.new) }
{
    let lines = reader.number();
    match reader.next(source) {
        Ok(Some(number)) => {
            texts.clear();
            let refused = reporter.take(alloc, number, reader.text(), texts)?;
            put_found::<R, K>(sink, number, refused, texts)
        }
        Ok(None) => {
            texts.clear();
            let refused = reporter.close(alloc, lines, texts)?;
            let ended = put_found::<R, K>(sink, lines + 1, refused, texts)?;
            Ok(Some(ended.unwrap_or(Ending::Whole { lines })))
        }
        Err(LinesFault::Line { number, cause }) => {
            let cause = R::cause_of(cause);
            Ok(Some(refuse::<R, K>(sink, number, cause, texts)?))
        }
        Err(LinesFault::Read) => Err(Stop::Read),
    }
}

/// Reports the lines that the source has left, one after the other, up to the first that is
/// refused: what the rules of the reporter say of each is handed to the sink before the next is
/// read, each text in one piece, and its rest again until all is taken. At most 67108865 octets are
/// read, and nothing behind the end.
///
/// # Errors
/// `Read` exactly where the source failed, `Write` exactly where the sink failed, and
/// `OutOfMemory`. No clause says what the reporter is then, nor after a line that was refused.
pub fn report<R: Reporter, S: Source, K: Sink>(
    alloc: Global,
    reporter: &mut R,
    source: &mut S,
    sink: &mut K,
) -> Result<Ending<R::Cause>, Stop>
    requires means { (meaning : R.Meaning) × R.stands_for reporter.old meaning }
    // The whole output was put, and the answer says how it ends.
    ensures whole { IfOk result (λ ending. (meaning : R.Meaning) → R.stands_for reporter.old meaning
        → (input : List ℕ) → S.left source.old ≡ Some input
        → HasReported K.written K.handed sink.old sink.new R.rules meaning
        (script_lines input) ending) }
    ensures end { IfOk result (λ ending. is_whole ending → IsAtEnd (S.left source.new)) }
    // The reporter then stands for what all lines lead to.
    ensures last { IfOk result (λ ending. is_whole ending
        → (meaning : R.Meaning) → R.stands_for reporter.old meaning
        → (input : List ℕ) → S.left source.old ≡ Some input
        → IfSome (meaning_of R.rules meaning (script_lines input)) (R.stands_for reporter.new)) }
    // What was put when it stopped is a front of the output.
    ensures part { OnErr result ((meaning : R.Meaning) → R.stands_for reporter.old meaning
        → (input : List ℕ) → S.left source.old ≡ Some input
        → HasPutPart K.written K.handed sink.old sink.new
        (texts_of R.rules meaning (script_lines input))) }
    // Where the source failed, that is all that belongs to the lines that were read whole.
    ensures all_read { IsErrOf result Stop.Read
        → (meaning : R.Meaning) → R.stands_for reporter.old meaning
        → HasReportedAllRead K.written K.handed sink.old sink.new R.rules meaning
        (S.left source.old) (S.left source.new) }
    ensures bounded { IsReadWithin S.Source source.old source.new 67108865 }
    // A fault always shows.
    ensures source_counts { CountsRead result (S.faults source.old) (S.faults source.new) }
    ensures sink_counts { CountsWrite result (K.faults sink.old) (K.faults sink.new) }
{
    let mut reader = LineReader::new(alloc)?;
    let mut texts = Texts::new(alloc);
    'lines: loop {
        let ended = one_line(alloc, reporter, &mut reader, source, sink, &mut texts)?;
        if let Some(ending) = ended {
            return Ok(ending);
        }
    }
}
