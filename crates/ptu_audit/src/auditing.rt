//! The call `audit`: reads a whole report from a source and writes one line.

ghost use Rattle.std.specs.Prelude.{◌≡◌, ◌++◌, ◌∷◌, [], ℕ, List, Some};
ghost use Rattle.ptu_lines.specs.Script.{script_lines};
ghost use Rattle.ptu_report.specs.{Rules.{texts_of}, Runs.{HasRunThrough}};
ghost use Rattle.ptu_audit.specs.Audited.{AnswerIsWritten, IsAnswer, IsAuditKept};
ghost use Rattle.ptu_audit.specs.Reading.{audit_rules, first_reading};

use crate::answer::{Answer, AuditFault};
use crate::auditor::{Auditor, ReportReader};
use ptu_outside::{Sink, Source};
use ptu_report::{RunFault, run};
use ptu_trail::laws::{faultless_so_far, faultless_trails};
use ptu_units::sizes::LONGEST_DATAGRAM;
use std::alloc::Global;

/// Audits the report that the source has left, whose grandmasters begin with this capacity, in
/// sixteenths of a message per second: whether each line has the form of a report's and is in
/// order, and then whether the grandmasters kept their promises, by their decisions and the
/// datagrams that they sent. It answers yes exactly where each group of lines is as it must be and
/// no record of a grandmaster has a fault. The one line of output, which says the answer or names
/// the refused line, is handed to the sink in one piece, and its rest again until all is taken. The
/// report is read to its end, or to the first refused line; at most 67108865 octets of it, and
/// nothing behind the end.
///
/// # Errors
/// `Line` exactly where a line is refused, with the first one, after the line of output that names
/// it was written. `Read` exactly where the source failed, `Write` exactly where the sink failed,
/// and `OutOfMemory`.
pub fn audit<S: Source, K: Sink>(
    alloc: Global,
    capacity: u64,
    source: &mut S,
    sink: &mut K,
) -> Result<Answer, AuditFault>
    // The answer is that to all lines of the report, or names the first that is refused.
    ensures exact { (input : List ℕ) → S.left source.old ≡ Some input →
        IsAnswer capacity input result }
    // It is yes exactly where the report is sound: each group of lines is as it must be, and no
    // grandmaster's trail has a fault. Then each grandmaster kept its promises.
    ensures promises { (input : List ℕ) → S.left source.old ≡ Some input →
        IsAuditKept capacity input result }
    // It was written.
    ensures written { (input : List ℕ) → S.left source.old ≡ Some input →
        AnswerIsWritten K.written K.handed sink.old sink.new result }
    // What was read and written, whatever is answered: where the source failed, nothing.
    ensures ran { HasRunThrough S.Source K.Sink source.old source.new sink.old sink.new audit_rules
        (first_reading capacity)
        (λ input. texts_of audit_rules (first_reading capacity) (script_lines input)) result }
{
    // A trail without a fault is sound.
    faultless_so_far();
    faultless_trails();
    let auditor = Auditor::new(alloc, capacity);
    let mut reader = ReportReader {
        auditor,
        room: [0; LONGEST_DATAGRAM],
    };
    match run(alloc, &mut reader, source, sink) {
        Ok(_) => match reader.auditor.answer() {
            Ok(answer) => Ok(answer),
            Err(_) => Err(RunFault::OutOfMemory),
        },
        Err(fault) => Err(fault),
    }
}
