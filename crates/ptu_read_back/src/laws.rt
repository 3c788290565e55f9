//! The law. The function does nothing: its contract is the law, which holds of every line and every
//! report, wherever it comes from.

ghost use Rattle.std.specs.{Prelude.{◌≤◌, List, length}, List.{AllByRecursion}};
ghost use Rattle.ptu_report_lines.specs.declared.report_line.ReportLine.{ReportLine};
ghost use Rattle.ptu_read_back.specs.Ranges.{IsReportLineInRange};
ghost use Rattle.ptu_read_back.specs.ReadBack.{IsGivenByLines, IsReadBack, written_report};

/// Each line of a report is read back as it was written, where all that it is written of is in
/// range: by the audit's reader it says the same decision, change of capacity, shedding or datagram
/// again, or that it says nothing of these; and a line that names a refused line of a script has no
/// form. A report of at most 67108864 octets is cut into just the lines that were written, and none
/// of them is refused.
pub fn lines_are_read_back()
    ensures read { (line : ReportLine) → IsReportLineInRange line → IsReadBack line }
    ensures cut { (report : List ReportLine) → AllByRecursion IsReportLineInRange report →
        length (written_report report) ≤ 67108864 → IsGivenByLines report }
{}
