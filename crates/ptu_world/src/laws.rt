//! What the report on a script is to the driver of programs over lines, by a function without a
//! body.
ghost use Rattle.std.specs.Prelude.{◌≡◌, ℕ, List, IfSome};
ghost use Rattle.ptu_lines.specs.Script.{script_lines};
ghost use Rattle.ptu_report.specs.Rules.{ending_of, meaning_of, texts_of};
ghost use Rattle.ptu_world.specs.Facts.{AreCounted, EndsBy, world_of};
ghost use Rattle.ptu_world.specs.Report.{course_opening, report, report_lines, rules};
ghost use Rattle.ptu_world.specs.World.{Stock};

/// The report is what the driver of programs over lines makes of the rules of a replay, it ends as
/// the driver's answer says, and the meaning at its end has its counts.
pub fn report_by_rules()
    ensures texts { (stock : Stock) (script : List ℕ) →
        texts_of rules (course_opening stock) (script_lines script) ≡ report stock script }
    ensures ending { (stock : Stock) (script : List ℕ) →
        EndsBy (ending_of rules (course_opening stock) (script_lines script))
        (world_of stock script)
        (report_lines stock script) }
    ensures counts { (stock : Stock) (script : List ℕ) →
        IfSome (meaning_of rules (course_opening stock) (script_lines script))
        (AreCounted stock script) }
{}
