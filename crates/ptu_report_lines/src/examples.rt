//! One line of each form. Each clause is one line; the bodies are empty.
ghost use Rattle.std.specs.Prelude.{◌≡◌, ◌∷◌, [], Some, None, pos, negsuc, codes};
ghost use Rattle.ptu_units.specs.declared.kind.Kind.TheVariants as kinds;
ghost use Rattle.ptu_messages.specs.declared.header_fault.HeaderFault.TheVariants as headers;
ghost use Rattle.ptu_messages.specs.declared.fault.MessageFault.TheVariants as faults;
ghost use Rattle.ptu_outside.specs.declared.channel.Channel.TheVariants as channels;
ghost use Rattle.ptu_lines.specs.declared.cause.LineCause.TheVariants as line_causes;
ghost use Rattle.ptu_script.specs.declared.cause.Cause.TheVariants as causes;
ghost use Rattle.ptu_report_lines.specs.Report.{line_text};
ghost use Rattle.ptu_report_lines.specs.declared.decision.Decision.TheVariants as decisions;
ghost use Rattle.ptu_report_lines.specs.declared.delay.DelayAnswer.TheVariants as delays;
ghost use Rattle.ptu_report_lines.specs.declared.hearing.Hearing.TheVariants as hearings;
ghost use Rattle.ptu_report_lines.specs.declared.signal.Received.TheVariants as receipts;
ghost use Rattle.ptu_report_lines.specs.declared.reason.Reason.TheVariants as reasons;
ghost use Rattle.ptu_report_lines.specs.declared.statement.Statement.TheVariants as statements;
ghost use Rattle.ptu_report_lines.specs.declared.report_line.ReportLine.TheVariants as lines;

/// The lines of a grandmaster.
pub fn lines_of_a_grandmaster()
    ensures granted { line_text
        (lines.At 2 (statements.Decided (decisions.Granted kinds.Announce (pos 1) 0 300)))
        ≡ codes "2 granted announce 1 at 0 until 300\n" }
    ensures short { line_text (lines.At 3 (statements.Decided
        (decisions.Short kinds.Sync (negsuc 6) 0 5 2048 2047)))
        ≡ codes "3 short sync -7 at 0 others 5 rate 2048 capacity 2047\n" }
    ensures outside_type { line_text (lines.At 2 (statements.Decided (decisions.OutsideType 3)))
        ≡ codes "2 outside type 3\n" }
    ensures outside_log { line_text
        (lines.At 2 (statements.Decided (decisions.OutsideLog kinds.Announce (negsuc 3))))
        ≡ codes "2 outside log announce -4\n" }
    ensures outside_duration { line_text
        (lines.At 2 (statements.Decided (decisions.OutsideDuration kinds.Sync (pos 0) 59)))
        ≡ codes "2 outside duration sync 0 59\n" }
    ensures cancelled { line_text
        (lines.At 3 (statements.Decided (decisions.Cancelled kinds.DelayResp 5)))
        ≡ codes "3 cancelled delay_resp at 5\n" }
    ensures nothing { line_text
        (lines.At 4 (statements.Decided (decisions.Nothing kinds.Announce 6)))
        ≡ codes "4 nothing announce at 6\n" }
    ensures no_kind { line_text (lines.At 4 (statements.Decided (decisions.NoKind 2)))
        ≡ codes "4 nothing 2\n" }
    ensures answered { line_text (lines.At 3 (statements.Asked (delays.Answered 10)))
        ≡ codes "3 answered at 10\n" }
    ensures no_grant { line_text (lines.At 3 (statements.Asked (delays.NoGrant 0)))
        ≡ codes "3 silent nogrant at 0\n" }
    ensures too_soon { line_text (lines.At 5 (statements.Asked (delays.TooSoon 10 11)))
        ≡ codes "5 silent soon at 10 earliest 11\n" }
    ensures capacity { line_text (lines.At 4 (statements.Capacity 0x0A000001 8 2))
        ≡ codes "4 capacity 10.0.0.1 8 at 2\n" }
    ensures shed { line_text (lines.At 4 (statements.Shed kinds.Announce (pos 1)
        (record { ip = 0x0A000112; clock = 0x0A00000000000012; port = 1 })))
        ≡ codes "4 shed announce 1 10.0.1.18 0a00000000000012/1\n" }
    ensures sent { line_text (lines.At 7 (statements.Sent 3 (record {
      from = 0x0A000001;
      to = 0x0A000111;
      channel = channels.Event;
      octets = 0 ∷ 255 ∷ [];
    })))
        ≡ codes "7 send 3 10.0.0.1 10.0.1.17 event 00ff\n" }
{}

/// The lines of a slave, and those of neither.
pub fn lines_of_a_slave()
    ensures announce { line_text
        (lines.At 9 (statements.Heard (hearings.Announce 0x0A000001 84 2003)))
        ≡ codes "9 heard announce 10.0.0.1 class 84 at 2003\n" }
    ensures sync { line_text (lines.At 8 (statements.Heard (hearings.Sync 0x0A000001 6 2002)))
        ≡ codes "8 heard sync 10.0.0.1 seq 6 at 2002\n" }
    ensures follow_up { line_text (lines.At 8 (statements.Heard (hearings.FollowUp 0x0A000001 3)))
        ≡ codes "8 heard follow_up 10.0.0.1 at 3\n" }
    ensures delay_resp { line_text
        (lines.At 8 (statements.Heard (hearings.DelayResp 0x0A000001 7 4)))
        ≡ codes "8 heard delay_resp 10.0.0.1 seq 7 at 4\n" }
    ensures grant { line_text (lines.At 6 (statements.Received (receipts.Grant kinds.Announce 300)))
        ≡ codes "6 grant announce 300\n" }
    ensures denial { line_text (lines.At 6 (statements.Received (receipts.Denial kinds.Sync)))
        ≡ codes "6 denial sync\n" }
    ensures cancel { line_text (lines.At 6 (statements.Received (receipts.Cancel 9)))
        ≡ codes "6 cancel delay_resp\n" }
    ensures cancel_of_no_kind { line_text (lines.At 6 (statements.Received (receipts.Cancel 10)))
        ≡ codes "6 cancel 10\n" }
    ensures ack { line_text (lines.At 6 (statements.Received (receipts.Ack 0)))
        ≡ codes "6 ack sync\n" }
    ensures fault { line_text (lines.At 2 (statements.Ignored
        (reasons.Fault (faults.Header (headers.Length 55 54)))))
        ≡ codes "2 ignored fault length 55 54\n" }
    ensures unknown { line_text (lines.At 2 (statements.Ignored (reasons.Type 13)))
        ≡ codes "2 ignored type 13\n" }
    ensures other { line_text (lines.At 2 (statements.Ignored (reasons.Other 1)))
        ≡ codes "2 ignored other 1\n" }
    ensures stranger { line_text (lines.At 2 (statements.Ignored reasons.Stranger))
        ≡ codes "2 ignored stranger\n" }
    ensures domain { line_text (lines.At 2 (statements.Ignored (reasons.Domain 5)))
        ≡ codes "2 ignored domain 5\n" }
    ensures target { line_text (lines.At 2 (statements.Ignored reasons.Target))
        ≡ codes "2 ignored target\n" }
    ensures nobody { line_text (lines.At 2 statements.Nobody) ≡ codes "2 nobody\n" }
    ensures selected { line_text (lines.At 9 (statements.Selected 0x0A000111 (Some 0x0A000001)))
        ≡ codes "9 selected 10.0.1.17 10.0.0.1\n" }
    ensures selected_none { line_text (lines.At 4 (statements.Selected 0x0A000111 None))
        ≡ codes "4 selected 10.0.1.17 none\n" }
    ensures bad { line_text (lines.At 2 (statements.Bad (causes.Line (line_causes.Field 5))))
        ≡ codes "2 bad field 5\n" }
    ensures end { line_text (lines.End 9 4) ≡ codes "end 9 4\n" }
{}
