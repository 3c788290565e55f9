//! Lines that are not read back, each for one range of the law that it is out of. Each clause is
//! one line; the bodies are empty.

ghost use Rattle.std.specs.Prelude.{◌^◌, [], Some, pos, negsuc};
ghost use Rattle.ptu_units.specs.declared.kind.Kind.TheVariants as kinds;
ghost use Rattle.ptu_messages.specs.declared.fault.MessageFault.TheVariants as faults;
ghost use Rattle.ptu_outside.specs.declared.channel.Channel.TheVariants as channels;
ghost use Rattle.ptu_report_lines.specs.declared.decision.Decision.TheVariants as decisions;
ghost use Rattle.ptu_report_lines.specs.declared.reason.Reason.TheVariants as reasons;
ghost use Rattle.ptu_report_lines.specs.declared.report_line.ReportLine.TheVariants as lines;
ghost use Rattle.ptu_report_lines.specs.declared.statement.Statement.TheVariants as statements;
ghost use Rattle.ptu_read_back.specs.ReadBack.{IsLost};

/// A number of 20 digits, an address of more than 32 bits, an empty datagram, which is written as
/// no word, a portNumber of more than 16 bits, a logarithm outside the range of its kind, one in
/// the range where a fault of it is told, and want of memory.
pub fn lines_out_of_range()
    ensures number { IsLost (lines.At (10 ^ 19) statements.Nobody) }
    ensures address { IsLost (lines.At 4 (statements.Selected (2 ^ 32) (Some 0x0A000001))) }
    ensures no_octets { IsLost (lines.At 7 (statements.Sent 3
        (record { from = 0x0A000001; to = 0x0A000111; channel = channels.Event; octets = [] }))) }
    ensures port { IsLost (lines.At 4 (statements.Shed kinds.Sync (pos 0)
        (record { ip = 0x0A000112; clock = 0x0A00000000000012; port = 65536 }))) }
    ensures log { IsLost (lines.At 2 (statements.Decided
        (decisions.Granted kinds.Announce (negsuc 3) 0 300))) }
    ensures log_within { IsLost (lines.At 2 (statements.Decided
        (decisions.OutsideLog kinds.Announce (negsuc 2)))) }
    ensures memory { IsLost (lines.At 2 (statements.Ignored
        (reasons.Fault faults.OutOfMemory))) }
    ensures end { IsLost (lines.End (10 ^ 19) 0) }
{}
