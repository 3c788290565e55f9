//! What an audit answers: yes, the first finding, or the line of the report that is refused.

use ptu_lines::LineCause;
use ptu_report::RunFault;
use ptu_trail::NoCause;

/// What an audit says of a report of which no line is refused.
#[derive(Clone, Copy, Debug, PartialEq, Eq)]
pub enum Answer {
    /// Its grandmasters kept their promises, with so many grants and timing messages.
    Yes { grants: u64, sent: u64 },
    /// The first line, from 1, at which one of them did not, and how.
    No { line: u64, cause: NoCause },
}

/// Why a line of a report is refused.
#[derive(Clone, Copy, Debug, PartialEq, Eq)]
pub enum AuditCause {
    /// Octet 67108865 of the report is among the first 8193 octets of the line, its 0A counted.
    Size,
    /// The line has more than 8192 octets.
    Long,
    /// An octet of the line is outside 20 to 7E (hexadecimal).
    Text,
    /// The line has no form of a report's lines.
    Form,
    /// The number of the script's line is 0, or lower than that of the line before.
    Order,
    /// The line follows the `end` line; or the report ended without one, and the number is that of
    /// its lines plus 1.
    End,
}

/// Why a report was not audited.
pub type AuditFault = RunFault<AuditCause>;

impl AuditCause {
    ghost use Rattle.std.specs.Prelude.{◌≡◌};
    ghost use Rattle.ptu_audit.specs.Reading.{cause_of_line};

    /// The cause of a line that the reader of lines refuses.
    pub(crate) fn of_line(cause: LineCause) -> AuditCause
        ensures { result ≡ cause_of_line cause }
    {
        match cause {
            LineCause::Size => AuditCause::Size,
            LineCause::Long => AuditCause::Long,
            LineCause::Text => AuditCause::Text,
            LineCause::Word | LineCause::Count | LineCause::Field(_) => AuditCause::Form,
        }
    }
}
