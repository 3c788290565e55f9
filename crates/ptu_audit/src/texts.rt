//! How answers and refusals are written.

ghost use Rattle.std.specs.Prelude.{◌≡◌, ◌≤◌, ◌++◌, OnOk, Some, length};
ghost use Rattle.ptu_audit.specs.Texts.{answer_text, cause_text, no_text, refusal_text};

use crate::answer::{Answer, AuditCause};
use ptu_lines::{Draft, LineText, Text};
use ptu_trail::NoCause;
use ptu_units::OutOfMemory;
use std::fmt;

impl AuditCause {
    // The word of a line for it.
    fn word(self) -> &'static str
        ensures word { result.now ≡ cause_text self }
        ensures short { length result.now ≤ 5 }
    {
        match self {
            AuditCause::Size => "size",
            AuditCause::Long => "long",
            AuditCause::Text => "text",
            AuditCause::Form => "form",
            AuditCause::Order => "order",
            AuditCause::End => "end",
        }
    }
}

impl fmt::Display for AuditCause {
    ghost output = { λ cause. Some (cause_text cause) };

    fn fmt<W: fmt::Write>(&self, f: &mut fmt::Formatter<W>) -> fmt::Result {
        f.write_str(self.word())
    }
}

// The word of the answer no for a cause.
fn no_word(cause: NoCause) -> &'static str
    ensures word { result.now ≡ no_text cause }
    ensures short { length result.now ≤ 6 }
{
    match cause {
        NoCause::Reply => "reply",
        NoCause::Shared => "shared",
        NoCause::Stamp => "stamp",
        NoCause::Moment => "moment",
        NoCause::Fit => "fit",
        NoCause::Over => "over",
        NoCause::Grant => "grant",
        NoCause::Early => "early",
    }
}

/// The line that an audit writes for its answer, with the 0A at its end.
impl Text for Answer {
    ghost text = { λ answer. answer_text answer };

    fn put(&self, draft: &mut Draft) -> Result<(), OutOfMemory> {
        let mut line = LineText::new();
        line.put_str("\n");
        match *self {
            Answer::Yes { grants, sent } => {
                line.put_number(sent);
                line.put_str(" sent ");
                line.put_number(grants);
                line.put_str("yes grants ");
            }
            Answer::No {
                line: number,
                cause,
            } => {
                line.put_str(no_word(cause));
                line.put_str(" ");
                line.put_number(number);
                line.put_str("no ");
            }
        }
        draft.put_line(&line)
    }
}

/// The line that names a line of a report as refused, with the 0A at its end.
#[derive(Clone, Copy)]
pub(crate) struct Refusal {
    pub(crate) number: u64,
    pub(crate) cause: AuditCause,
}

impl Text for Refusal {
    ghost text = { λ refusal. refusal_text refusal.number refusal.cause };

    fn put(&self, draft: &mut Draft) -> Result<(), OutOfMemory> {
        let mut line = LineText::new();
        line.put_str("\n");
        line.put_str(self.cause.word());
        line.put_str(" bad ");
        line.put_number(self.number);
        draft.put_line(&line)
    }
}
