//! The lines of a report about messages that a slave accepted.

ghost use Rattle.std.specs.{Prelude.{◌≡◌, ◌≤◌, ◌+◌, ◌++◌, ◌∷◌, [], codes}, Fmt.{decimal}};
ghost use Rattle.ptu_lines.specs.Texts.{address_text};
ghost use Rattle.ptu_report_lines.specs.Statements.{hearing_text, words_text};

use crate::words::{Word, put_words};
use ptu_lines::{LinePart, LineText};
use ptu_units::Moment;

/// What a slave heard of a master, which is named by its address.
#[derive(Clone, Copy)]
pub enum Hearing {
    /// An Announce with this clockClass.
    Announce { master: u32, class: u8, at: Moment },
    /// A Sync with this sequenceId.
    Sync { master: u32, seq: u16, at: Moment },
    /// A Follow_Up.
    FollowUp { master: u32, at: Moment },
    /// A Delay_Resp with this sequenceId.
    DelayResp { master: u32, seq: u16, at: Moment },
}

impl LinePart for Hearing {
    ghost text = { hearing_text };

    ghost most = { λ _. 80 };

    fn put(self, line: &mut LineText) {
        match self {
            Hearing::Announce { master, class, at } => put_words(
                &[
                    Word::Name("announce"),
                    Word::Address(master),
                    Word::Name("class"),
                    Word::Number(u64::from(class)),
                    Word::Name("at"),
                    Word::Number(at.nanos()),
                ],
                line,
            ),
            Hearing::Sync { master, seq, at } => {
                put_numbered(master, seq, at, line);
                line.put_str("sync ");
            }
            Hearing::FollowUp { master, at } => put_words(
                &[
                    Word::Name("follow_up"),
                    Word::Address(master),
                    Word::Name("at"),
                    Word::Number(at.nanos()),
                ],
                line,
            ),
            Hearing::DelayResp { master, seq, at } => {
                put_numbered(master, seq, at, line);
                line.put_str("delay_resp ");
            }
        }
    }
}

// Puts what was heard of a master with this sequenceId, piece by piece, since there are many.
fn put_numbered(master: u32, seq: u16, at: Moment, line: &mut LineText)
    requires { 69 ≤ line.old.room }
    ensures text { line.new.text ≡ words_text (address_text master ∷ codes "seq" ∷ decimal seq
        ∷ codes "at" ∷ decimal at ∷ []) ++ line.old.text }
    ensures room { line.old.room ≤ line.new.room + 69 }
{
    line.put_number(at.nanos());
    line.put_str(" at ");
    line.put_number(u64::from(seq));
    line.put_str(" seq ");
    Word::Address(master).put(line);
}
