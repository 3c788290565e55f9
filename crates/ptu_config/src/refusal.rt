//! The one line of output that refuses settings, such as `settings bad capacity`.

ghost use Rattle.std.specs.Prelude.{Some};
ghost use Rattle.ptu_config.specs.Refusals.{setting_refusal_text};

use crate::key::Key;
use std::fmt;

/// The line of output that refuses settings. Its text has the 0A at its end.
#[derive(Clone, Copy, Debug, PartialEq, Eq)]
pub enum RefusalLine {
    /// There are more than 65536 octets.
    Size,
    /// The octets are not UTF-8, or no TOML document.
    Text,
    /// The document has a key that is none of the settings.
    Unknown,
    /// The first setting that is required and not there, of another type or out of range, or the
    /// masters, where there are too few judges for them.
    Bad(Key),
}

impl fmt::Display for RefusalLine {
    ghost output = { λ line. Some (setting_refusal_text line) };

    fn fmt<W: fmt::Write>(&self, f: &mut fmt::Formatter<W>) -> fmt::Result {
        match self {
            RefusalLine::Size => f.write_str("settings size\n"),
            RefusalLine::Text => f.write_str("settings text\n"),
            RefusalLine::Unknown => f.write_str("settings unknown\n"),
            RefusalLine::Bad(key) => {
                f.write_str("settings bad ")?;
                f.write_str(key.name())?;
                f.write_str("\n")
            }
        }
    }
}
