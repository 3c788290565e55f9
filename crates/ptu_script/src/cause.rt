//! Why a line of a script is refused, with the words that a report uses.

ghost use Rattle.std.specs.Prelude.{◌≡◌, ◌≤◌, ◌+◌, ◌++◌, Some};
ghost use Rattle.ptu_script.specs.Cause.{cause_text, cause_of_line};

use ptu_lines::{LineCause, LinePart, LineText};
use std::error::Error;
use std::fmt;

/// Why a line of a script is refused.
#[derive(Clone, Copy, Debug, PartialEq, Eq)]
pub enum Cause {
    /// The line cannot be read as a command, for this cause.
    Line(LineCause),
    /// A node is set up, or given a master, after an event.
    Order,
    /// A node that is named is not there, is of the other kind, or is there already.
    Node,
    /// The slave has as many masters as a slave may have.
    Full,
    /// No datagram with this number was sent.
    Number,
    /// No judge of this rule is left.
    Stock,
}

impl LinePart for Cause {
    ghost text = { cause_text };

    ghost most = { λ _. 9 };

    fn put(self, line: &mut LineText) {
        match self {
            Cause::Line(cause) => cause.put(line),
            Cause::Order => line.put_str("order"),
            Cause::Node => line.put_str("node"),
            Cause::Full => line.put_str("full"),
            Cause::Number => line.put_str("number"),
            Cause::Stock => line.put_str("stock"),
        }
    }
}

impl fmt::Display for Cause {
    ghost output = { λ cause. Some (cause_text cause) };

    fn fmt<W: fmt::Write>(&self, f: &mut fmt::Formatter<W>) -> fmt::Result {
        match self {
            Cause::Line(cause) => cause.fmt(f),
            Cause::Order => f.write_str("order"),
            Cause::Node => f.write_str("node"),
            Cause::Full => f.write_str("full"),
            Cause::Number => f.write_str("number"),
            Cause::Stock => f.write_str("stock"),
        }
    }
}

impl Error for Cause {}

impl From<LineCause> for Cause {
    ghost from_gives = { λ line cause. cause ≡ cause_of_line line };

    fn from(cause: LineCause) -> Cause {
        Cause::Line(cause)
    }
}
