//! Why a line of a script of pools is refused, with the words that the output uses.

ghost use Rattle.std.specs.Prelude.{◌≡◌, ◌≤◌, ◌+◌, ◌++◌, Some};
ghost use Rattle.ptu_pool_run.specs.Cause.{pool_cause_of_line, pool_cause_text};

use ptu_lines::{LineCause, LinePart, LineText};
use std::error::Error;
use std::fmt;

/// Why a line of a script of pools is refused (the project's own choice).
#[derive(Clone, Copy, Debug, PartialEq, Eq)]
pub enum PoolCause {
    /// The line cannot be read as a command, for this cause.
    Line(LineCause),
    /// The grandmaster is not set up before all, or is set up twice; a pool comes after an event,
    /// or an event before any pool.
    Order,
    /// The pool's first address has a bit set after those that count.
    Net,
    /// There are as many pools as there may be.
    Full,
    /// Some address is in an earlier pool, too.
    Overlap,
    /// The capacities sum above that of the grandmaster.
    Over,
    /// No pool has this number.
    Number,
}

impl LinePart for PoolCause {
    ghost text = { pool_cause_text };

    ghost most = { λ _. 9 };

    fn put(self, line: &mut LineText) {
        match self {
            PoolCause::Line(cause) => cause.put(line),
            PoolCause::Order => line.put_str("order"),
            PoolCause::Net => line.put_str("net"),
            PoolCause::Full => line.put_str("full"),
            PoolCause::Overlap => line.put_str("overlap"),
            PoolCause::Over => line.put_str("over"),
            PoolCause::Number => line.put_str("number"),
        }
    }
}

impl fmt::Display for PoolCause {
    ghost output = { λ cause. Some (pool_cause_text cause) };

    fn fmt<W: fmt::Write>(&self, f: &mut fmt::Formatter<W>) -> fmt::Result {
        match self {
            PoolCause::Line(cause) => cause.fmt(f),
            PoolCause::Order => f.write_str("order"),
            PoolCause::Net => f.write_str("net"),
            PoolCause::Full => f.write_str("full"),
            PoolCause::Overlap => f.write_str("overlap"),
            PoolCause::Over => f.write_str("over"),
            PoolCause::Number => f.write_str("number"),
        }
    }
}

impl Error for PoolCause {}

impl From<LineCause> for PoolCause {
    ghost from_gives = { λ line cause. cause ≡ pool_cause_of_line line };

    fn from(cause: LineCause) -> PoolCause {
        PoolCause::Line(cause)
    }
}
