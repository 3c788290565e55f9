//! Why a program over lines stopped before the end of its input. It is one type for all such
//! programs.

use std::error::Error;
use std::fmt;

/// Why a program over lines did not read its input to the end.
#[derive(Clone, Copy, Debug, PartialEq, Eq)]
pub enum RunFault<C> {
    /// The line with this number, from 1, is refused; the last line of the output names it.
    Line { number: u64, cause: C },
    /// The source failed.
    Read,
    /// The sink failed.
    Write,
    OutOfMemory,
}

impl<C: fmt::Display> fmt::Display for RunFault<C> {
    fn fmt<W: fmt::Write>(&self, f: &mut fmt::Formatter<W>) -> fmt::Result {
        match self {
            RunFault::Line { number, cause } => write!(f, "line {number} is refused: {cause}"),
            RunFault::Read => f.write_str("the source failed"),
            RunFault::Write => f.write_str("the sink failed"),
            RunFault::OutOfMemory => f.write_str("no memory was found"),
        }
    }
}

impl<C: fmt::Debug + fmt::Display + Drop> Error for RunFault<C> {}
