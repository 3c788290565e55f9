//! How the output of a program over lines ends: whole, or at a refused line.

/// How the output of a program over lines ends.
#[derive(Clone, Copy, Debug, PartialEq, Eq)]
pub enum Ending<C> {
    /// The input was read to its end, after so many lines.
    Whole { lines: u64 },
    /// The line with this number, from 1, was refused; the last line of the output names it.
    Refused { number: u64, cause: C },
}
