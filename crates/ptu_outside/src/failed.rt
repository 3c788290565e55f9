//! The error of every call to the outside. A count of faults beside it says how many calls failed.

use std::error::Error;
use std::fmt;

/// A call to the outside failed, and its count of faults rose.
#[derive(Clone, Copy, Debug, PartialEq, Eq)]
pub struct Failed;

impl fmt::Display for Failed {
    fn fmt<W: fmt::Write>(&self, f: &mut fmt::Formatter<W>) -> fmt::Result {
        f.write_str("a call to the outside failed")
    }
}

impl Error for Failed {}
