//! The commands of an operator.

use ptu_units::Capacity;

/// What an operator tells a running grandmaster.
#[derive(Clone, Copy, Debug, PartialEq, Eq)]
pub enum Command {
    /// Its Announces have this clockClass from now on.
    Class(u8),
    /// Its capacity is this from now on.
    Capacity(Capacity),
    /// It says how it stands.
    Status,
    /// This round is its last.
    Stop {
        /// Whether each live grant is ended by a CANCEL first.
        cancels: bool,
    },
}

/// Why a line is no command.
#[derive(Clone, Copy, Debug, PartialEq, Eq)]
pub enum Cause {
    /// It names no command, or has too few or too many words.
    Words,
    /// The class is no number from 0 to 255.
    Class,
    /// The capacity is no number from 1 to 16777216.
    Capacity,
}
