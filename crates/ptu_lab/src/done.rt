//! The numbers with which a replay ends.

/// What a replay came to, where no line was refused.
#[derive(Clone, Copy, Debug, PartialEq, Eq)]
pub struct Done {
    /// The lines of the script.
    pub lines: u64,
    /// The datagrams that were sent.
    pub datagrams: u64,
    /// Of how many asks the report says that they were granted.
    pub granted: u64,
    /// Of how many asks the report says that they were short.
    pub refused: u64,
}
