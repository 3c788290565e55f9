//! What an audit may find wrong with a record of a grandmaster.

use ptu_units::{Client, Kind};

/// What is wrong with a report. A trail answers all of them but `Reply`.
#[derive(Clone, Copy, Debug, PartialEq, Eq)]
pub enum NoCause {
    /// A group of lines is not answered as it must be.
    Reply,
    /// An earlier decision at the client's address is for another identity.
    Shared,
    /// Nanoseconds from 10^9 on, or a moment from 2^62 on.
    Stamp,
    /// A decision or change before an earlier one, a decision before an earlier message to its
    /// client, or a message before the last decision on its client.
    Moment,
    /// A grant whose rate and those of the other live grants sum above the capacity in force.
    Fit,
    /// After a change of capacity and its sheddings the live rates sum above the new capacity.
    Over,
    /// A message without a live grant (IEEE 1588-2019 clause 16.1.4).
    Grant,
    /// A message before its own period.
    Early,
}

/// The first fault of some records.
#[derive(Clone, Copy, Debug, PartialEq, Eq)]
pub struct Fault {
    /// The place among these records, from 0, of the one that has it.
    pub place: usize,
    pub cause: NoCause,
}

/// A grant that a change of capacity sheds.
#[derive(Clone, Copy)]
pub struct Shedding {
    pub client: Client,
    pub kind: Kind,
}
