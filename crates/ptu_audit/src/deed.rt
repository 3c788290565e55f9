//! What a report says that a grandmaster did.

use ptu_trail::{NoCause, Shedding};
use ptu_units::{Client, Kind, Listed, Log, Stamp};

/// The grants that a change of capacity sheds, in order. A clause sees them as their list.
pub(crate) type Sheddings = Listed<Shedding>;

/// What was done. Moments are in nanoseconds, capacities in sixteenths of a message per second.
#[derive(Drop)]
pub(crate) enum Deed {
    /// A grant to a client.
    Granted {
        at: u64,
        client: Client,
        kind: Kind,
        log: Log,
        until: u64,
    },
    /// The end of a client's grant by a CANCEL, whether or not one was live.
    Ended {
        at: u64,
        client: Client,
        kind: Kind,
    },
    /// A change of capacity, with the grants that it sheds.
    Changed {
        at: u64,
        capacity: u64,
        shed: Sheddings,
    },
    /// A timing message to an address.
    Sent {
        stamp: Stamp,
        ip: u32,
        kind: Kind,
    },
}

/// What a line says that a grandmaster did.
#[derive(Drop)]
pub(crate) struct Act {
    /// The number of the line in the report. The lines of a change's sheddings follow it.
    pub(crate) line: u32,
    /// The grandmaster's address.
    pub(crate) grandmaster: u32,
    pub(crate) deed: Deed,
}

/// What is wrong with a report, and at which line.
#[derive(Clone, Copy)]
pub(crate) struct Finding {
    pub(crate) line: u64,
    pub(crate) cause: NoCause,
}
