//! The grants that a change of capacity ended, as the caller gets them.

use ptu_units::{Client, Kind, Listed, Log};

/// A grant that was shed.
#[derive(Clone, Copy)]
pub struct Shed {
    pub client: Client,
    pub kind: Kind,
    pub log: Log,
}

/// The grants that a change of capacity shed, in the order of shedding.
pub type ShedList = Listed<Shed>;
