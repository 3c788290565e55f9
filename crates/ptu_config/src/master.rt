//! The masters that the settings of a slave name.

use ptu_units::Listed;

/// A master of a slave, as its settings name it.
#[derive(Clone, Copy, Debug, PartialEq, Eq)]
pub struct MasterSetting {
    /// The IPv4 address, its first number the highest octet.
    pub ip: u32,
    /// The priority: the lower number is chosen among masters of one quality level.
    pub priority: u8,
    /// Whether the master is judged by the gaps between its Syncs, and not by a flag alone.
    pub gap: bool,
}

/// The masters of a slave, in their order. A clause sees them as a list.
pub type MasterList = Listed<MasterSetting>;
