//! Why a document of settings is refused.

ghost use Rattle.std.specs.Prelude.{◌≡◌};
ghost use Rattle.ptu_config.specs.declared.fault.SettingFault.TheVariants.{OutOfMemory as NoMemory};

use crate::key::Key;
use ptu_units::OutOfMemory;
use thiserror::Error;

/// Why settings are refused: the first of these that applies.
#[derive(Clone, Copy, Debug, PartialEq, Eq, Error)]
pub enum SettingFault {
    /// There are more than 65536 octets.
    #[error("there are more than 65536 octets")]
    Size,
    /// The octets are not UTF-8, or no TOML document.
    #[error("the octets are no TOML document")]
    Text,
    /// The document has a key that is none of the settings.
    #[error("there is an unknown key")]
    Unknown,
    /// The first setting that is required and not there, of another type or out of range.
    #[error("{} is missing, malformed or out of range", .0.name())]
    Bad(Key),
    /// No memory was found.
    #[error("out of memory")]
    OutOfMemory,
}

impl From<OutOfMemory> for SettingFault {
    ghost from_gives = { λ _ fault. fault ≡ NoMemory };

    fn from(_: OutOfMemory) -> SettingFault {
        SettingFault::OutOfMemory
    }
}
