//! The flags of the flagField, its first octet the higher (IEEE 1588-2019 table 37).

/// The unicastFlag.
pub const UNICAST: u16 = 0x0400;

/// The twoStepFlag.
pub const TWO_STEP: u16 = 0x0200;
