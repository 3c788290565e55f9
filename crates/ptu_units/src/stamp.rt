//! Timestamps as messages carry them.

/// A timestamp: whole seconds and the nanoseconds after them (IEEE 1588-2019 clause 5.3.3).
#[derive(Clone, Copy, Debug)]
pub struct Stamp {
    /// Seconds from the start of the timescale; 48 bits in a message.
    pub seconds: u64,
    /// Nanoseconds.
    pub nanos: u32,
}
