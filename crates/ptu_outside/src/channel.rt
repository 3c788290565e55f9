//! The two UDP channels of PTP: event and general messages (IEEE 1588-2019 annex C).

/// One of the two UDP channels of PTP over IPv4 (IEEE 1588-2019 annex C), each with a port number
/// of its own: event messages go by the first, and general messages by the second.
#[derive(Clone, Copy, Debug, PartialEq, Eq)]
pub enum Channel {
    Event,
    General,
}
