//! The address and the UDP port numbers at which a host opens its ports.

/// Where a node is opened: its IPv4 address (the first octet the highest), and its UDP port numbers
/// of the event and of the general channel (IEEE 1588-2019 annex C).
#[derive(Clone, Copy, Debug, PartialEq, Eq)]
pub struct Endpoint {
    pub ip: u32,
    pub event_port: u16,
    pub general_port: u16,
}
