//! A datagram that waits at a port in memory.

use crate::datagram::Datagram;

/// A datagram that waits to be received.
#[derive(Drop)]
pub struct Arrival {
    /// The sender's IPv4 address, its first octet the highest.
    pub ip: u32,
    /// What it sent.
    pub bytes: Datagram,
}
