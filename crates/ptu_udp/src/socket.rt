//! What a port wants of a UDP socket, and the system's socket as one.

ghost use Rattle.std.specs.Prelude.{◌≤◌, length, IfOk};

use std::io;
use std::net::{SocketAddr, UdpSocket};

/// A UDP socket, as a port uses it: the system's, or one in memory.
pub trait Socket: Drop {
    /// Sends the octets as one datagram, and says how many of them went.
    ///
    /// # Errors
    /// `WouldBlock` where the system has no room for it, `Interrupted` where the call is to be made
    /// again, and any other of the system's.
    fn send_to(&mut self, bytes: &[u8], to: SocketAddr) -> io::Result<usize>;

    /// Takes the next datagram, or the front of it that fits: its length there, and the sender.
    ///
    /// # Errors
    /// `WouldBlock` where none waits, `Interrupted` where the call is to be made again, and any
    /// other of the system's.
    fn recv_from(&mut self, buf: &mut [u8]) -> io::Result<(usize, SocketAddr)>
        ensures within { IfOk result (λ got. got.0 ≤ length buf.new) };
}

impl Socket for UdpSocket {
    fn send_to(&mut self, bytes: &[u8], to: SocketAddr) -> io::Result<usize> {
        UdpSocket::send_to(self, bytes, to)
    }

    fn recv_from(&mut self, buf: &mut [u8]) -> io::Result<(usize, SocketAddr)> {
        UdpSocket::recv_from(self, buf)
    }
}
