//! Calls of a socket that are made again: where they were interrupted, where a datagram is left
//! out, and where there is no room yet for one that is sent.

ghost use Rattle.std.specs.Prelude.{◌≤◌, IfOk, IfSome};

use crate::socket::Socket;
use ptu_outside::Failed;
use ptu_units::sizes::LONGEST_DATAGRAM;
use std::io::ErrorKind;
use std::net::SocketAddr;
use std::time::{Clock, Duration, Instant};
use std::{io, thread};

/// The octets that a receive has room for: one more than the longest datagram, so that the system
/// tells of a longer one.
const BUFFER: usize = LONGEST_DATAGRAM + 1;

/// How many datagrams that are longer a call leaves out before it fails.
const MOST_LEFT_OUT: u32 = 64;

/// For how many milliseconds in all a send waits where the system has no room for the datagram.
const LONGEST_WAIT: u64 = 50;

/// For how many microseconds it rests before it looks for room again.
const LOOK: u64 = 100;

// The next datagram, or its front where it is longer than `buf`: its length there, and the sender.
// A receive that was interrupted is tried again.
fn take_next<S: Socket>(socket: &mut S, buf: &mut [u8; BUFFER]) -> io::Result<(usize, SocketAddr)>
    ensures within { IfOk result (λ got. got.0 ≤ 2049) }
{
    for _ in 0..u64::MAX {
        match socket.recv_from(buf) {
            Err(error) if error.kind() == ErrorKind::Interrupted => {}
            other => return other,
        }
    }
    Err(ErrorKind::Interrupted.into())
}

/// The next datagram of at most 2048 octets: its sender and its length. Longer ones are left out,
/// up to 64 of them. `None` where nothing waits.
///
/// # Errors
/// Where the socket failed, or 64 datagrams were left out.
pub(crate) fn take_whole<S: Socket>(
    socket: &mut S,
    buf: &mut [u8; LONGEST_DATAGRAM],
) -> Result<Option<(u32, usize)>, Failed>
    ensures within { IfOk result (λ taken. IfSome taken (λ got. got.1 ≤ 2048)) }
{
    let mut taken = [0; BUFFER];
    for _ in 0..MOST_LEFT_OUT {
        match take_next(socket, &mut taken) {
            Ok((length, SocketAddr::V4(from))) => {
                if length <= LONGEST_DATAGRAM {
                    buf[..length].copy_from_slice(&taken[..length]);
                    return Ok(Some((from.ip().to_bits(), length)));
                }
            }
            Err(error) if error.kind() == ErrorKind::WouldBlock => return Ok(None),
            Ok(_) | Err(_) => break,
        }
    }
    Err(Failed)
}

// Rests a little before the next look for room, unless the wait, which began at the moment if it
// has begun, is over.
fn rests_for_room<R: Clock>(runtime: &R, began: &mut Option<Instant>) -> io::Result<bool> {
    let start = match *began {
        Some(start) => start,
        None => Instant::now(runtime)?,
    };
    *began = Some(start);
    let is_over = Duration::from_millis(LONGEST_WAIT) <= start.elapsed(runtime)?;
    if !is_over {
        thread::sleep(runtime, Duration::from_micros(LOOK));
    }
    Ok(!is_over)
}

/// Sends the datagram, and says how many octets of it went. A send that was interrupted is tried
/// again, and so is one for which the system has no room yet, for 50 ms in all.
///
/// # Errors
/// Where the socket failed, the clock did, or there was no room in that time.
pub(crate) fn send_patiently<R: Clock, S: Socket>(
    runtime: &R,
    socket: &mut S,
    bytes: &[u8],
    to: SocketAddr,
) -> io::Result<usize> {
    let mut began: Option<Instant> = None;
    for _ in 0..u64::MAX {
        match socket.send_to(bytes, to) {
            Err(error) if error.kind() == ErrorKind::Interrupted => {}
            Err(error) if error.kind() == ErrorKind::WouldBlock => {
                if !rests_for_room(runtime, &mut began)? {
                    return Err(error);
                }
            }
            other => return other,
        }
    }
    Err(ErrorKind::Interrupted.into())
}
