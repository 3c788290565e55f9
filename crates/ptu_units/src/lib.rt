//! What every layer counts in: kinds of message, logarithms of intervals, moments and timestamps.
#![tactic(auto)]

mod client;
mod kind;
mod laws;
mod leases;
mod listed;
mod log;
mod memory;
pub mod message_types;
mod moment;
mod nodes;
mod numbers;
mod reading;
pub mod sizes;
mod stamp;
mod timeouts;
pub mod timescale;
mod writing;

pub use client::{Client, table_of};
pub use kind::Kind;
pub use laws::{sample_numbers, twos_complement, written_is_read};
pub use leases::{Capacity, GrantSeconds};
pub use listed::Listed;
pub use log::{AnnounceLog, Log, period, rate};
pub use memory::OutOfMemory;
pub use moment::Moment;
pub use nodes::{Epoch, Senders};
pub use numbers::{Domain, PortNumber, UdpPortNumber};
pub use reading::{high_nibble, i16_at, i64_at, low_nibble, u16_at, u32_at, u48_at, u64_at};
pub use stamp::Stamp;
pub use timeouts::{ReceiptTimeout, WaitToRestore};
pub use writing::u48_octets;
