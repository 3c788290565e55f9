//! A table of leases: it keeps what a grandmaster granted to the clients of one of its four tables,
//! and sends them their timing messages, each in its own period.
#![tactic(auto)]

mod answered;
mod answering;
pub mod laws;
mod lease;
mod messages;
mod queue;
mod queueing;
mod rows;
pub mod samples;
mod sending;
mod shard;
mod sweeping;
mod turning;

pub use answered::{Answered, Turned};
pub use lease::{Lease, Row};
pub use ptu_profile::GmConfig;
pub use shard::Shard;
