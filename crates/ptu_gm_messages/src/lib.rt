//! What a datagram asks of a grandmaster, and the Signaling messages with which it answers and
//! cancels (IEEE 1588-2019 clause 16.1).
#![tactic(auto)]

mod client;
mod heard;
mod item;
pub mod laws;
mod listening;
mod reason;
mod replying;
mod room;

pub use client::client_of;
pub use heard::Heard;
pub use item::{Item, Items};
pub use listening::{asks_of, hear, hear_in};
pub use reason::GmReason;
pub use replying::{cancel_of, write_reply};
pub use room::HearingRoom;
