//! A grandmaster: a datagram in, decisions and datagrams out. It keeps four tables of leases, one
//! book, and the port of its Signaling messages.
#![tactic(auto)]

mod closing;
mod deciding;
mod driving;
pub mod examples;
mod gm;
mod outcome;
mod replying;
mod resizing;
mod status;
mod taking;
mod turning;

pub use driving::{Driven, GmEvent, drive};
pub use gm::{Gm, SIGNALING_PORT};
pub use outcome::{Outcome, Outcomes, Taken};
pub use ptu_gm_messages::{GmReason, Item, Items, asks_of, cancel_of};
pub use ptu_outside::Reply;
pub use replying::reply_of;
pub use resizing::{Changed, send_cancels, sequence_after};
pub use status::GmStatus;
