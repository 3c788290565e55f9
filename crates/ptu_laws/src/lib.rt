//! What holds of every history of a grandmaster: held rates stay within the capacity in force, each
//! message stands inside a live grant and pays its own period, and all messages stay within the
//! budget.
#![tactic(auto)]

pub mod examples;
pub mod laws;
mod link;

pub use link::most_messages;
