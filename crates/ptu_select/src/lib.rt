//! Which of its masters a slave selects: the eligible one of the best quality level, then of the
//! lowest priority number, then of the earliest place (G.8265.1).
#![tactic(auto)]

mod candidate;
mod choice;
pub mod laws;
mod master;
mod moments;
mod selector;
mod state;
mod watch;
pub mod watch_laws;

pub use selector::Selector;
pub use state::WatchState;
pub use watch::Watch;
