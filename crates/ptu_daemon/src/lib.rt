//! A grandmaster as a daemon: it takes what waits at its ports, and its tables take turns, in
//! rounds, on one thread or by lanes that work side by side; each Sync goes out whole, or in two
//! steps, as a Sync with twoStepFlag and its Follow_Up (IEEE 1588-2019 clauses 9.5.9 and 9.5.10).
#![tactic(auto)]

mod closing;
mod command_laws;
mod daemon;
mod events;
mod laws;
mod next;
mod obeying;
mod serving;
mod step;
mod two_host;
mod two_step;
mod two_steps;
mod twostep_laws;

pub use command_laws::{
    nothing_is_held_after_a_cancelling_stop, other_keys_ask_nothing, other_ports_command_nothing,
};
pub use laws::{sends_are_lawful, sends_no_half};
pub use ptu_outside::DaemonFault;
pub use serving::{serve, serve_within};
pub use step::Step;
pub use two_host::{Flags, TwoHost};
pub use two_step::TwoStep;
pub use two_steps::serve_in_two_steps;
pub use twostep_laws::{is_whole_where_read, sent_in_pairs};
