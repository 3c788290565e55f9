//! Datagrams in text: `show` decodes datagrams, line by line, `join` joins the halves of Syncs in
//! two steps, and `read_datagram` reads the line of one. `generate` writes the script of a load.
#![tactic(auto)]

mod datagram;
mod decoding;
mod fault;
mod generating;
mod half;
mod halving;
mod join_lines;
mod joining;
mod laws;
mod lines;
mod reading;
mod waiting;

pub use decoding::show;
pub use fault::{JoinFault, LabFault};
pub use generating::{generate, put, sample_loads, whole_loads};
pub use joining::join;
pub use laws::{joining_is_relation, sample_joins, sample_lines, two_steps_are_undone};
pub use ptu_lines::LineCause;
pub use ptu_script::Cause;
pub use reading::read_datagram;
