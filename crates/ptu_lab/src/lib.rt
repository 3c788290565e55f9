//! A lab for scripts in text: `replay` runs the nodes of a script and reports what they do, `load`
//! makes and replays the script of many clients. `show` decodes datagrams, line by line.
#![tactic(auto)]

mod acting;
mod done;
mod lab;
mod loading;
mod replaying;
mod setting_up;
mod slave_node;
mod slave_statements;
mod stock;

pub use done::Done;
pub use loading::{load, sample_summaries};
pub use ptu_judges::Stock;
pub use ptu_script::Cause;
pub use ptu_show::{LabFault, generate, show};
pub use replaying::replay;
