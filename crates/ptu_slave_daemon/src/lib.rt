//! A slave over the ports and clocks of a host, on one thread: it takes what waits, ticks once a
//! round, writes a line at each change of its selection, and stops at its end (IEEE 1588-2019
//! clause 16.1; the rounds are this project's own choice).
#![tactic(auto)]

mod daemon;
mod halt;
mod line;
mod opening;
mod rounds;
mod steps;
mod taking;
mod writing;

pub use daemon::slave;
pub use line::SlaveLine;
pub use opening::has_judges;
