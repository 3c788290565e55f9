//! Tables of leases under locks: threads ask, cancel, take turns and answer Delay_Reqs on the
//! tables of one grandmaster, and what they are granted stays within the capacity in force.
//!
//! Each table stands behind a lock of its own, and the book behind a fifth. What is done under them
//! is done by `ptu_shard` and `ptu_admit` on the values that the locks lend. Locks are taken by
//! index of table, and the book's last. Three ledgers tie what stands behind different locks: one
//! of the tables' shares, and two of the verdicts that each seat has counted. Four more, one for
//! each table, tie the turns of a table to the one who may turn it.
#![tactic(auto)]

mod asking;
mod changing;
mod closing;
mod desk;
mod lawful;
mod opening;
mod place;
mod rates;
pub mod samples;
mod seat;
mod shared;
mod table;
mod tally;
mod turning;

pub use closing::CloseFault;
pub use opening::{Blanks, Ledgers, TablePorts, TurnBlanks};
pub use rates::Rates;
pub use seat::Seat;
pub use shared::{Shared, Standing};
pub use tally::{PortTally, Tallies};
pub use turning::{Turner, Turners};
