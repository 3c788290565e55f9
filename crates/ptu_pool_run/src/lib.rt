//! The program `pools`: a script of one grandmaster whose capacity is sold to several customers,
//! and what each customer's pool is sent.
#![tactic(auto)]

mod cause;
mod command;
mod events;
pub mod examples;
mod fault;
mod judging;
pub mod laws;
mod making;
mod output;
mod pool;
mod pool_set;
mod pools_fault;
mod pouring;
mod reading;
mod room;
mod running;
mod selling;
mod verb;

pub use cause::PoolCause;
pub use command::PoolCommand;
pub use fault::PoolRunFault;
pub use output::PoolLine;
pub use pool::Pool;
pub use pool_set::{PoolTaken, Pools};
pub use pools_fault::PoolsFault;
pub use reading::read_pool_command;
pub use running::pools;
pub use verb::PoolVerb;
