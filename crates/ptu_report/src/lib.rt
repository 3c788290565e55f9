//! The one driver of programs that read lines and write lines, one after the other.
#![tactic(auto)]

mod driver;
mod ending;
mod fault;
mod reporter;
mod running;
mod span;
mod stop;
mod texts;

pub use driver::report;
pub use ending::Ending;
pub use fault::RunFault;
pub use reporter::{Reporter, Stepped};
pub use running::run;
pub use stop::Stop;
pub use texts::Texts;
