//! What the program does with the words of its command line: it runs a program over lines, or a
//! daemon, over any source, sink and host, and answers the status to end with.
#![tactic(auto)]

mod blocks;
mod command;
mod daemons;
mod laws;
mod reading;
mod running;
mod status;
mod words;

pub use blocks::{BLOCK, run_in_blocks};
pub use command::Command;
pub use laws::{matched_words, sample_words};
pub use reading::read_words;
pub use running::run;
pub use status::{
    BAD_LINE, BROKEN_PROMISE, HOST_FAULT, OUT_OF_MEMORY, SINK_FAULT, SOURCE_FAULT, USAGE,
};
pub use words::{texts_of, waits_for_lines};

/// What is printed where the words are refused.
pub const USAGE_TEXT: &str =
    "usage: ptpuni replay | show | load N | serve | slave | join | audit N | pools";
