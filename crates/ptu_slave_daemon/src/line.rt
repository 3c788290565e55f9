//! The lines that a slave's daemon writes: each change of its selection, and the closing line.

ghost use Rattle.std.specs.Prelude.{Some};
ghost use Rattle.ptu_slave_daemon.specs.Lines.{slave_line_text, master_text};

use ptu_lines::AddressText;
use std::fmt;

// The address of the master that is selected, or the word `none`.
#[derive(Clone, Copy)]
struct MasterText(Option<u32>);

impl fmt::Display for MasterText {
    ghost output = { λ m. Some (master_text m.0) };

    fn fmt<W: fmt::Write>(&self, f: &mut fmt::Formatter<W>) -> fmt::Result {
        match self.0 {
            Some(master) => {
                let master = AddressText(master);
                write!(f, "{master}")
            }
            None => f.write_str("none"),
        }
    }
}

/// A line of the output of a slave's daemon.
#[derive(Clone, Copy)]
pub enum SlaveLine {
    /// After this round the master at this IPv4 address is selected, or none, and the line before
    /// did not say so.
    Selected {
        round: u64,
        master: Option<u32>,
    },
    /// The last line: how many rounds there were, how many datagrams were sent, and how many sends
    /// and receives failed.
    Closing {
        rounds: u64,
        sent: u128,
        failed: u128,
    },
}

impl fmt::Display for SlaveLine {
    ghost output = { λ l. Some (slave_line_text l) };

    fn fmt<W: fmt::Write>(&self, f: &mut fmt::Formatter<W>) -> fmt::Result {
        match *self {
            SlaveLine::Selected { round, master } => {
                let master = MasterText(master);
                write!(f, "round {round} selected {master}\n")
            }
            SlaveLine::Closing {
                rounds,
                sent,
                failed,
            } => write!(f, "rounds {rounds} sent {sent} failed {failed}\n"),
        }
    }
}
