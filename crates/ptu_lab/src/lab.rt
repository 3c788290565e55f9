//! The lab: all nodes of a script, the report in the making, and the judges that are left.

ghost use Rattle.std.specs.Prelude.{◌≡◌, [], map, IfOk};
ghost use Rattle.ptu_judges.specs.Held.{IsStock};
ghost use Rattle.ptu_report.specs.Rules.{IsOutcome};
ghost use Rattle.ptu_script.specs.Limits.{IsCommandInRange};
ghost use Rattle.ptu_world.specs.{World.{step}, Report.{Course, course_opening, outcome_by}};
ghost use Rattle.ptu_lab.specs.{Standing.{HasObeyed, LabStandsFor}, Steps.{stock_of}};

use crate::slave_node::SlaveNode;
use crate::stock::Reserve;
use ptu_judges::Stock;
use ptu_nodes::{GrandmasterNode, Journal};
use ptu_report::{Stepped, Texts};
use ptu_script::{Cause, Command};
use std::alloc::Global;
use std::collections::HashMap;

/// A node of a script.
#[derive(Drop)]
pub enum Node {
    Grandmaster(GrandmasterNode),
    Slave(SlaveNode),
}

/// The nodes of a script by their IPv4 addresses, what is reported of them, and the judges that are
/// left.
#[derive(Drop)]
pub struct Lab {
    pub nodes: HashMap<u32, Node>,
    /// What they sent, and what is said of a line.
    pub journal: Journal,
    /// The judges that are left.
    pub stock: Reserve,
    /// Whether there was an event.
    pub has_begun: bool,
}

impl Lab {
    /// The lab before the first line of a script: no node stands in it.
    pub fn new(alloc: Global, stock: Stock) -> Lab
        requires { IsStock (map held stock.flags.items)
            (map held stock.gaps.items) }
        ensures opening { LabStandsFor held result (course_opening
            (stock_of stock.flags.items stock.gaps.items)) }
    {
        Lab {
            nodes: HashMap::new(alloc),
            journal: Journal::new(alloc),
            stock: Reserve {
                flags: stock.flags,
                gaps: stock.gaps,
            },
            has_begun: false,
        }
    }

    /// Does what the script's line of this number commands: the texts are then what is said of it;
    /// or answers why it is refused. The room is for a copy of a datagram that was sent.
    ///
    /// # Errors
    /// `OutOfMemory`. Nothing is said of the lab then: the run ends.
    #[inline(always)]
    pub fn step(
        &mut self,
        command: Command<'_>,
        line: u64,
        room: &mut Vec<u8>,
        texts: &mut Texts,
    ) -> Stepped<Cause>
        requires means { (c : Course) × LabStandsFor held self.old c }
        requires limits { IsCommandInRange command }
        ensures { IfOk result (λ refused. (c : Course) →
            LabStandsFor held self.old c →
            IsOutcome (outcome_by c line (step c.world command.entry))
            (λ after. LabStandsFor held self.new after) texts.new refused) }
    {
        self.journal.begin(line);
        let refused = self.obey(command, room)?;
        self.journal.swap_texts(texts);
        Ok(refused)
    }

    // Does what is commanded at the line that the journal has begun.
    #[inline(always)]
    fn obey(&mut self, command: Command<'_>, room: &mut Vec<u8>) -> Stepped<Cause>
        requires means { (c : Course) × LabStandsFor held self.old c }
        requires limits { IsCommandInRange command }
        requires empty { self.old.journal.texts ≡ [] }
        ensures { IfOk result (HasObeyed held self.old self.new
            self.old.journal.line self.new.journal.texts command.entry) }
    {
        match command {
            Command::Grandmaster(setup) => self.set_up_grandmaster(&setup),
            Command::Slave(setup) => self.set_up_slave(&setup),
            Command::Master {
                slave,
                ip,
                priority,
                rule,
            } => self.add_master(slave, ip, priority, rule),
            Command::Deliver { at, number } => self.deliver(at, number, room),
            Command::Event { at, node, act } => self.act(at, node, act),
        }
    }
}
