//! The report in the making: the texts of the current line, every datagram sent so far, and counts
//! of granted and refused requests.

ghost use Rattle.std.specs.Prelude.{◌≡◌, ◌∷◌, [], cond, OnOk};
ghost use Rattle.ptu_world.specs.Report.{is_granted, is_short};
ghost use Rattle.ptu_nodes.specs.Noted.{counted_on, nothing_noted, with_handed, with_said, with_sent};

use ptu_outside::MemPort;
use ptu_report::Texts;
use ptu_report_lines::{Decision, ReportLine, SentLine, SentList, SentRef, Statement};
use ptu_units::OutOfMemory;
use std::alloc::Global;
use std::marker::Model;

/// The report on a script in the making: the number of the script's line, the texts of that line,
/// the datagrams that were sent so far, in order, and of how many asks it was said so far that they
/// were granted, and that they were short, up to 2^64 - 1 of each.
#[derive(Drop)]
pub struct Journal {
    alloc: Global,
    line: u64,
    texts: Texts,
    sent: SentList,
    granted: u64,
    short: u64,
}

impl Model for Journal {
    ghost use Rattle.ptu_nodes.specs.Noted.{Noted};

    ghost Value = { Noted };

    ghost view = { λ j. record {
      line = j.line;
      texts = j.texts;
      sent = j.sent;
      granted = j.granted;
      short = j.short;
    } };
}

impl Journal {
    /// Before the first line of a script.
    pub fn new(alloc: Global) -> Journal
        ensures { result ≡ nothing_noted }
    {
        Journal {
            alloc,
            line: 0,
            texts: Texts::new(alloc),
            sent: SentList::new(alloc),
            granted: 0,
            short: 0,
        }
    }

    /// Goes on to the script's line of this number, of which nothing is said yet.
    pub fn begin(&mut self, line: u64)
        ensures { self.new ≡ record self.old { line = line; texts = [] } }
    {
        self.line = line;
        self.texts.clear();
    }

    /// Appends this statement to the report of the current line, and counts grants and refusals.
    ///
    /// # Errors
    /// `OutOfMemory`. Nothing is said of the journal then: the run ends.
    pub fn say(&mut self, statement: Statement) -> Result<(), OutOfMemory>
        ensures { OnOk result (self.new ≡ with_said (statement ∷ []) self.old) }
    {
        let granted = counted(self.granted, says_granted(&statement));
        let short = counted(self.short, says_short(&statement));
        self.texts.add_text(&ReportLine::At {
            number: self.line,
            statement,
        })?;
        self.granted = granted;
        self.short = short;
        Ok(())
    }

    /// Adds the datagrams that the node at this address has handed to its port, and says of each
    /// that it was sent, with its number; then the port is cleared.
    ///
    /// # Errors
    /// `OutOfMemory`. Nothing is said of the journal then: the run ends.
    #[inline(always)]
    #[tactic(auto, using(crate::proofs::HandedOver::nothing, crate::proofs::HandedOver::cleared))]
    pub fn hand_over(&mut self, port: &mut MemPort, ip: u32) -> Result<(), OutOfMemory>
        ensures noted { OnOk result (self.new ≡ with_handed ip port.old.sent self.old) }
        ensures cleared { OnOk result (port.new ≡ record port.old { sent = [] }) }
    {
        // In most ports nothing stands.
        if port.sent(0).is_none() {
            return Ok(());
        }
        self.hand_over_each(port, ip)
    }

    // The same, datagram by datagram.
    #[inline(always)]
    fn hand_over_each(&mut self, port: &mut MemPort, ip: u32) -> Result<(), OutOfMemory>
        ensures noted { OnOk result (self.new ≡ with_handed ip port.old.sent self.old) }
        ensures cleared { OnOk result (port.new ≡ record port.old { sent = [] }) }
    {
        let before = self.sent.count();
        'datagrams: while let Some((to, channel, octets)) = port.sent(self.sent.count() - before) {
            self.add_sent(SentRef::new(ip, to, channel, octets))?;
        }
        port.clear();
        Ok(())
    }

    // Adds a datagram, and says that it was sent, with its number.
    #[inline(always)]
    fn add_sent(&mut self, sent: SentRef<'_>) -> Result<(), OutOfMemory>
        ensures { OnOk result (self.new ≡ with_sent (sent.entry ∷ []) self.old) }
    {
        let text = SentLine {
            number: self.line,
            datagram: self.sent.count() as u64 + 1,
            sent,
        };
        self.texts.add_text(&text)?;
        self.sent.add(&text.sent)
    }

    /// Exchanges the texts of the line with these.
    pub fn swap_texts(&mut self, texts: &mut Texts)
        ensures given { texts.new ≡ self.old.texts }
        ensures rest { self.new ≡ record self.old { texts = texts.old } }
    {
        self.texts.swap_with(texts);
    }

    /// The datagrams that were sent so far, in order.
    pub fn sent(&self) -> &SentList
        ensures { result.now ≡ self.now.sent }
    {
        &self.sent
    }

    /// Of how many asks it was said so far that they were granted.
    pub fn granted(&self) -> u64
        ensures { result ≡ self.now.granted }
    {
        self.granted
    }

    /// Of how many asks it was said so far that they were short.
    pub fn short(&self) -> u64
        ensures { result ≡ self.now.short }
    {
        self.short
    }

    /// Where its memory is from.
    pub fn alloc(&self) -> Global {
        self.alloc
    }
}

// Whether it says that an ask was granted.
fn says_granted(statement: &Statement) -> bool
    ensures { result ≡ is_granted statement.now }
{
    matches!(statement, Statement::Decided(Decision::Granted { .. }))
}

// Whether it says that an ask was short.
fn says_short(statement: &Statement) -> bool
    ensures { result ≡ is_short statement.now }
{
    matches!(statement, Statement::Decided(Decision::Short { .. }))
}

// The count with one more, where there is one more.
fn counted(so_far: u64, is_one: bool) -> u64
    ensures { result ≡ counted_on so_far (cond is_one 1 0) }
{
    so_far.saturating_add(u64::from(is_one))
}
