//! Decisions on the items of a Signaling.

ghost use Rattle.std.specs.Prelude.{◌≡◌, ◌≤◌, ◌<◌, ℕ, List, [], map, length, IfSome, IfNone, OnOk, vec_capacity, vec_len};
ghost use Rattle.ptu_history.specs.History.{Record};
ghost use Rattle.ptu_grandmaster.specs.Deciding.{AllCome, Comes, Decides, EndsBy, Lowers, Spends, counting, spare_of};
ghost use Rattle.ptu_grandmaster.specs.Gm.{HasKeptPorts, IsUnchanged, StandsFor};
ghost use Rattle.ptu_grandmaster.specs.Outcomes.{decision_seen, decisions_seen, item_seen};

use crate::gm::Gm;
use crate::outcome::{Outcome, Outcomes};
use ptu_admit::{Cancelled, Verdict, cancel, decide_all, decide_one};
use ptu_gm_messages::Item;
use ptu_messages::Ask;
use ptu_outside::Port;
use ptu_units::{Client, Kind, Moment, OutOfMemory, table_of};

impl<P: Port> Gm<P> {
    // Makes room for so many rows more in the client's table.
    pub(crate) fn reserve(&mut self, client: &Client, count: usize) -> Result<(), OutOfMemory>
        ensures room { OnOk result (count ≤ spare_of client.now self.new) }
        ensures unchanged { IsUnchanged self.old self.new }
        ensures stands { (opening : ℕ) (history : List Record) →
            StandsFor opening self.old history → StandsFor opening self.new history }
    {
        match table_of(client) {
            0 => self.s0.reserve(count),
            1 => self.s1.reserve(count),
            2 => self.s2.reserve(count),
            _ => self.s3.reserve(count),
        }
    }

    // Decides an ask over the client's table alone. `None` where all tables have to be looked at;
    // then nothing has changed.
    fn ask_table(&mut self, t: Moment, client: &Client, ask: &Ask) -> Option<Verdict>
        requires { 0 < spare_of client.now self.old }
        ensures none { IfNone result (self.new ≡ self.old) }
        ensures some { IfSome result (λ v. Decides t client.now ask.now self.old self.new v) }
        ensures keeps { Spends client.now 1 self.old self.new }
    {
        let config = &self.config;
        match table_of(client) {
            0 => decide_one(&mut self.s0, &mut self.book, config, t, client, ask),
            1 => decide_one(&mut self.s1, &mut self.book, config, t, client, ask),
            2 => decide_one(&mut self.s2, &mut self.book, config, t, client, ask),
            _ => decide_one(&mut self.s3, &mut self.book, config, t, client, ask),
        }
    }

    // Decides an ask over all tables.
    fn ask_all(&mut self, t: Moment, client: &Client, ask: &Ask) -> Verdict
        requires { 0 < spare_of client.now self.old }
        ensures decided { Decides t client.now ask.now self.old self.new result }
        ensures keeps { Spends client.now 1 self.old self.new }
    {
        decide_all(
            &mut self.s0,
            &mut self.s1,
            &mut self.s2,
            &mut self.s3,
            &mut self.book,
            &self.config,
            t,
            client,
            ask,
        )
    }

    // Ends the client's grant of the kind.
    fn end(&mut self, t: Moment, client: &Client, kind: Kind) -> Cancelled
        ensures decided { EndsBy t client.now kind self.old self.new result }
        ensures keeps { Spends client.now 0 self.old self.new }
    {
        match table_of(client) {
            0 => cancel(&mut self.s0, &mut self.book, t, client, kind),
            1 => cancel(&mut self.s1, &mut self.book, t, client, kind),
            2 => cancel(&mut self.s2, &mut self.book, t, client, kind),
            _ => cancel(&mut self.s3, &mut self.book, t, client, kind),
        }
    }

    // Decides an ask: over the client's table alone where that is enough.
    fn judge(&mut self, t: Moment, client: &Client, ask: &Ask) -> Verdict
        requires { 0 < spare_of client.now self.old }
        ensures decided { Decides t client.now ask.now self.old self.new result }
        ensures keeps { Spends client.now 1 self.old self.new }
    {
        match self.ask_table(t, client, ask) {
            Some(verdict) => verdict,
            None => self.ask_all(t, client, ask),
        }
    }

    // Counts a verdict.
    fn note(&mut self, verdict: &Verdict)
        ensures { self.new ≡ counting verdict.now self.old }
    {
        match verdict {
            Verdict::Granted(_) => self.granted = self.granted.saturating_add(1),
            Verdict::Short(_) => self.refused = self.refused.saturating_add(1),
            Verdict::Outside(_) => {}
        }
    }

    // Decides an ask and counts the verdict.
    fn decide(&mut self, t: Moment, client: &Client, ask: &Ask) -> Verdict
        requires { 0 < spare_of client.now self.old }
        ensures decided { Comes t client.now (Item.Request ask.now) self.old self.new
            (decision_seen (Outcome.Verdict ask.now result)) }
        ensures keeps { Lowers client.now 1 self.old self.new }
    {
        let verdict = self.judge(t, client, ask);
        self.note(&verdict);
        verdict
    }

    // Ends the client's grant of the kind with this messageType, if a kind has it.
    fn cancel(&mut self, t: Moment, client: &Client, code: u8) -> Option<Cancelled>
        ensures decided { Comes t client.now (Item.Cancel code) self.old self.new
            (decision_seen (Outcome.Cancel code result)) }
        ensures keeps { Lowers client.now 0 self.old self.new }
    {
        let kind = Kind::of(code)?;
        Some(self.end(t, client, kind))
    }

    // Decides an item.
    fn decide_item(&mut self, t: Moment, client: &Client, item: Item) -> Outcome
        requires { 0 < spare_of client.now self.old }
        ensures item { item_seen result ≡ item }
        ensures decided { Comes t client.now item self.old self.new (decision_seen result) }
        ensures keeps { Lowers client.now 1 self.old self.new }
    {
        match item {
            Item::Request(ask) => Outcome::Verdict(ask, self.decide(t, client, &ask)),
            Item::Cancel(code) => Outcome::Cancel(code, self.cancel(t, client, code)),
        }
    }

    // Decides the items, in order. There is room for their outcomes, and in the client's table.
    pub(crate) fn decide_items(
        &mut self,
        t: Moment,
        client: &Client,
        items: &[Item],
        mut outcomes: Vec<Outcome>,
    ) -> Outcomes
        requires room { length items.now ≤ spare_of client.now self.old }
        requires empty { outcomes.items ≡ [] }
        requires none { vec_len outcomes ≡ 0 }
        requires list { length items.now ≤ vec_capacity outcomes }
        ensures items { map item_seen result ≡ items.now }
        ensures decided { AllCome t client.now items.now self.old self.new (decisions_seen result) }
        ensures keeps { HasKeptPorts self.old self.new }
    {
        for item in items {
            let outcome = self.decide_item(t, client, *item);
            // A push fails only at a full vector, and this one has room.
            let _ = outcomes.push(outcome);
        }
        Outcomes::new(outcomes)
    }
}
