//! Tables of which a history is known: what stands behind the locks. No contract sees what is done
//! under a lock, but whenever it is got, there is a history that the table stands for, what the
//! table's port was sent are messages of it, and its turns are counted.

ghost use Rattle.std.specs.Prelude.{◌≡◌, ◌≤◌, ◌+◌, ℕ, IfOk, IfSome, OnOk, [], max, option_map, true};
ghost use Rattle.ptu_units.specs.Client.{table_of};
ghost use Rattle.ptu_shard.specs.{Answered.{moment_of_answer}, Row.{share_of}, Table.{StandsFor}};
ghost use Rattle.ptu_admit.specs.{LiveRows.{AreFew, HasMore, no_grants}, Rows.{live_rows}};
ghost use Rattle.ptu_shared.specs.{Answers.{AnswersAsk}, Delays.{IsLaterIfTooSoon}};
ghost use Rattle.ptu_shared.specs.{Histories.{SendsCounted}, Opening.{seen_of}};

use crate::asking::{Demand, ask_all, ask_one};
use crate::changing::{Change, cancel_one, resize_all};
use crate::desk::Desk;
use crate::opening::Unturned;
use crate::place::{First, Fourth, Place, Second, Third};
use crate::rates::Rates;
use crate::table::Table;
use crate::tally::PortTally;
use crate::turning::{TurnBook, TurnsOf, audit_turns};
use ptu_admit::{Cancelled, Live, Resized, Verdict, live_in};
use ptu_messages::Header;
use ptu_outside::Port;
use ptu_profile::GmConfig;
use ptu_shard::{Answered, Turned};
use ptu_units::{Client, Kind, Moment, OutOfMemory};
use std::marker::Model;
use std::sync::ledger::{Book, Ledger, Share};

// A table at the place J, of which there is a history: the table stands for it, and of its messages
// its port was sent a part, in order, since the table was made, as many as are counted. The share's
// amount is the number of its turns. Contracts see it as the table.
#[derive(Drop)]
pub(crate) struct LawfulTable<P: Port, L: Rates, J: Place> {
    table: Table<P, L, J>,
    turned: Share<TurnsOf<L, J>>,
}

impl<P: Port, L: Rates, J: Place> Model for LawfulTable<P, L, J> {
    ghost use Rattle.std.specs.Prelude.{◌≡◌};
    ghost use Rattle.ptu_shard.specs.Table.{Kept};
    ghost use Rattle.ptu_shared.specs.Histories.{HasHistory};

    ghost Value = { Kept P };

    ghost view = { λ t. t.table.shard };

    ghost invariant = { λ t. HasHistory P.Port L.told L.config J.index (L.opened J.index)
        t.table.shard t.table.tally.sent t.turned.amount × (t.turned.parts ≡ 1) };
}

impl<P: Port, L: Rates, J: Place> LawfulTable<P, L, J> {
    // A table that nothing was done to.
    pub fn new(table: Table<P, L, J>, unturned: Unturned<L, J>) -> LawfulTable<P, L, J>
        requires stands { (j : ℕ) → StandsFor j table.shard [] }
        requires port { seen_of P.Port table.shard.port ≡ L.opened J.index }
        requires sent { table.tally.sent ≡ 0 }
        ensures { result ≡ table.shard }
    {
        let Unturned { share: turned } = unturned;
        LawfulTable { table, turned }
    }

    /// Makes room for one row more.
    ///
    /// # Errors
    /// `OutOfMemory`. What the table stands for is as before, then too.
    pub fn reserve(&mut self) -> Result<(), OutOfMemory>
        ensures { OnOk result (1 ≤ self.new.spare) }
    {
        self.table.reserve()
    }

    // A turn of the table, by `Table::turn`, which the book of its turns counts.
    pub fn turn(
        &mut self,
        config: &GmConfig,
        book: &mut Book<TurnsOf<L, J>>,
        table: usize,
        t: Moment,
    ) -> Turned
        requires config { config.now ≡ L.config }
        requires table { table ≡ J.index }
        ensures at { result.at ≡ max t self.old.moment }
        ensures turns { book.new.total ≡ book.old.total + 1 }
    {
        book.add(&mut self.turned, 1);
        self.table.turn(config, table, t)
    }

    // The answer to a Delay_Req of a client of the table, by `Table::answer_delay`.
    pub fn answer_delay(
        &mut self,
        config: &GmConfig,
        t: Moment,
        client: &Client,
        request: &Header,
    ) -> Answered
        requires config { config.now ≡ L.config }
        requires table { table_of client.now ≡ J.index }
        ensures at { moment_of_answer result ≡ max t self.old.moment }
        ensures earliest { IsLaterIfTooSoon result }
    {
        self.table.answer_delay(config, t, client, request)
    }

    // The earliest moment up to `until` at which a turn of the table may have a message to send, or
    // `until` where there is none before it.
    pub fn next_due(&self, until: Moment) -> Moment
        ensures { result ≤ until }
    {
        self.table.shard.next_due(until)
    }

    // From now on its Announces have this clockClass.
    pub fn set_class(&mut self, class: u8)
        requires { L.told ≡ true }
        ensures { self.new ≡ self.old }
    {
        self.table.class = Some(class);
    }

    // The moment that it has reached.
    pub fn moment(&self) -> Moment
        ensures { result ≡ self.now.moment }
    {
        self.table.shard.moment()
    }

    // The grants that are live at the moment, with what its port was sent.
    pub fn live(&self, at: Moment) -> (Live, PortTally)
        ensures all { HasMore (live_rows at self.now.rows) no_grants result.0 }
        ensures few { AreFew result.0 }
        ensures within { result.0.rates ≤ share_of self.now.rows }
    {
        (live_in(&self.table.shard, at), self.table.tally)
    }

    // The table, as it is. Its turns are those of the book, where there is one.
    pub fn into_table(self, book: &mut TurnBook<L, J>) -> Table<P, L, J>
        ensures { SendsCounted P.Port L.told L.config J.index (L.opened J.index)
            result.shard.port result.tally.sent (option_map (λ b. b.total) book.old) }
    {
        let LawfulTable { table, mut turned } = self;
        audit_turns(book, &mut turned);
        table
    }
}

// Decides an ask by `ask_one`.
pub(crate) fn ask_lawful<P: Port, L: Rates, G: Ledger, R: Ledger, J: Place>(
    table: &mut LawfulTable<P, L, J>,
    desk: &mut Desk<L, G, R>,
    demand: &Demand<'_>,
) -> Option<Verdict>
    requires room { 1 ≤ table.old.spare }
    requires table { table_of demand.now.client.now ≡ J.index }
    ensures { IfSome result
        (AnswersAsk L.most demand.now.config.now demand.now.at demand.now.client.now
        demand.now.ask.now) }
{
    ask_one(&mut table.table, desk, demand)
}

// Decides an ask by `ask_all`.
pub(crate) fn ask_all_lawful<P: Port, L: Rates, G: Ledger, R: Ledger>(
    t0: &mut LawfulTable<P, L, First>,
    t1: &mut LawfulTable<P, L, Second>,
    t2: &mut LawfulTable<P, L, Third>,
    t3: &mut LawfulTable<P, L, Fourth>,
    desk: &mut Desk<L, G, R>,
    demand: &Demand<'_>,
) -> Verdict
    requires ledger { L.parts ≡ 4 }
    requires room { (table_of demand.now.client.now ≡ 0 → 1 ≤ t0.old.spare)
        × (table_of demand.now.client.now ≡ 1 → 1 ≤ t1.old.spare)
        × (table_of demand.now.client.now ≡ 2 → 1 ≤ t2.old.spare)
        × (table_of demand.now.client.now ≡ 3 → 1 ≤ t3.old.spare) }
    ensures { AnswersAsk L.most demand.now.config.now demand.now.at demand.now.client.now
        demand.now.ask.now result }
{
    ask_all(
        &mut t0.table,
        &mut t1.table,
        &mut t2.table,
        &mut t3.table,
        desk,
        demand,
    )
}

// Ends the client's grant of the kind by `cancel_one`.
pub(crate) fn cancel_lawful<P: Port, L: Rates, G: Ledger, R: Ledger, J: Place>(
    table: &mut LawfulTable<P, L, J>,
    desk: &mut Desk<L, G, R>,
    t: Moment,
    client: &Client,
    kind: Kind,
) -> Cancelled
    requires { table_of client.now ≡ J.index }
    ensures { t ≤ result.at }
{
    cancel_one(&mut table.table, desk, t, client, kind)
}

// Changes the capacity in force by `resize_all`. After `OutOfMemory` nothing has changed.
pub(crate) fn resize_lawful<P: Port, L: Rates, G: Ledger, R: Ledger>(
    t0: &mut LawfulTable<P, L, First>,
    t1: &mut LawfulTable<P, L, Second>,
    t2: &mut LawfulTable<P, L, Third>,
    t3: &mut LawfulTable<P, L, Fourth>,
    desk: &mut Desk<L, G, R>,
    change: Change,
) -> Result<Resized, OutOfMemory>
    requires ledger { L.parts ≡ 4 }
    requires most { change.capacity ≤ L.most }
    ensures { IfOk result (λ r. change.at ≤ r.at) }
{
    resize_all(
        &mut t0.table,
        &mut t1.table,
        &mut t2.table,
        &mut t3.table,
        desk,
        change,
    )
}
