//! Asks, on the values that the locks lend.

ghost use Rattle.std.specs.Prelude.{◌≡◌, ℕ, ◌-◌, ◌≤◌, ◌<◌, ◌^◌, max, false, List, ◌∷◌, ◌++◌, IfSome, IfNone, OnSome};
ghost use Rattle.std.specs.Option.{option_map};
ghost use Rattle.ptu_units.specs.Client.{table_of as table_of_client};
ghost use Rattle.ptu_history.specs.History.{Record};
ghost use Rattle.ptu_history.specs.{Events.{Request}, Step.{step}};
ghost use Rattle.ptu_history.specs.Verdict.{verdict as verdict_after};
ghost use Rattle.ptu_admit.specs.Alone.{GoesOnAlone};
ghost use Rattle.ptu_admit.specs.Lent.{Lent, StandFor, four, is_lent, live_others, moment_for, table_for};
ghost use Rattle.ptu_admit.specs.Rows.{kept_rate};
ghost use Rattle.ptu_admit.specs.Verdict.{IsAt, ask_of, config_of, unless_short, verdict_beside, verdict_of};
ghost use Rattle.ptu_shared.specs.Answers.{AnswersAsk};

use crate::desk::{Desk, audit_table, audit_tables};
use crate::place::{First, Fourth, Place, Second, Third};
use crate::rates::{Rates, move_rate};
use crate::table::Table;
use ptu_admit::{Verdict, decide_all, decide_one};
use ptu_messages::Ask;
use ptu_outside::Port;
use ptu_profile::GmConfig;
use ptu_units::{Client, Moment};
use std::sync::ledger::Ledger;

/// What a client asks for, from when on it may be decided, and under which configuration.
#[derive(Drop)]
pub(crate) struct Demand<'a> {
    pub config: &'a GmConfig,
    pub at: Moment,
    pub client: &'a Client,
    pub ask: &'a Ask,
}

// Decides an ask by `decide_one`, under the client's table and the book. `None` where that is, and
// then nothing has changed.
pub(crate) fn ask_one<P: Port, L: Rates, G: Ledger, R: Ledger, J: Place>(
    table: &mut Table<P, L, J>,
    desk: &mut Desk<L, G, R>,
    demand: &Demand<'_>,
) -> Option<Verdict>
    requires room { 0 < table.old.shard.spare }
    requires table { table_of_client demand.now.client.now ≡ J.index }
    ensures answer { option_map verdict_of result
        ≡ unless_short (verdict_beside (config_of desk.old.book.capacity demand.now.config.now)
        (λ k. desk.old.book.total - kept_rate demand.now.client.now k table.old.shard.rows)
        (max demand.now.at (max desk.old.book.moment table.old.shard.moment))
        (ask_of demand.now.ask.now)) }
    ensures at { IfSome result
        (IsAt (max demand.now.at (max desk.old.book.moment table.old.shard.moment))) }
    ensures verdict { IfSome result
        (AnswersAsk L.most demand.now.config.now demand.now.at demand.now.client.now
        demand.now.ask.now) }
    ensures desk { (desk.new.granted ≡ desk.old.granted)
        × (desk.new.refused ≡ desk.old.refused) }
    ensures port { table.new.shard.port ≡ table.old.shard.port }
    ensures tally { table.new.tally ≡ table.old.tally }
    ensures none { IfNone result ((table.new.shard ≡ table.old.shard)
        × (desk.new.book ≡ desk.old.book)) }
    ensures outcome { (opening : ℕ) (rest : List Lent) (history : List Record) →
        StandFor opening (table_for demand.now.client.now table.old.shard ∷ rest)
        desk.old.book history →
        IfSome result (λ v. verdict_of v
        ≡ verdict_after (config_of opening demand.now.config.now) history
        (max demand.now.at (max desk.old.book.moment table.old.shard.moment)) demand.now.client.now
        (ask_of demand.now.ask.now)) }
    ensures stands { (opening : ℕ) (rest : List Lent) (history : List Record) →
        StandFor opening (table_for demand.now.client.now table.old.shard ∷ rest)
        desk.old.book history →
        is_lent (table_of_client demand.now.client.now) rest ≡ false →
        OnSome result
        (StandFor opening (table_for demand.now.client.now table.new.shard ∷ rest)
        desk.new.book (history
        ++ (step (config_of opening demand.now.config.now) history
        (max demand.now.at (max desk.old.book.moment table.old.shard.moment))
        (Request demand.now.client.now (ask_of demand.now.ask.now))).records)) }
    ensures alone { GoesOnAlone J.index table.old.shard table.new.shard }
{
    audit_table(table, desk);
    let before = table.shard.held();
    let verdict = decide_one(
        &mut table.shard,
        &mut desk.book,
        demand.config,
        demand.at,
        demand.client,
        demand.ask,
    );
    move_rate(&mut desk.rates, &mut table.part, before, table.shard.held());
    verdict
}

// Decides an ask by `decide_all`, under all four tables, in order of index, and the book.
pub(crate) fn ask_all<P: Port, L: Rates, G: Ledger, R: Ledger>(
    t0: &mut Table<P, L, First>,
    t1: &mut Table<P, L, Second>,
    t2: &mut Table<P, L, Third>,
    t3: &mut Table<P, L, Fourth>,
    desk: &mut Desk<L, G, R>,
    demand: &Demand<'_>,
) -> Verdict
    requires ledger { L.parts ≡ 4 }
    requires room { (table_of_client demand.now.client.now ≡ 0 → 0 < t0.old.shard.spare)
        × (table_of_client demand.now.client.now ≡ 1 → 0 < t1.old.shard.spare)
        × (table_of_client demand.now.client.now ≡ 2 → 0 < t2.old.shard.spare)
        × (table_of_client demand.now.client.now ≡ 3 → 0 < t3.old.shard.spare) }
    ensures answer { let lent = four t0.old.shard t1.old.shard t2.old.shard t3.old.shard in
        let n = moment_for demand.now.at desk.old.book demand.now.client.now lent in
        verdict_of result ≡ verdict_beside (config_of desk.old.book.capacity demand.now.config.now)
        (live_others n lent demand.now.client.now) n (ask_of demand.now.ask.now) }
    ensures at { IsAt (moment_for demand.now.at desk.old.book demand.now.client.now
        (four t0.old.shard t1.old.shard t2.old.shard t3.old.shard)) result }
    ensures verdict { AnswersAsk L.most demand.now.config.now demand.now.at demand.now.client.now
        demand.now.ask.now result }
    ensures desk { (desk.new.granted ≡ desk.old.granted)
        × (desk.new.refused ≡ desk.old.refused) }
    ensures ports { (t0.new.shard.port ≡ t0.old.shard.port)
        × (t1.new.shard.port ≡ t1.old.shard.port) × (t2.new.shard.port ≡ t2.old.shard.port)
        × (t3.new.shard.port ≡ t3.old.shard.port) }
    ensures tallies { (t0.new.tally ≡ t0.old.tally) × (t1.new.tally ≡ t1.old.tally)
        × (t2.new.tally ≡ t2.old.tally) × (t3.new.tally ≡ t3.old.tally) }
    ensures outcome { (opening : ℕ) (history : List Record) →
        let lent = four t0.old.shard t1.old.shard t2.old.shard t3.old.shard in
        StandFor opening lent desk.old.book history →
        verdict_of result ≡ verdict_after (config_of opening demand.now.config.now) history
        (moment_for demand.now.at desk.old.book demand.now.client.now lent) demand.now.client.now
        (ask_of demand.now.ask.now) }
    ensures stands { (opening : ℕ) (history : List Record) →
        let lent = four t0.old.shard t1.old.shard t2.old.shard t3.old.shard in
        StandFor opening lent desk.old.book history →
        StandFor opening (four t0.new.shard t1.new.shard t2.new.shard t3.new.shard)
        desk.new.book (history
        ++ (step (config_of opening demand.now.config.now) history
        (moment_for demand.now.at desk.old.book demand.now.client.now lent)
        (Request demand.now.client.now (ask_of demand.now.ask.now))).records) }
    ensures alone { GoesOnAlone 0 t0.old.shard t0.new.shard
        × GoesOnAlone 1 t1.old.shard t1.new.shard × GoesOnAlone 2 t2.old.shard t2.new.shard
        × GoesOnAlone 3 t3.old.shard t3.new.shard }
{
    let before = audit_tables(t0, t1, t2, t3, desk);
    let verdict = decide_all(
        &mut t0.shard,
        &mut t1.shard,
        &mut t2.shard,
        &mut t3.shard,
        &mut desk.book,
        demand.config,
        demand.at,
        demand.client,
        demand.ask,
    );
    move_rate(&mut desk.rates, &mut t0.part, before.0, t0.shard.held());
    move_rate(&mut desk.rates, &mut t1.part, before.1, t1.shard.held());
    move_rate(&mut desk.rates, &mut t2.part, before.2, t2.shard.held());
    move_rate(&mut desk.rates, &mut t3.part, before.3, t3.shard.held());
    verdict
}
