//! What stands behind the lock of a table: its leases, its part of the ledger of rates, and how
//! many datagrams its port was sent.

ghost use Rattle.std.specs.Prelude.{◌≡◌, ◌≤◌, ◌+◌, ◌-◌, ◌^◌, ℕ, [], ◌++◌, List, OnErr, OnOk, is_some, map, max, min, true};
ghost use Rattle.std.specs.List.Sorted.{IsPermutation};
ghost use Rattle.ptu_outside.specs.HandsOver.{HandsOver};
ghost use Rattle.ptu_units.specs.Client.{table_of};
ghost use Rattle.ptu_history.specs.{History.{Record}, Verdict.{Config}};
ghost use Rattle.ptu_history.specs.{Events.{DelayReq, Turn}, Step.{delay_answer, step}};
ghost use Rattle.ptu_history.specs.Turns.{due_grants, message_of};
ghost use Rattle.ptu_shard.specs.Answered.{failed_by, met_by, moment_of_answer, responses, sent_by};
ghost use Rattle.ptu_shard.specs.{Messages.{departure_of, response_of}, Row.{share_of}};
ghost use Rattle.ptu_shard.specs.{Table.{StandsBeside, StandsFor}, Turn.{due_messages}};
ghost use Rattle.ptu_shared.specs.{Delays.{IsLaterIfTooSoon}, Histories.{announced_as}, Opening.{AreCounted, seen_of}};

use crate::place::Place;
use crate::rates::Rates;
use crate::tally::PortTally;
use ptu_messages::Header;
use ptu_outside::Port;
use ptu_profile::GmConfig;
use ptu_shard::{Answered, Shard, Turned};
use ptu_units::{Client, Moment, OutOfMemory};
use std::alloc::Global;
use std::marker::PhantomData;
use std::sync::ledger::Share;

// The table of leases at the place J, beside one part of the ledger of rates, whose amount is the
// table's share, and the tally of its port. What waits at the port is what the ledger names at the
// place, and its count of faults rose from there by the sends that failed.
#[derive(Drop)]
pub(crate) struct Table<P: Port, L: Rates, J: Place> {
    pub shard: Shard<P>,
    pub part: Share<L>,
    pub tally: PortTally,
    // The clockClass of its Announces, once one was told.
    pub class: Option<u8>,
    place: PhantomData<J>,
    ghost one: { part.parts ≡ 1 },
    ghost same: { part.amount ≡ share_of shard.rows },
    ghost own_port: { P.waiting shard.port ≡ (L.opened J.index).waiting },
    ghost classes: { is_some class ≡ true → L.told ≡ true },
    ghost failures: { AreCounted P.counts_once tally.failed (L.opened J.index).faults
        (P.faults shard.port) },
}

// How many datagrams were sent.
fn sent_of(answered: &Answered) -> u64
    ensures { result ≡ sent_by answered.now }
{
    match answered {
        Answered::Sent { .. } => 1,
        Answered::Failed { .. } | Answered::NoGrant { .. } | Answered::TooSoon { .. } => 0,
    }
}

// How many sends failed.
fn failed_of(answered: &Answered) -> u64
    ensures { result ≡ failed_by answered.now }
{
    match answered {
        Answered::Failed { .. } => 1,
        Answered::Sent { .. } | Answered::NoGrant { .. } | Answered::TooSoon { .. } => 0,
    }
}

impl<P: Port, L: Rates, J: Place> Table<P, L, J> {
    // A table without rows, with a part that has no amount.
    pub fn new(alloc: Global, port: P, part: Share<L>) -> Table<P, L, J>
        requires parts { part.parts ≡ 1 }
        requires amount { part.amount ≡ 0 }
        requires port { seen_of P.Port port ≡ L.opened J.index }
        ensures rows { result.shard.rows ≡ [] }
        ensures port { result.shard.port ≡ port }
        ensures sent { result.tally.sent ≡ 0 }
        ensures stands { (j : ℕ) → StandsFor j result.shard [] }
    {
        Table {
            shard: Shard::new(alloc, port),
            part,
            tally: PortTally::none(),
            class: None,
            place: PhantomData,
        }
    }

    /// Makes room for one row more.
    ///
    /// # Errors
    /// `OutOfMemory`. What the table stands for is as before, then too.
    pub fn reserve(&mut self) -> Result<(), OutOfMemory>
        ensures spare { OnOk result (1 ≤ self.new.shard.spare) }
        ensures rows { IsPermutation self.old.shard.rows self.new.shard.rows }
        ensures moment { self.new.shard.moment ≡ self.old.shard.moment }
        ensures port { self.new.shard.port ≡ self.old.shard.port }
        ensures sent { self.new.tally.sent ≡ self.old.tally.sent }
        ensures stands { (book j : ℕ) (history : List Record) →
            StandsBeside book j self.old.shard history
            → StandsBeside book j self.new.shard history }
    {
        self.shard.reserve(1)
    }

    // A turn of the table, whose index is handed in, by `Shard::turn`.
    pub fn turn(&mut self, config: &GmConfig, table: usize, t: Moment) -> Turned
        requires table { table ≡ J.index }
        ensures at { result.at ≡ max t self.old.shard.moment }
        ensures moment { self.new.shard.moment ≡ result.at }
        ensures sends { HandsOver P.Port self.old.shard.port self.new.shard.port
            (map (departure_of (announced_as self.old.class config.now) result.at)
            (due_messages result.at self.old.shard.rows))
            result.sent result.failed }
        ensures class { self.new.class ≡ self.old.class }
        ensures sent { self.new.tally.sent
            ≡ min (self.old.tally.sent + result.sent) (2 ^ 128 - 1) }
        ensures messages { (j : ℕ) (history : List Record) →
            StandsFor j self.old.shard history →
            due_messages result.at self.old.shard.rows
            ≡ map (message_of history) (due_grants history result.at j) }
        ensures stands { (opened : Config) (j : ℕ) (history : List Record)
            → StandsFor j self.old.shard history →
            StandsFor j self.new.shard
            (history ++ (step opened history result.at (Turn j)).records) }
    {
        let _ = table;
        let config = GmConfig {
            class: self.class.unwrap_or(config.class),
            ..*config
        };
        let turned = self.shard.turn(&config, t);
        self.tally = self.tally.plus(turned.sent, turned.failed);
        turned
    }

    // The answer to a Delay_Req of a client of the table, by `Shard::answer_delay`.
    pub fn answer_delay(
        &mut self,
        config: &GmConfig,
        t: Moment,
        client: &Client,
        request: &Header,
    ) -> Answered
        requires table { table_of client.now ≡ J.index }
        ensures at { moment_of_answer result ≡ max t self.old.shard.moment }
        ensures moment { self.new.shard.moment ≡ max t self.old.shard.moment }
        ensures earliest { IsLaterIfTooSoon result }
        ensures sends { HandsOver P.Port self.old.shard.port self.new.shard.port
            (responses (met_by result)
            (response_of config.now self.new.shard.moment client.now request.now))
            (sent_by result) (failed_by result) }
        ensures sent { self.new.tally.sent
            ≡ min (self.old.tally.sent + sent_by result) (2 ^ 128 - 1) }
        ensures met { (history : List Record) →
            StandsFor (table_of client.now) self.old.shard history →
            met_by result ≡ delay_answer history self.new.shard.moment client.now }
        ensures stands { (opened : Config) (history : List Record) →
            StandsFor (table_of client.now) self.old.shard history →
            StandsFor (table_of client.now) self.new.shard
            (history ++ (step opened history self.new.shard.moment (DelayReq client.now)).records) }
    {
        let answered = self.shard.answer_delay(config, t, client, request);
        self.tally = self.tally.plus(sent_of(&answered), failed_of(&answered));
        answered
    }

    // The port, as it is. The rest is dropped.
    pub fn into_port(self) -> P
        ensures { result ≡ self.shard.port }
    {
        let Table {
            shard,
            part: _,
            tally: _,
            class: _,
            place: _,
        } = self;
        shard.into_port()
    }
}
