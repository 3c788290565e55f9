//! The table of leases that callers see. It keeps one quarter of a grandmaster's clients, and sends
//! their messages from its own port.

ghost use Rattle.std.specs.Prelude.{◌≡◌, ◌<◌, ◌≤◌, ◌+◌, ◌*◌, ◌^◌, ℕ, IfOk, max, [], ◌∷◌, ◌++◌, List, map, OnErr, OnOk, length, is_some, slice_get, nat_lt};
ghost use Rattle.std.specs.{Borrow.{sem}, List.{filter}, List.Sorted.{IsPermutation}};
ghost use Rattle.ptu_units.specs.{Log.{rate_of}, declared.kind.Kind.TheVariants.{DelayResp}};
ghost use Rattle.ptu_units.specs.Client.{table_of};
ghost use Rattle.ptu_history.specs.History.{Ended, Granted, Record, Shed};
ghost use Rattle.ptu_history.specs.{Verdict.{Config}, Events.{DelayReq, Turn}};
ghost use Rattle.ptu_history.specs.{Step.{delay_answer, step}, Turns.{due_grants, message_of}};
ghost use Rattle.ptu_shard.specs.Answered.{answer_by, failed_by, met_by, moment_of_answer, responses, sent_by};
ghost use Rattle.ptu_shard.specs.{Lends.{LendsPort}, Messages.{departure_of, response_of}};
ghost use Rattle.ptu_shard.specs.Row.{IsDistinctByLease, lease_of, share_of, without_row};
ghost use Rattle.ptu_shard.specs.Table.{IsIdleUntil, IsLeaseOf, StandsBeside, StandsFor};
ghost use Rattle.ptu_shard.specs.Turn.{is_answering_row, is_due_row, due_messages, spent_where};
ghost use Rattle.ptu_outside.specs.HandsOver.{HandsOver};

use crate::answered::{Answered, Turned};
use crate::answering::answer_request;
use crate::lease::{Lease, Row};
use crate::queue::{Entry, Queue};
use crate::queueing::keep_row;
use crate::rows::{Key, drop_row, find_lease, row_at, spend_answering};
use crate::sweeping::drop_ended;
use crate::turning::send_due;
use indexmap::IndexMap;
use ptu_messages::Header;
use ptu_outside::Port;
use ptu_profile::GmConfig;
use ptu_units::{Client, Kind, Moment, OutOfMemory, rate};
use std::alloc::Global;
use std::marker::Model;

/// A table of leases by client and kind, with the port that their messages are handed to. Its share
/// is the sum of its rows' rates, and no client and kind has two rows. Its moment is the greatest
/// at which a step was taken on it.
#[derive(Drop)]
pub struct Shard<P: Port> {
    rows: IndexMap<Key, Lease>,
    share: u64,
    // When each row of Announce and Sync is next due, and when each row is over.
    edges: Queue,
    ends: Queue,
    // For how many rows there is room.
    room: usize,
    moment: Moment,
    port: P,
}

impl<P: Port> Model for Shard<P> {
    ghost use Rattle.std.specs.Prelude.{◌-◌, length};
    ghost use Rattle.indexmap.specs.IndexMap.{spare as spare_of};
    ghost use Rattle.ptu_shard.specs.{Fields.{AreFields, rows_of}, Table.{Kept}};

    ghost Value = { Kept P };

    ghost view = { λ s. record {
      rows = rows_of s.rows.entries;
      moment = s.moment;
      spare = s.room - length s.rows.entries;
      port = s.port;
    } };

    ghost invariant = { λ s. AreFields (rows_of s.rows.entries) (spare_of s.rows) s.share
        s.moment s.room s.edges s.ends };
}

// For how many entries a queue has room: twice as many as there may be rows, so that it is seldom
// filled anew.
fn twice(room: usize) -> Result<usize, OutOfMemory>
    ensures { IfOk result (λ n. n ≡ 2 * room) }
{
    Ok(room.checked_mul(2).ok_or(OutOfMemory)?)
}

// The moment of the entry, or an earlier one where that is no moment.
fn moment_of(entry: Entry) -> Moment
    ensures { result ≤ entry.moment }
{
    match Moment::of(entry.moment) {
        Some(moment) => moment,
        None => Moment::default(),
    }
}

impl<P: Port> Shard<P> {
    /// A table without rows, with share and moment 0, that hands its messages to this port.
    pub fn new(alloc: Global, port: P) -> Shard<P>
        ensures rows { result.rows ≡ [] }
        ensures moment { result.moment ≡ 0 }
        ensures port { result.port ≡ port }
        ensures stands { (j : ℕ) → StandsFor j result [] }
    {
        Shard {
            rows: IndexMap::new(alloc),
            share: 0,
            edges: Queue::new(alloc),
            ends: Queue::new(alloc),
            room: 0,
            moment: Moment::default(),
            port,
        }
    }

    /// Makes room for so many rows more.
    ///
    /// # Errors
    /// `OutOfMemory`, only where that room was missing.
    pub fn reserve(&mut self, count: usize) -> Result<(), OutOfMemory>
        ensures spare { OnOk result (count ≤ self.new.spare) }
        ensures full { OnErr result (self.old.spare < count) }
        // Leases, share, moment and port are as before, after a refusal too.
        ensures no_loss { self.old.spare ≤ self.new.spare }
        ensures rows { IsPermutation self.old.rows self.new.rows }
        ensures moment { self.new.moment ≡ self.old.moment }
        ensures port { self.new.port ≡ self.old.port }
        ensures stands { (book j : ℕ) (history : List Record) →
            StandsBeside book j self.old history → StandsBeside book j self.new history }
    {
        if count <= self.room - self.rows.len() {
            return Ok(());
        }
        // (room grows fourfold, since all that is kept is moved then)
        let more = self.rows.len().saturating_mul(3);
        self.rows.reserve(count.max(more))?;
        let room = self.rows.capacity();
        let entries = twice(room)?;
        self.edges.reserve(entries)?;
        self.ends.reserve(entries)?;
        self.room = room;
        Ok(())
    }

    /// The lease of the client and kind, if a row is kept. One that is over may still be kept.
    #[inline(always)]
    pub fn lease(&self, client: &Client, kind: Kind) -> Option<Lease>
        ensures { result ≡ lease_of client.now kind self.now.rows }
    {
        find_lease(&self.rows, client, kind)
    }

    /// How many rows are kept.
    pub fn count(&self) -> usize
        ensures count { result ≡ length self.now.rows }
        ensures distinct { IsDistinctByLease self.now.rows }
    {
        let _share = self.share;
        self.rows.len()
    }

    /// The share: the sum of the rates of the rows that are kept, in sixteenths of a message per
    /// second.
    pub fn held(&self) -> u64
        ensures share { result ≡ share_of self.now.rows }
        ensures distinct { IsDistinctByLease self.now.rows }
    {
        self.share
    }

    /// The greatest moment of a step.
    pub fn moment(&self) -> Moment
        ensures { result ≡ self.now.moment }
    {
        self.moment
    }

    /// The row at a place. The rows at the places below `count` are those that are kept, each once,
    /// in an order that is left open.
    pub fn row(&self, index: usize) -> Option<Row>
        ensures { result ≡ slice_get self.now.rows index }
    {
        row_at(&self.rows, index)
    }

    /// Makes this lease the one of the client and kind.
    pub fn put(&mut self, client: Client, kind: Kind, lease: Lease)
        requires room { 0 < self.old.spare }
        requires sum { share_of self.old.rows + rate_of lease.log < 2 ^ 63 }
        ensures rows { IsPermutation
            (record { client = client; kind = kind; lease = lease }
            ∷ without_row client kind self.old.rows)
            self.new.rows }
        ensures spare { self.old.spare ≤ self.new.spare + 1 }
        ensures moment { self.new.moment ≡ self.old.moment }
        ensures port { self.new.port ≡ self.old.port }
        // What the table stands for goes on with the grant, made at a moment that the table has
        // reached.
        ensures stands { (book j : ℕ) (history : List Record) →
            let after = history ++ Granted lease.start client kind lease.log lease.until ∷ [] in
            StandsBeside book j self.old history → table_of client ≡ j
            → lease.start ≤ self.old.moment →
            IsLeaseOf after client kind lease → StandsBeside book j self.new after }
    {
        let added = rate(lease.log);
        let row = Row {
            client,
            kind,
            lease,
        };
        let replaced = keep_row(
            &mut self.rows,
            &mut self.edges,
            &mut self.ends,
            self.moment,
            row,
        );
        self.share = self.share + added - replaced;
        self.room = self.room.min(self.rows.capacity());
    }

    /// Drops the row of the client and kind. False where no such row is kept.
    pub fn remove(&mut self, client: &Client, kind: Kind) -> bool
        ensures found { result ≡ is_some (lease_of client.now kind self.old.rows) }
        ensures rows { IsPermutation (without_row client.now kind self.old.rows) self.new.rows }
        ensures spare { self.old.spare ≤ self.new.spare }
        ensures moment { self.new.moment ≡ self.old.moment }
        ensures port { self.new.port ≡ self.old.port }
        // What the table stands for goes on with the grant's end, at a moment that the table has
        // reached.
        ensures ended { (book j n : ℕ) (history : List Record)
            → StandsBeside book j self.old history →
            n ≤ self.old.moment
            → StandsBeside book j self.new (history ++ Ended n client.now kind ∷ []) }
        ensures shed { (book j n : ℕ) (history : List Record)
            → StandsBeside book j self.old history →
            n ≤ self.old.moment
            → StandsBeside book j self.new (history ++ Shed n client.now kind ∷ []) }
    {
        let Some(lease) = drop_row(&mut self.rows, client, kind) else {
            return false;
        };
        self.share -= rate(lease.log);
        self.room = self.room.min(self.rows.capacity());
        true
    }

    /// Drops the rows whose grants are over at the moment, and makes the moment the table's where
    /// it is later.
    pub fn sweep(&mut self, n: Moment)
        ensures rows { IsPermutation
            (filter (λ row. nat_lt n row.lease.until) self.old.rows) self.new.rows }
        ensures spare { self.old.spare ≤ self.new.spare }
        ensures moment { self.new.moment ≡ max self.old.moment n }
        ensures port { self.new.port ≡ self.old.port }
        // The table stands for what it stood for, beside a book with this moment.
        ensures stands { (book j : ℕ) (history : List Record) →
            StandsBeside book j self.old history → StandsBeside (max book n) j self.new history }
    {
        self.share = drop_ended(&mut self.rows, &mut self.ends, n, self.share);
        self.room = self.room.min(self.rows.capacity());
        self.moment = self.moment.latest(n);
    }

    /// The earliest moment up to `until` at which a turn may have a message to send, or `until`
    /// where there is none before it.
    pub fn next_due(&self, until: Moment) -> Moment
        ensures within { result ≤ until }
        ensures idle { IsIdleUntil result self.now }
    {
        match self.edges.first_until(until) {
            Some(entry) => moment_of(entry),
            None => until,
        }
    }

    /// Sends one message to each client and kind, of Announce and Sync, that is lawful at the
    /// greater of `t` and the table's moment: by earliest lawful moment, then client, then kind. A
    /// failed send spends its period and its sequence number like one that succeeded.
    pub fn turn(&mut self, config: &GmConfig, t: Moment) -> Turned
        ensures at { result.at ≡ max t self.old.moment }
        ensures moment { self.new.moment ≡ result.at }
        // Every lawful message is handed to the port, in order, and nothing else.
        ensures sends { HandsOver P.Port self.old.port self.new.port
            (map (departure_of config.now result.at) (due_messages result.at self.old.rows))
            result.sent result.failed }
        ensures rows { IsPermutation
            (spent_where (is_due_row result.at) result.at self.old.rows) self.new.rows }
        ensures spare { self.old.spare ≤ self.new.spare }
        // They are the messages of a turn after each history that the table stands for, which goes
        // on with the turn.
        ensures messages { (j : ℕ) (history : List Record) → StandsFor j self.old history →
            due_messages result.at self.old.rows
            ≡ map (message_of history) (due_grants history result.at j) }
        ensures stands { (opened : Config) (j : ℕ) (history : List Record)
            → StandsFor j self.old history →
            StandsFor j self.new (history ++ (step opened history result.at (Turn j)).records) }
    {
        let at = t.latest(self.moment);
        let sends = send_due(&mut self.rows, &mut self.edges, &mut self.port, config, at);
        self.moment = at;
        Turned {
            at,
            sent: sends.sent,
            failed: sends.failed,
        }
    }

    /// Answers a Delay_Req of the client at the greater of `t` and the table's moment: by one
    /// Delay_Resp exactly where one is lawful. A failed send spends its period like one that
    /// succeeded.
    pub fn answer_delay(
        &mut self,
        config: &GmConfig,
        t: Moment,
        client: &Client,
        request: &Header,
    ) -> Answered
        ensures at { moment_of_answer result ≡ max t self.old.moment }
        ensures moment { self.new.moment ≡ max t self.old.moment }
        ensures answer { met_by result
            ≡ answer_by self.new.moment (lease_of client.now DelayResp self.old.rows) }
        ensures sends { HandsOver P.Port self.old.port self.new.port
            (responses (met_by result)
            (response_of config.now self.new.moment client.now request.now))
            (sent_by result) (failed_by result) }
        ensures rows { IsPermutation
            (spent_where
            (is_answering_row self.new.moment client.now) self.new.moment self.old.rows)
            self.new.rows }
        ensures spare { self.old.spare ≤ self.new.spare }
        // It is the answer after each history that the table stands for, which goes on with the
        // Delay_Req.
        ensures met { (history : List Record) → StandsFor (table_of client.now) self.old history →
            met_by result ≡ delay_answer history self.new.moment client.now }
        ensures stands { (opened : Config) (history : List Record) →
            StandsFor (table_of client.now) self.old history →
            StandsFor (table_of client.now) self.new
            (history ++ (step opened history self.new.moment (DelayReq client.now)).records) }
    {
        let at = t.latest(self.moment);
        let lease = spend_answering(&mut self.rows, at, *client);
        self.moment = at;
        answer_request(&mut self.port, config, at, client, request, lease)
    }

    /// The port that the messages of this table are sent by.
    pub fn port(&mut self) -> &mut P
        ensures* lends { sem 𝓛 (LendsPort P.row P.Port self.entry result) }
        ensures value { result.now ≡ self.old.port }
    {
        &mut self.port
    }

    /// The port, as it is. The rest is dropped.
    pub fn into_port(self) -> P
        ensures { result ≡ self.port }
    {
        let Shard { port, .. } = self;
        port
    }
}
