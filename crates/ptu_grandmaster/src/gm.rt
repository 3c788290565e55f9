//! The type `Gm`: a grandmaster with its four tables, its book and its five ports.

ghost use Rattle.std.specs.{Prelude.{◌≡◌, ◌<◌, ◌≤◌, ℕ, [], List, length}, Borrow.{sem}};
ghost use Rattle.ptu_history.specs.History.{Record};
ghost use Rattle.ptu_shard.specs.Table.{IsIdleUntil};
ghost use Rattle.ptu_grandmaster.specs.{Gm.{StandsFor, port_at, table_at}, Lends.{LendsPort}};

use crate::outcome::{Outcome, Taken};
use ptu_admit::Book;
use ptu_gm_messages::HearingRoom;
use ptu_outside::Port;
use ptu_profile::GmConfig;
use ptu_shard::Shard;
use ptu_units::{Capacity, Moment};
use std::alloc::Global;
use std::marker::Model;

/// The index of the port of the Signaling messages. The ports of the four tables are below it.
pub const SIGNALING_PORT: usize = 4;

/// A grandmaster, with its four tables, its book, and the port of its Signaling messages. The
/// shares of the tables sum to the book's total.
#[derive(Drop)]
pub struct Gm<P: Port> {
    pub(crate) alloc: Global,
    pub(crate) config: GmConfig,
    pub(crate) s0: Shard<P>,
    pub(crate) s1: Shard<P>,
    pub(crate) s2: Shard<P>,
    pub(crate) s3: Shard<P>,
    pub(crate) book: Book,
    pub(crate) reply: P,
    pub(crate) granted: u64,
    pub(crate) refused: u64,
    // The sequenceId of the next CANCEL.
    pub(crate) sequence: u16,
    // Room for the lists of a Signaling, and for what its items come to.
    pub(crate) hearing: HearingRoom,
    pub(crate) outcomes: Vec<Outcome>,
}

impl<P: Port> Model for Gm<P> {
    ghost use Rattle.std.specs.Prelude.{◌≡◌};
    ghost use Rattle.ptu_admit.specs.Lent.{four, shares};
    ghost use Rattle.ptu_grandmaster.specs.Gm.{KeptGm};

    ghost Value = { KeptGm P };

    ghost view = { λ g. record {
      config = g.config;
      s0 = g.s0;
      s1 = g.s1;
      s2 = g.s2;
      s3 = g.s3;
      book = g.book;
      reply = g.reply;
      granted = g.granted;
      refused = g.refused;
      sequence = g.sequence;
    } };

    ghost invariant = { λ g. g.book.total ≡ shares (four g.s0 g.s1 g.s2 g.s3) };
}

impl<P: Port> Gm<P> {
    /// A grandmaster without grants, of this capacity, at moment 0. The first four ports are those
    /// of its tables, and the last is that of its Signaling messages.
    pub fn new(
        alloc: Global,
        config: GmConfig,
        capacity: Capacity,
        p0: P,
        p1: P,
        p2: P,
        p3: P,
        reply: P,
    ) -> Gm<P>
        ensures config { result.config ≡ config }
        ensures ports { (result.s0.port ≡ p0) × (result.s1.port ≡ p1) × (result.s2.port ≡ p2)
            × (result.s3.port ≡ p3) × (result.reply ≡ reply) }
        ensures empty { (result.s0.rows ≡ []) × (result.s1.rows ≡ []) × (result.s2.rows ≡ [])
            × (result.s3.rows ≡ []) }
        ensures stands { StandsFor capacity result [] }
    {
        Gm {
            alloc,
            config,
            s0: Shard::new(alloc, p0),
            s1: Shard::new(alloc, p1),
            s2: Shard::new(alloc, p2),
            s3: Shard::new(alloc, p3),
            book: Book::new(capacity),
            reply,
            granted: 0,
            refused: 0,
            sequence: 0,
            hearing: HearingRoom::new(alloc),
            outcomes: Vec::new(alloc),
        }
    }

    /// Returns the result of `take`, so that its buffer is used again for the next Signaling.
    pub fn give_back(&mut self, taken: Taken)
        ensures { self.new ≡ self.old }
    {
        if let Taken::Asked(outcomes, _) = taken {
            self.outcomes = outcomes.into_list();
        }
    }

    /// From now on its Announces have this clockClass.
    pub fn set_class(&mut self, class: u8)
        ensures changed { self.new ≡ record self.old {
          config = record self.old.config { class = class };
        } }
        ensures stands { (opening : ℕ) (history : List Record) →
            StandsFor opening self.old history → StandsFor opening self.new history }
    {
        self.config.class = class;
    }

    /// The port of the table of this index, from 0 to 3, or that of the Signaling messages at 4.
    pub fn ports(&mut self, index: usize) -> &mut P
        requires { index < 5 }
        ensures* lends { sem 𝓛 (LendsPort P.row P.Port index self.entry result) }
        ensures value { result.now ≡ port_at index self.old }
    {
        match index {
            0 => self.s0.port(),
            1 => self.s1.port(),
            2 => self.s2.port(),
            3 => self.s3.port(),
            _ => &mut self.reply,
        }
    }

    /// How many rows the table of this index, from 0 to 3, keeps. A turn of it hands at most so
    /// many datagrams to its port.
    pub fn count(&self, table: usize) -> usize
        requires { table < 4 }
        ensures { result ≡ length (table_at table self.now).rows }
    {
        match table {
            0 => self.s0.count(),
            1 => self.s1.count(),
            2 => self.s2.count(),
            _ => self.s3.count(),
        }
    }

    /// The earliest moment up to `until` at which a turn of some table may have a message to send,
    /// or `until` where there is none before it.
    pub fn next_due(&self, until: Moment) -> Moment
        ensures within { result ≤ until }
        ensures idle { (i : ℕ) → IsIdleUntil result (table_at i self.now) }
    {
        let first = self.s0.next_due(until);
        let second = self.s1.next_due(first);
        let third = self.s2.next_due(second);
        self.s3.next_due(third)
    }
}
