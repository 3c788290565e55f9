//! Turns of tables, and answers to Delay_Reqs.

ghost use Rattle.std.specs.Prelude.{◌≡◌, ◌<◌, ℕ, max, List, ◌++◌, map};
ghost use Rattle.ptu_outside.specs.HandsOver.{HandsOver};
ghost use Rattle.ptu_units.specs.Client.{table_of as table_of_client};
ghost use Rattle.ptu_history.specs.{Core.{core_step, table_step_moment}, History.{Record}};
ghost use Rattle.ptu_history.specs.{Step.{delay_answer}, Turns.{due_grants, message_of}};
ghost use Rattle.ptu_history.specs.Events as events;
ghost use Rattle.ptu_shard.specs.{Answered.{met_by, moment_of_answer}, Messages.{departure_of}};
ghost use Rattle.ptu_shard.specs.Turn.{due_messages};
ghost use Rattle.ptu_gm_messages.specs.Deciding.{opened_with};
ghost use Rattle.ptu_grandmaster.specs.{Gm.{StandsFor, table_at, with_table}, Taking.{Responds}};

use crate::gm::Gm;
use ptu_messages::Header;
use ptu_outside::Port;
use ptu_shard::{Answered, Turned};
use ptu_units::{Client, Moment, table_of};

impl<P: Port> Gm<P> {
    /// The table of this index, from 0 to 3, takes a turn at the greatest of `t`, the book's moment
    /// and its own: it sends one message to each client and kind, of Announce and Sync, that is
    /// lawful, by earliest lawful moment, then client, then kind. A failed send spends its period
    /// and its sequence number like one that succeeded.
    pub fn turn(&mut self, table: usize, t: Moment) -> Turned
        requires { table < 4 }
        ensures at { result.at ≡ max (max t self.old.book.moment) (table_at table self.old).moment }
        // Every lawful message is handed to the table's port, in order, and nothing else.
        ensures sends { let old = table_at table self.old in let new = table_at table self.new in
            HandsOver P.Port old.port new.port
            (map (departure_of self.old.config result.at) (due_messages result.at old.rows))
            result.sent result.failed }
        // Nothing else has changed.
        ensures rest { self.new ≡ with_table table (table_at table self.new) self.old }
        // They are the messages of the core's turn after each history that the grandmaster stands
        // for, which goes on with it.
        ensures messages { (opening : ℕ) (history : List Record) →
            StandsFor opening self.old history →
            (result.at ≡ table_step_moment history t table)
            × (due_messages result.at (table_at table self.old).rows
            ≡ map (message_of history) (due_grants history result.at table)) }
        ensures stands { (opening : ℕ) (history : List Record) →
            StandsFor opening self.old history →
            StandsFor opening self.new (history
            ++ (core_step (opened_with opening self.old.config) history t
            (events.Turn table)).records) }
    {
        let t = t.latest(self.book.now());
        match table {
            0 => self.s0.turn(&self.config, t),
            1 => self.s1.turn(&self.config, t),
            2 => self.s2.turn(&self.config, t),
            _ => self.s3.turn(&self.config, t),
        }
    }

    // Answers a Delay_Req of the client at the greatest of `t`, the book's moment and that of the
    // client's table.
    pub(crate) fn answer_delay(&mut self, t: Moment, client: &Client, header: &Header) -> Answered
        ensures sends { let j = table_of_client client.now in
            Responds P.Port self.old.config client.now header.now result
            (table_at j self.old).port (table_at j self.new).port }
        ensures rest { let j = table_of_client client.now in
            self.new ≡ with_table j (table_at j self.new) self.old }
        ensures met { (opening : ℕ) (history : List Record) →
            StandsFor opening self.old history →
            let x = table_step_moment history t (table_of_client client.now) in
            (moment_of_answer result ≡ x) × (met_by result ≡ delay_answer history x client.now) }
        ensures stands { (opening : ℕ) (history : List Record) →
            StandsFor opening self.old history →
            StandsFor opening self.new (history
            ++ (core_step (opened_with opening self.old.config) history t
            (events.DelayReq client.now)).records) }
    {
        let t = t.latest(self.book.now());
        match table_of(client) {
            0 => self.s0.answer_delay(&self.config, t, client, header),
            1 => self.s1.answer_delay(&self.config, t, client, header),
            2 => self.s2.answer_delay(&self.config, t, client, header),
            _ => self.s3.answer_delay(&self.config, t, client, header),
        }
    }
}
