//! Datagrams as a grandmaster takes them.

ghost use Rattle.std.specs.Prelude.{◌≡◌, ℕ, List, IfOk, OnErr, map};
ghost use Rattle.ptu_messages.specs.MessageFault.{IsSignaling};
ghost use Rattle.ptu_units.specs.Client.{table_of};
ghost use Rattle.ptu_history.specs.{Core.{history_after}, History.{Record}};
ghost use Rattle.ptu_gm_messages.specs.Deciding.{client_of, events_of_datagram, opened_with};
ghost use Rattle.ptu_gm_messages.specs.{Items.{AreAnswerable, heard_in}, Replies.{reply_to}};
ghost use Rattle.ptu_grandmaster.specs.Deciding.{AllCome};
ghost use Rattle.ptu_grandmaster.specs.Gm.{HasKeptPorts, IsUnchanged, StandsFor, table_at, with_table};
ghost use Rattle.ptu_grandmaster.specs.Outcomes.{answers_seen, decisions_seen, item_seen};
ghost use Rattle.ptu_grandmaster.specs.Taking.{ComesTo, IsAnswerTo, OnAsked, OnDelay, OnIgnored, Replies, Responds};

use crate::gm::Gm;
use crate::outcome::{Outcomes, Taken};
use crate::replying::send_reply;
use ptu_gm_messages::{Heard, Item, client_of, hear_in};
use ptu_messages::Header;
use ptu_outside::{Port, Reply};
use ptu_units::{Client, Moment, OutOfMemory};
use std::mem::replace;

impl<P: Port> Gm<P> {
    // Makes room first, then decides the items of the client, in order.
    fn decide_asks(
        &mut self,
        t: Moment,
        client: &Client,
        items: &[Item],
    ) -> Result<Outcomes, OutOfMemory>
        ensures unchanged { OnErr result (IsUnchanged self.old self.new) }
        ensures stands { OnErr result ((opening : ℕ) (history : List Record) →
            StandsFor opening self.old history → StandsFor opening self.new history) }
        ensures items { IfOk result (λ outcomes. map item_seen outcomes ≡ items.now) }
        ensures decided { IfOk result (λ outcomes.
            AllCome t client.now items.now self.old self.new (decisions_seen outcomes)) }
        ensures keeps { HasKeptPorts self.old self.new }
    {
        let mut outcomes = replace(&mut self.outcomes, Vec::new(self.alloc));
        outcomes.clear();
        outcomes.reserve(items.len())?;
        self.reserve(client, items.len())?;
        Ok(self.decide_items(t, client, items, outcomes))
    }

    /// Takes a datagram that came from this IPv4 address, at the core's moment for `t`: a Delay_Req
    /// is answered by one Delay_Resp where one is lawful; each REQUEST and CANCEL of a Signaling is
    /// decided, in order, and one Signaling with the answers goes back to the sender. All other
    /// datagrams are ignored (IEEE 1588-2019 clauses 11.3 and 16.1.4).
    ///
    /// # Errors
    /// `OutOfMemory` comes for a Signaling alone. Then no grant, moment or port has changed.
    pub fn take(&mut self, t: Moment, from: u32, bytes: &[u8]) -> Result<Taken, OutOfMemory>
        ensures answer { IfOk result
            (λ taken. IsAnswerTo (heard_in self.old.config bytes.now) taken) }
        // Where it is ignored, nothing has changed.
        ensures ignored { IfOk result (λ taken. OnIgnored taken (self.new ≡ self.old)) }
        // The answer to a Delay_Req goes by the port of the client's table, and nothing else has
        // changed.
        ensures delay { IfOk result (λ taken. OnDelay (heard_in self.old.config bytes.now) taken
            (λ header answered. let c = client_of from header in let j = table_of c in
            Responds P.Port self.old.config c header answered
            (table_at j self.old).port (table_at j self.new).port
            × (self.new ≡ with_table j (table_at j self.new) self.old))) }
        // The reply goes by its own port, and no port of a table has changed.
        ensures reply { IfOk result (λ taken. OnAsked (heard_in self.old.config bytes.now) taken
            (λ header outcomes reply.
            Replies P.Port reply self.old.reply self.new.reply
            (reply_to self.old.config from header (answers_seen outcomes)))) }
        ensures ports { IfOk result (λ taken. OnAsked (heard_in self.old.config bytes.now) taken
            (λ header outcomes reply.
            (self.new.s0.port ≡ self.old.s0.port) × (self.new.s1.port ≡ self.old.s1.port)
            × (self.new.s2.port ≡ self.old.s2.port) × (self.new.s3.port ≡ self.old.s3.port))) }
        ensures waiting { P.waiting self.new.reply ≡ P.waiting self.old.reply }
        ensures config { self.new.config ≡ self.old.config }
        // What it comes to is what the core does, after each history that the grandmaster stands
        // for, which goes on with the datagram's events.
        ensures comes { (opening : ℕ) (history : List Record) →
            StandsFor opening self.old history →
            IfOk result (λ taken. ComesTo (opened_with opening self.old.config) history t from
            (heard_in self.old.config bytes.now) taken) }
        ensures stands { (opening : ℕ) (history : List Record) →
            StandsFor opening self.old history →
            IfOk result (λ taken. StandsFor opening self.new
            (history_after (opened_with opening self.old.config) history
            (events_of_datagram self.old.config t from bytes.now))) }
        // Memory is wanted for a Signaling alone. Then no grant, moment or port has changed.
        ensures memory { OnErr result ((n : ℕ) × IsSignaling bytes.now n) }
        ensures unchanged { OnErr result (IsUnchanged self.old self.new) }
        ensures still { OnErr result ((opening : ℕ) (history : List Record) →
            StandsFor opening self.old history → StandsFor opening self.new history) }
    {
        match hear_in(self.alloc, &mut self.hearing, &self.config, bytes)? {
            Err(reason) => Ok(Taken::Ignored(reason)),
            Ok(Heard::DelayReq(header)) => {
                let answered = self.answer_delay(t, &client_of(from, &header), &header);
                Ok(Taken::Delay(answered))
            }
            Ok(Heard::Asks(header, items)) => {
                let outcomes = self.decide_asks(t, &client_of(from, &header), items.list())?;
                self.hearing.keep(items);
                let reply = send_reply(
                    &mut self.reply,
                    &self.config,
                    from,
                    &header,
                    &outcomes,
                    &mut self.hearing.reply,
                );
                Ok(Taken::Asked(outcomes, reply))
            }
        }
    }
}
