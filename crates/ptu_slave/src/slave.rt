//! The slave that callers see: each of its calls is one event.

ghost use Rattle.std.specs.Prelude.{◌≡◌, ◌≢◌, ℕ, ◌<◌, ◌≤◌, max, Bool, List, [], ◌∷◌, ◌++◌, map, take, length, Option, Ok, Err, All, true, option_map, IfOk, IfNone, IfSome, OnErr, OnOk, IsOk, IsErr, vec_len};
ghost use Rattle.std.specs.List.{AllByRecursion};
ghost use Rattle.ptu_messages.specs.declared.message.Message.{Message};
ghost use Rattle.ptu_messages.specs.MessageFault.{IsSignaling};
ghost use Rattle.ptu_messages.specs.declared.message.Body.TheVariants as body;
ghost use Rattle.ptu_outside.specs.{Faults.{HasNotFallen, HasRisen, one_more}, HandsOver.{HandsOver}};
ghost use Rattle.ptu_outside.specs.Telling.{IfTold, IsEmptyTold, IsFirstTold, rest_told};
ghost use Rattle.ptu_outside.specs.Replies.{reply_failed, reply_sent};
ghost use Rattle.ptu_record.specs.{declared.rule.Rule.{Rule}, Record.{Record, event_moment}};
ghost use Rattle.ptu_record.specs.{Selection.{selected_master}, Step.{TakeSync}};
ghost use Rattle.ptu_judges.specs.{Held.{IsFresh}, Calls.{OfOne, Then, WasAsked, WasHeard}};
ghost use Rattle.ptu_profile.specs.Slave.{AreMasters, address_of, priorities, timeouts};
ghost use Rattle.ptu_slave_messages.specs.Heard.{FitsReply, answer_of, event_of, heard_of, replies_in, reply_datagrams, reply_in, taken_of};
ghost use Rattle.ptu_slave_messages.specs.Reception.{reception};
ghost use Rattle.ptu_slave_messages.specs.declared.reason.SlaveReason.{SlaveReason};
ghost use Rattle.ptu_slave.specs.Kept.{IsSame};
ghost use Rattle.ptu_slave.specs.Standing.{IsIdleUntil, StandsFor, Steps, StepsBy, selected_address};

use crate::events::{
    replace_judge, take_announce, take_delay_resp, take_follow_up, take_news, take_signaling,
};
use crate::judging::{News, judge_all};
use crate::node::Core;
use crate::porting::HasPort;
use crate::ticked::Ticked;
use crate::ticks::{Occasion, send_all, tick_all};
use ptu_judges::Judge;
use ptu_outside::{Failed, Port};
use ptu_profile::{Master, SlaveConfig};
use ptu_slave_messages::{Accepted, Content, Heard, receive, send_reply};
use ptu_units::sizes::LONGEST_DATAGRAM;
use ptu_units::{Moment, OutOfMemory};
use std::alloc::Global;

/// A slave with the port that its messages are handed to.
///
/// It stands for records of what a slave took and did (`StandsFor`): each event carries such a
/// record on by the entries of a step. What is seen of it is `Seen`.
#[derive(Drop)]
pub struct Slave<P> {
    // What it keeps beside its judges and its port.
    core: Core,
    // The judge of each master, in the order of the masters.
    judges: Vec<Box<dyn Judge>>,
    port: P,
    ghost each_judged: { vec_len judges ≡ length core.masters },
}

impl<P: Port> Slave<P> {
    ghost use Rattle.ptu_slave.specs.Seen.{HasJudges, seen};
    ghost use Rattle.ptu_slave.specs.Events.{Goes, GoesBy, HasStopped, HasTicked, IsFlagged, IsReplaced};

    /// A slave with these masters, of at most 16 addresses, each of its own, and with a judge for
    /// each of them; a judge that has a rule is fresh.
    ///
    /// # Errors
    /// `OutOfMemory` for what is kept of the masters. The judges and the port are dropped then.
    #[tactic(auto, unfolding(crate::specs::Seen::seen))]
    pub fn new(
        alloc: Global,
        config: SlaveConfig,
        masters: Vec<Master>,
        judges: Vec<Box<dyn Judge>>,
        port: P,
    ) -> Result<Slave<P>, OutOfMemory>
        requires masters { AreMasters masters.items }
        requires judges { length judges.items ≡ length masters.items }
        requires fresh { All (λ j. IsFresh (held j)) judges.items }
        ensures judged { IfOk result (λ s. HasJudges (seen held s)) }
        ensures config { IfOk result (λ s. (seen held s).kept.config ≡ config) }
        ensures masters { IfOk result (λ s.
            (seen held s).kept.masters ≡ masters.items) }
        ensures judges { IfOk result (λ s.
            (seen held s).judges ≡ map held judges.items) }
        ensures boxes { IfOk result (λ s. (seen held s).boxes ≡ judges.items) }
        ensures port { IfOk result (λ s. (seen held s).port ≡ port) }
        ensures stands { IfOk result (λ s. StandsFor (map (λ j. (held j).rule) judges.items)
            (seen held s).kept (seen held s).judges []) }
    {
        let core = Core::new(alloc, config, masters)?;
        Ok(Slave { core, judges, port })
    }

    /// The slave anew, with one master more at the end of its list and the judge of this master;
    /// what the others were told and asked is not kept, so a judge that has a rule is to be fresh.
    ///
    /// # Errors
    /// `OutOfMemory` for what is kept of the masters, or for the list of judges. The slave and its
    /// port are dropped then.
    #[tactic(auto, unfolding(crate::specs::Seen::seen))]
    pub fn with_master(
        self,
        alloc: Global,
        master: Master,
        judge: Box<dyn Judge>,
    ) -> Result<Slave<P>, OutOfMemory>
        requires masters { AreMasters ((seen held self).kept.masters
            ++ master ∷ []) }
        requires fresh { AllByRecursion IsFresh
            ((seen held self).judges ++ held judge ∷ []) }
        ensures judged { IfOk result (λ s. HasJudges (seen held s)) }
        ensures config { IfOk result (λ s.
            (seen held s).kept.config ≡
            (seen held self).kept.config) }
        ensures masters { IfOk result (λ s.
            (seen held s).kept.masters ≡
            (seen held self).kept.masters ++ master ∷ []) }
        ensures judges { IfOk result (λ s.
            (seen held s).judges ≡ (seen held self).judges
            ++ held judge ∷ []) }
        ensures boxes { IfOk result (λ s.
            (seen held s).boxes ≡ (seen held self).boxes
            ++ judge ∷ []) }
        ensures port { IfOk result (λ s.
            (seen held s).port ≡ (seen held self).port) }
        ensures stands { IfOk result (λ s. let new = seen held s in
            StandsFor (map (λ j. j.rule) new.judges) new.kept new.judges []) }
    {
        let Slave {
            core,
            mut judges,
            port,
        } = self;
        let masters = masters_with(alloc, core.masters(), master)?;
        judges.push(judge)?;
        let slave = Slave::new(alloc, *core.config(), masters, judges, port)?;
        Ok(slave)
    }

    /// A datagram from this IPv4 address. One that is ignored is no event, and changes nothing.
    ///
    /// # Errors
    /// Where memory for the message and for what it says was not found, which only a Signaling
    /// wants; nothing has changed then.
    #[tactic(auto, unfolding(crate::specs::Seen::seen))]
    pub fn take(
        &mut self,
        alloc: Global,
        t: Moment,
        from: u32,
        bytes: &[u8],
    ) -> Result<Heard, OutOfMemory>
        ensures memory { IsErr result → (n : ℕ) × IsSignaling bytes.now n }
        ensures unchanged { IsErr result →
            seen held self.new ≡ seen held self.old }
        ensures judged { HasJudges (seen held self.new) }
        ensures answer { let old = (seen held self.old).kept in
            IfOk result (λ heard. heard ≡ answer_of old.config.wants (max t old.moment)
            (reply_in heard) (reception old.config old.masters from bytes.now)) }
        ensures ignored { let old = (seen held self.old).kept in
            (reason : SlaveReason) →
            reception old.config old.masters from bytes.now ≡ Err reason →
            seen held self.new ≡ seen held self.old }
        ensures steps { let old = seen held self.old in
            (m : ℕ) (message : Message) →
            reception old.kept.config old.kept.masters from bytes.now ≡ Ok (m, message) →
            IsOk result → Goes old (seen held self.new) t (event_of m message) }
        // A Sync is told to the judge of its master, who is then asked.
        ensures judge { let old = seen held self.old in
            (m : ℕ) (message : Message) (stamp : _) →
            reception old.kept.config old.kept.masters from bytes.now ≡ Ok (m, message) →
            message.body ≡ body.Sync stamp → IsOk result → (found : Bool) × OfOne m
            (Then (WasHeard hears (max t old.kept.moment)
            message.header.sequence)
            (WasAsked finds (max t old.kept.moment) found))
            old.boxes (seen held self.new).boxes
            × GoesBy (found ∷ []) old (seen held self.new) t
            (TakeSync m message.header.sequence) }
        // No other message is told to a judge.
        ensures others { let old = seen held self.old in (m : ℕ)
            (message : Message) →
            reception old.kept.config old.kept.masters from bytes.now ≡ Ok (m, message) →
            event_of m message ≢ TakeSync m message.header.sequence →
            (seen held self.new).boxes ≡ old.boxes }
        ensures sends { let old = seen held self.old in IfOk result (λ heard.
            HandsOver P.Port old.port (seen held self.new).port
            (replies_in old.kept.config old.kept.masters
            (reception old.kept.config old.kept.masters from bytes.now))
            (reply_sent (reply_in heard)) (reply_failed (reply_in heard))) }
        ensures same { IsSame (seen held self.old).kept
            (seen held self.new).kept }
    {
        let received = receive(alloc, self.core.config(), self.core.masters(), from, bytes)?;
        match received {
            Ok(taken) => Ok(hear(&mut self.core, &mut self.judges, &mut self.port, t, taken)),
            Err(reason) => Ok(Heard::Ignored(reason)),
        }
    }

    /// A tick: all judges are asked, and each master is sent the Signaling and the Delay_Req that
    /// are due. After a stop nothing is sent.
    #[tactic(auto, unfolding(crate::specs::Seen::seen))]
    pub fn tick(&mut self, t: Moment) -> Ticked
        ensures judged { HasJudges (seen held self.new) }
        ensures same { IsSame (seen held self.old).kept
            (seen held self.new).kept }
        ensures ticked { HasTicked finds P.Port t
            (seen held self.old)
            (seen held self.new) result }
    {
        let at = self.core.begin(t);
        judge_all(&mut self.core, &mut self.judges, at);
        let sends = tick_all(&mut self.core, &mut self.port, at);
        Ticked {
            at,
            sent: sends.sent,
            failed: sends.failed,
        }
    }

    /// The stop: each master that has a live grant is sent a Signaling that cancels all of them;
    /// the slave holds them for ended, and its ticks send nothing more.
    #[tactic(auto, unfolding(crate::specs::Seen::seen))]
    pub fn stop(&mut self, t: Moment) -> Ticked
        ensures judged { HasJudges (seen held self.new) }
        ensures same { IsSame (seen held self.old).kept
            (seen held self.new).kept }
        ensures stopped { HasStopped P.Port t (seen held self.old)
            (seen held self.new) result }
    {
        let at = self.core.begin(t);
        let sends = send_all(&mut self.core, &mut self.port, at, Occasion::Stop);
        self.core.stop();
        Ticked {
            at,
            sent: sends.sent,
            failed: sends.failed,
        }
    }

    /// The operator says whether the master at a place is unusable.
    #[tactic(auto, unfolding(crate::specs::Seen::seen))]
    pub fn flag(&mut self, t: Moment, master: usize, unusable: bool)
        requires { master < length (seen held self.old).kept.masters }
        ensures judged { HasJudges (seen held self.new) }
        ensures same { IsSame (seen held self.old).kept
            (seen held self.new).kept }
        ensures flagged { IsFlagged is_told finds t master unusable
            (seen held self.old) (seen held self.new) }
    {
        take_news(
            &mut self.core,
            &mut self.judges,
            t,
            master,
            News::Word(unusable),
        );
    }

    /// Another judge takes over the master at a place; it is fresh where it has a rule. The former
    /// one is dropped.
    #[tactic(auto, unfolding(crate::specs::Seen::seen))]
    pub fn set_judge(&mut self, t: Moment, master: usize, judge: Box<dyn Judge>)
        requires master { master < length (seen held self.old).kept.masters }
        requires fresh { IsFresh (held judge) }
        ensures judged { HasJudges (seen held self.new) }
        ensures same { IsSame (seen held self.old).kept
            (seen held self.new).kept }
        ensures replaced { IsReplaced held finds t master judge
            (seen held self.old) (seen held self.new) }
    {
        replace_judge(&mut self.core, &mut self.judges, t, master, judge);
    }

    /// The address of the master that is selected at `t`, or at the slave's moment where that is
    /// later; `None` exactly where none is eligible. It is no event and raises no moment.
    #[tactic(auto, unfolding(crate::specs::Seen::seen))]
    pub fn selected_address(&mut self, t: Moment) -> Option<u32>
        ensures selected { let old = seen held self.old in
            (openings : List (Option Rule)) (L : Record) →
            StandsFor openings old.kept old.judges L →
            result ≡ selected_address old.kept L t }
        ensures unchanged { seen held self.new ≡
            seen held self.old }
    {
        let place = self.core.selected(t);
        address(self.core.masters(), place)
    }

    /// The place of the same master in the list of masters.
    #[tactic(auto, unfolding(crate::specs::Seen::seen))]
    pub fn selected(&mut self, t: Moment) -> Option<usize>
        ensures selected { let old = seen held self.old in
            (openings : List (Option Rule)) (L : Record) →
            StandsFor openings old.kept old.judges L →
            result ≡ selected_master (timeouts old.kept.config) (priorities old.kept.masters)
            L (event_moment L t) }
        ensures unchanged { seen held self.new ≡
            seen held self.old }
    {
        self.core.selected(t)
    }

    /// The earliest moment up to `until` at which a tick may send something or another master may
    /// be selected, where nothing happens to the slave before it; `until` where there is none. It
    /// is no event.
    #[tactic(auto, unfolding(crate::specs::Seen::seen))]
    pub fn next_due(&mut self, until: Moment) -> Moment
        ensures within { result ≤ until }
        ensures idle { let old = seen held self.old in
            (openings : List (Option Rule)) (L : Record) →
            StandsFor openings old.kept old.judges L → IsIdleUntil result openings old.kept L }
        ensures unchanged { seen held self.new ≡
            seen held self.old }
    {
        self.core.next_due(until)
    }

    /// The masters of the slave, in their order.
    #[tactic(auto, unfolding(crate::specs::Seen::seen))]
    pub fn masters(&self) -> &[Master]
        ensures { result.now ≡ (seen held self.now).kept.masters }
    {
        self.core.masters()
    }

    /// Receives the first datagram that waits at the port, as `Port::receive` does: the sender's
    /// IPv4 address, and the number of octets at the front of `buf`; `None` if none waits.
    ///
    /// # Errors
    /// `Failed` if the port fails. What waits is as before then.
    #[tactic(auto, unfolding(crate::specs::Seen::seen))]
    pub fn receive(
        &mut self,
        buf: &mut [u8; LONGEST_DATAGRAM],
    ) -> Result<Option<(u32, usize)>, Failed>
        ensures within { IfOk result (λ got. IfSome got (λ a. a.1 ≤ 2048)) }
        ensures first { IfOk result (λ got. IfSome got (λ a.
            IsFirstTold (P.waiting (seen held self.old).port)
            (record { ip = a.0; bytes = take a.1 buf.new }))) }
        ensures nothing { IfOk result (λ got. IfNone got
            (IsEmptyTold (P.waiting (seen held self.old).port))) }
        ensures rest { IfOk result (λ got. IfSome got (λ a.
            IfTold (P.waiting (seen held self.new).port)
            (rest_told (P.waiting (seen held self.old).port)))) }
        ensures left { IfOk result (λ got. IfNone got
            (IfTold (P.waiting (seen held self.new).port)
            (P.waiting (seen held self.old).port))) }
        ensures kept { OnErr result (IfTold (P.waiting (seen held self.new).port)
            (P.waiting (seen held self.old).port)) }
        ensures sent { P.sent (seen held self.new).port
            ≡ P.sent (seen held self.old).port }
        ensures risen { OnErr result (HasRisen (P.faults
            (seen held self.old).port)
            (P.faults (seen held self.new).port)) }
        ensures once { OnErr result (P.counts_once ≡ true →
            P.faults (seen held self.new).port
            ≡ one_more (P.faults (seen held self.old).port)) }
        ensures quiet { OnOk result (P.faults (seen held self.new).port
            ≡ P.faults (seen held self.old).port) }
        ensures no_fall { HasNotFallen (P.faults (seen held self.old).port)
            (P.faults (seen held self.new).port) }
        ensures rest_is { seen held self.new ≡ record
            (seen held self.old)
            { port = (seen held self.new).port } }
    {
        self.port.receive(buf)
    }

    /// The port, as it is. The rest is dropped.
    #[tactic(auto, unfolding(crate::specs::Seen::seen))]
    pub fn into_port(self) -> P
        ensures { result ≡ (seen held self).port }
    {
        let Slave { port, .. } = self;
        port
    }
}

impl<P: Port> HasPort<P> for Slave<P> {
    ghost port_of = { λ s. s.port };

    ghost with_port = { λ s p. record s { port = p } };

    fn port(&mut self) -> &mut P {
        &mut self.port
    }
}

// The masters, and one more at the end.
fn masters_with(
    alloc: Global,
    masters: &[Master],
    master: Master,
) -> Result<Vec<Master>, OutOfMemory>
    ensures { IfOk result (λ all. all.items ≡ masters.now ++ master ∷ []) }
{
    let mut all = masters.to_vec(alloc)?;
    all.push(master)?;
    Ok(all)
}

// The address of the master at the place.
fn address(masters: &[Master], place: Option<usize>) -> Option<u32>
    ensures { IfSome place (λ m. m < length masters.now) →
        result ≡ option_map (address_of masters.now) place }
{
    let master = masters.get(place?)?;
    Some(master.ip)
}

// Takes a message of a master.
fn hear<P: Port>(
    core: &mut Core,
    judges: &mut Vec<Box<dyn Judge>>,
    port: &mut P,
    t: Moment,
    taken: Accepted,
) -> Heard
    requires master { taken.master < length core.old.masters }
    requires judges { length judges.old.items ≡ length core.old.masters }
    requires reply { FitsReply taken.content }
    ensures heard { (message : Message) →
        taken ≡ taken_of core.old.config.wants (taken.master, message) →
        result ≡ heard_of core.old.config.wants (max t core.old.moment) (reply_in result)
        (taken.master, message) }
    ensures judge { taken.content ≡ Content.Sync → (found : Bool) × OfOne taken.master
        (Then (WasHeard hears (max t core.old.moment) taken.sequence)
        (WasAsked finds (max t core.old.moment) found))
        judges.old.items judges.new.items × ((openings : List (Option Rule)) (L : Record) →
        StandsFor openings core.old (map held judges.old.items) L →
        StepsBy (found ∷ []) openings core.old core.new (map held judges.new.items) L t
        (TakeSync taken.master taken.sequence)) }
    ensures others { taken.content ≢ Content.Sync → judges.new.items ≡ judges.old.items }
    ensures steps { (message : Message) →
        taken ≡ taken_of core.old.config.wants (taken.master, message) →
        (openings : List (Option Rule)) (L : Record) →
        StandsFor openings core.old (map held judges.old.items) L →
        Steps openings core.old core.new (map held judges.new.items) L t
        (event_of taken.master message) }
    ensures sends { (message : Message) →
        taken ≡ taken_of core.old.config.wants (taken.master, message) →
        HandsOver P.Port port.old port.new
        (reply_datagrams core.old.config core.old.masters (taken.master, message))
        (reply_sent (reply_in result)) (reply_failed (reply_in result)) }
    ensures same { IsSame core.old core.new }
    ensures judges { length judges.new.items ≡ length judges.old.items }
{
    let Accepted {
        master,
        source,
        sequence: seq,
        content,
    } = taken;
    match content {
        Content::Announce(class) => {
            let at = take_announce(core, t, master, class);
            Heard::Announce { at, master, class }
        }
        Content::Sync => {
            let at = take_news(core, judges, t, master, News::Sync(seq));
            Heard::Sync { at, master, seq }
        }
        Content::FollowUp => {
            let at = take_follow_up(core, t, master);
            Heard::FollowUp { at, master }
        }
        Content::DelayResp => {
            let at = take_delay_resp(core, t, master, seq);
            Heard::DelayResp { at, master, seq }
        }
        Content::Signals(list, acks) => {
            let at = take_signaling(core, t, master, list.list());
            let ip = core.address(master);
            let reply = send_reply(port, core.config(), ip, &source, seq, acks.list());
            Heard::Signals {
                at,
                master,
                list,
                reply,
            }
        }
    }
}
