//! The events of a slave that send nothing but a reply.

ghost use Rattle.std.specs.Prelude.{◌≡◌, ℕ, ◌<◌, max, List, map, filter_map, length, Option};
ghost use Rattle.ptu_record.specs.{declared.rule.Rule.{Rule}, Record.{Record}};
ghost use Rattle.ptu_record.specs.Step.{TakeAnnounce, TakeFollowUp, TakeDelayResp, TakeSignaling, ReplaceJudge};
ghost use Rattle.ptu_messages.specs.declared.tlv.Tlv.{Tlv};
ghost use Rattle.ptu_judges.specs.Held.{Held, IsFresh};
ghost use Rattle.ptu_judges.specs.Calls.{OfOne, Then, WasAsked};
ghost use Rattle.ptu_slave_messages.specs.Heard.{signals_of, said_by};
ghost use Rattle.ptu_slave.specs.{Kept.{IsSame}, Parts.{WasGiven, news_event}};
ghost use Rattle.ptu_slave.specs.Standing.{StandsFor, Steps, StepsFound, Takes};

use crate::judging::{News, judge_anew, judge_news};
use crate::node::Core;
use ptu_judges::Judge;
use ptu_slave_messages::Signal;
use ptu_units::Moment;

/// An Announce of the master with this clockClass.
pub(crate) fn take_announce(core: &mut Core, t: Moment, master: usize, class: u8) -> Moment
    requires { master < length core.old.masters }
    ensures { Takes t (TakeAnnounce master class) core.old core.new result }
{
    let at = core.begin(t);
    core.announce(at, master, class);
    at
}

/// A Follow_Up of the master.
pub(crate) fn take_follow_up(core: &mut Core, t: Moment, master: usize) -> Moment
    requires { master < length core.old.masters }
    ensures { Takes t (TakeFollowUp master) core.old core.new result }
{
    let _ = master;
    core.begin(t)
}

/// A Delay_Resp of the master with this sequenceId.
pub(crate) fn take_delay_resp(core: &mut Core, t: Moment, master: usize, seq: u16) -> Moment
    requires { master < length core.old.masters }
    ensures { Takes t (TakeDelayResp master seq) core.old core.new result }
{
    let _ = seq;
    let at = core.begin(t);
    core.resp(at, master);
    at
}

/// A Signaling of the master, by what it says.
pub(crate) fn take_signaling(
    core: &mut Core,
    t: Moment,
    master: usize,
    signals: &[Signal],
) -> Moment
    requires { master < length core.old.masters }
    ensures at { result ≡ max t core.old.moment }
    ensures same { IsSame core.old core.new }
    ensures steps { (openings : List (Option Rule)) (judges : List Held) (L : Record) (number : ℕ)
        (tlvs : List Tlv) → signals.now ≡ signals_of core.old.config.wants tlvs →
        StandsFor openings core.old judges L →
        Steps openings core.old core.new judges L t
        (TakeSignaling master number (filter_map said_by tlvs)) }
{
    let at = core.begin(t);
    core.hear(at, master, signals);
    at
}

/// A Sync of the master, or the operator's word on it: its judge is told, and asked.
pub(crate) fn take_news(
    core: &mut Core,
    judges: &mut Vec<Box<dyn Judge>>,
    t: Moment,
    master: usize,
    news: News,
) -> Moment
    requires master { master < length core.old.masters }
    requires judges { length judges.old.items ≡ length core.old.masters }
    ensures at { result ≡ max t core.old.moment }
    ensures same { IsSame core.old core.new }
    ensures judges { length judges.new.items ≡ length judges.old.items }
    ensures judge { StepsFound (λ found. OfOne master (Then (WasGiven hears is_told
        (max t core.old.moment) news)
        (WasAsked finds (max t core.old.moment) found)))
        judges.old.items judges.new.items core.old core.new (map held judges.old.items)
        (map held judges.new.items) t (news_event news master) }
{
    let at = core.begin(t);
    core.news(at, master, news);
    let unusable = judge_news(judges, at, master, news);
    core.judged(at, master, unusable);
    at
}

/// Another judge takes over the master; the former one is dropped.
pub(crate) fn replace_judge(
    core: &mut Core,
    judges: &mut Vec<Box<dyn Judge>>,
    t: Moment,
    master: usize,
    judge: Box<dyn Judge>,
)
    requires master { master < length core.old.masters }
    requires judges { length judges.old.items ≡ length core.old.masters }
    requires fresh { IsFresh (held judge) }
    ensures same { IsSame core.old core.new }
    ensures judges { length judges.new.items ≡ length judges.old.items }
    ensures judge { StepsFound (λ found. OfOne master (λ old new.
        WasAsked finds (max t core.old.moment) found judge new))
        judges.old.items judges.new.items core.old core.new (map held judges.old.items)
        (map held judges.new.items) t (ReplaceJudge master (held judge).rule) }
{
    let at = core.begin(t);
    let unusable = judge_anew(judges, at, master, judge);
    core.judged(at, master, unusable);
}
