//! The judges of a slave, who are told of Syncs and flags, and asked.

ghost use Rattle.std.specs.Prelude.{◌≡◌, ◌<◌, Bool, List, map, length};
ghost use Rattle.ptu_record.specs.Record as entry;
ghost use Rattle.ptu_record.specs.Record.{Judged, Sync, Told};
ghost use Rattle.ptu_judges.specs.Held.{Enters, Finds, IsFresh};
ghost use Rattle.ptu_judges.specs.Calls.{OfAll, OfOne, Then, WasAsked, WasHeard, WasTold};
ghost use Rattle.ptu_slave.specs.Parts.{AllJudged, OneAsked, OneJudged, WasGiven, news_entry};

use crate::node::Core;
use ptu_judges::Judge;
use ptu_units::Moment;

/// What a judge is told: a Sync of its master with this sequenceId, or the operator's word.
#[derive(Clone, Copy)]
pub(crate) enum News {
    Sync(u16),
    Word(bool),
}

// Tells a judge of a Sync.
fn hear(judge: &mut Box<dyn Judge>, at: Moment, seq: u16)
    ensures call { WasHeard hears at seq judge.old judge.new }
    ensures stands { Enters (λ m. Sync at m seq) (held judge.old) (held judge.new) }
{
    judge.heard(at, seq);
}

// Tells a judge of the operator's word.
fn tell(judge: &mut Box<dyn Judge>, at: Moment, unusable: bool)
    ensures call { WasTold is_told at unusable judge.old judge.new }
    ensures stands { Enters (λ m. Told at m unusable) (held judge.old) (held judge.new) }
{
    judge.told(at, unusable);
}

// Tells a judge this.
fn give(judge: &mut Box<dyn Judge>, at: Moment, news: News)
    ensures call { WasGiven hears is_told at news judge.old judge.new }
    ensures stands { Enters (news_entry news at) (held judge.old) (held judge.new) }
{
    match news {
        News::Sync(seq) => hear(judge, at, seq),
        News::Word(unusable) => tell(judge, at, unusable),
    }
}

// Asks a judge.
fn ask(judge: &mut Box<dyn Judge>, at: Moment) -> bool
    ensures call { WasAsked finds at result judge.old judge.new }
    ensures found { Finds result (held judge.old) }
    ensures judge { Enters (λ m. Judged at m result) (held judge.old) (held judge.new) }
{
    judge.assess(at)
}

/// Tells the judge of a master this, and asks it.
pub(crate) fn judge_news(
    judges: &mut Vec<Box<dyn Judge>>,
    at: Moment,
    master: usize,
    news: News,
) -> bool
    requires { master < length judges.old.items }
    ensures calls { OfOne master (Then (WasGiven hears is_told at news)
        (WasAsked finds at result)) judges.old.items judges.new.items }
    ensures judged { OneJudged at master (news_entry news at master)
        (map held judges.old.items) (map held judges.new.items) result }
    ensures length { length judges.new.items ≡ length judges.old.items }
{
    let judge = &mut judges[master];
    give(judge, at, news);
    ask(judge, at)
}

/// Puts a judge in the place of a master's, which is dropped, and asks it.
pub(crate) fn judge_anew(
    judges: &mut Vec<Box<dyn Judge>>,
    at: Moment,
    master: usize,
    judge: Box<dyn Judge>,
) -> bool
    requires master { master < length judges.old.items }
    requires fresh { IsFresh (held judge) }
    ensures calls { OfOne master (λ old new. WasAsked finds at result judge new)
        judges.old.items judges.new.items }
    ensures judged { OneJudged at master (entry.Judge at master (held judge).rule)
        (map held judges.old.items) (map held judges.new.items) result }
    ensures length { length judges.new.items ≡ length judges.old.items }
{
    judges[master] = judge;
    ask(&mut judges[master], at)
}

// Asks the judge of one master.
fn judge_one(judges: &mut Vec<Box<dyn Judge>>, at: Moment, master: usize) -> bool
    requires { master < length judges.old.items }
    ensures call { OfOne master (WasAsked finds at result)
        judges.old.items judges.new.items }
    ensures asked { OneAsked at master
        (map held judges.old.items) (map held judges.new.items) result }
    ensures length { length judges.new.items ≡ length judges.old.items }
{
    ask(&mut judges[master], at)
}

/// Asks all judges, in the order of the masters.
pub(crate) fn judge_all(core: &mut Core, judges: &mut Vec<Box<dyn Judge>>, at: Moment)
    requires { length judges.old.items ≡ length core.old.masters }
    ensures judged { (assessments : List Bool) ×
        OfAll (length core.old.masters) (WasAsked finds at) assessments
        judges.old.items judges.new.items × AllJudged (length core.old.masters) at
        (map held judges.old.items) (map held judges.new.items)
        core.old core.new assessments }
    ensures length { length judges.new.items ≡ length judges.old.items }
{
    for master in 0..judges.len() {
        let unusable = judge_one(judges, at, master);
        core.judged(at, master, unusable);
    }
}
