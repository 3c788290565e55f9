ghost use Rattle.std.specs.Prelude.{ℕ, [], ◌∷◌, ◌++◌, Option};
ghost use Rattle.ptu_record.specs.{declared.rule.Rule.{Rule}, Judges.{IsAssessment}};
ghost use Rattle.ptu_record.specs.Record.{Record, Told, Judged};
ghost use Rattle.ptu_judges.specs.Held.{Enters, Finds, StandsFor};

use ptu_judges::samples::OwnJudge;
use ptu_judges::{FlagJudge, GapJudge, Judge, Rule};
use ptu_units::Moment;
use std::cell::Cell;
use std::process::Abort;
use std::rc::Rc;
use std::test::Fail;

// Tells the judge of these Syncs, one after the other, and compares what it finds after each.
fn finds(rt: &impl Abort, judge: &mut GapJudge, syncs: &[(u16, bool)]) {
    let now = Moment::default();
    for &(seq, unusable) in syncs {
        judge.heard(now, seq);
        assert_eq!(rt; judge.assess(now), unusable);
    }
}

// The numbers of Syncs, and whether the master is found unusable after each.
const RUN_OVER: [(u16, bool); 5] = [
    (65535, false),
    (0, false),
    (2, true),
    (1, false),
    (40000, false),
];

// The first number is 16 behind: it shows no place, and coming again makes all forgotten.
const FORGOTTEN: [(u16, bool); 5] = [
    (100, false),
    (116, true),
    (101, false),
    (100, false),
    (115, false),
];

#[test]
fn numbers_run_over_and_are_forgotten(rt: HostRuntime) {
    finds(&rt, &mut GapJudge::new(1), &RUN_OVER);
    finds(&rt, &mut GapJudge::new(15), &FORGOTTEN);
}

fn tell(judge: &mut Box<dyn Judge>, now: Moment, unusable: bool)
    ensures { Enters (λ m. Told now m unusable) (held judge.old) (held judge.new) }
{
    judge.told(now, unusable);
}

fn ask(judge: &mut Box<dyn Judge>, now: Moment) -> bool
    ensures assessed { Finds result (held judge.old) }
    ensures stands { Enters (λ m. Judged now m result) (held judge.old) (held judge.new) }
{
    judge.assess(now)
}

// Tells a boxed judge what the operator said, and asks it.
fn tell_and_ask(judge: &mut Box<dyn Judge>, unusable: bool) -> bool
    ensures { (opening : Option Rule) (L : Record) (m : ℕ) →
        StandsFor opening L (held judge.old) →
        IsAssessment opening (L ++ Told 0 m unusable ∷ []) result }
{
    let now = Moment::default();
    tell(judge, now, unusable);
    ask(judge, now)
}

#[test]
fn boxed_judges_answer_by_their_rule(rt: HostRuntime) -> Result<(), Fail> {
    let alloc = rt.alloc();
    let mut flag: Box<dyn Judge> = Box::new(alloc, FlagJudge::new())?;
    let found = (
        tell_and_ask(&mut flag, true),
        tell_and_ask(&mut flag, false),
    );
    assert_eq!(rt; (flag.rule(), found), (Some(Rule::Flag), (true, false)));
    let gap: Box<dyn Judge> = Box::new(alloc, GapJudge::new(4))?;
    assert!(rt; gap.rule() == Some(Rule::Gap(4)));
    let dropped = Rc::new(alloc, Cell::new(false))?;
    let mut own: Box<dyn Judge> = Box::new(alloc, OwnJudge::new(dropped))?;
    let found = (tell_and_ask(&mut own, true), tell_and_ask(&mut own, false));
    assert_eq!(rt; (own.rule(), found), (None, (false, true)));
    Ok(())
}
