//! The slave that settings open.

ghost use Rattle.std.specs.{Prelude.{◌≡◌, [], length, map, not, true, IfOk}, List.{count_by}};
ghost use Rattle.ptu_config.specs.Limits.{IsSlaveInRange};
ghost use Rattle.ptu_judges.specs.Boxes.{IsFreshStock};
ghost use Rattle.ptu_judges.specs.Held.{HasNone, HasTaken, IsStock, fresh};
ghost use Rattle.ptu_slave_daemon.specs.Opening.{are_enough, slave_config_of, watched_master_of, node_of, judge_rule_of};
ghost use Rattle.ptu_slave_daemon.specs.Running.{Stands};
ghost use Rattle.ptu_slave.specs.{Seen.{HasJudges}, SeenBy.{seen_by}};

use ptu_config::{MasterSetting, SlaveSettings};
use ptu_judges::{Judge, NAMED_GAP, Rule, Stock};
use ptu_messages::PortIdentity;
use ptu_outside::Port;
use ptu_record::Wants;
use ptu_slave::{Master, Slave, SlaveConfig};
use ptu_units::OutOfMemory;
use std::alloc::Global;

// How many of these masters are judged by gaps.
fn count_gaps(masters: &[MasterSetting]) -> usize
    ensures { result ≡ count_by (λ m. m.gap) masters.now }
{
    masters.iter().filter(|master| master.gap).count()
}

// How many are judged by a flag alone.
fn count_flags(masters: &[MasterSetting]) -> usize
    ensures { result ≡ count_by (λ m. not m.gap) masters.now }
{
    masters.iter().filter(|master| !master.gap).count()
}

/// Whether the stock has a judge of the stated rule for every master of these settings.
pub fn has_judges(settings: &SlaveSettings, stock: &Stock) -> bool
    ensures { result ≡ are_enough settings.now.masters
        (length stock.now.flags.items) (length stock.now.gaps.items) }
{
    let masters = settings.masters.list();
    let flags = count_flags(masters);
    let gaps = count_gaps(masters);
    flags <= stock.flags.len() && gaps <= stock.gaps.len()
}

// What the slave is set up with.
fn new_config(settings: &SlaveSettings) -> SlaveConfig
    ensures { result ≡ slave_config_of settings.now }
{
    SlaveConfig {
        identity: PortIdentity {
            clock: settings.clock,
            port: settings.port.get(),
        },
        domain: settings.domain,
        wants: Wants {
            announce: settings.log_announce,
            sync: settings.log_sync,
            delay: settings.log_delay,
            seconds: settings.duration,
        },
        announce_timeout: settings.announce_timeout,
        sync_timeout: settings.sync_timeout,
        delay_timeout: settings.delay_timeout,
        wait: settings.wait_to_restore,
    }
}

// The masters of these settings.
fn new_masters(alloc: Global, masters: &[MasterSetting]) -> Result<Vec<Master>, OutOfMemory>
    ensures { IfOk result (λ list. list.items ≡ map watched_master_of masters.now) }
{
    let mut list = Vec::new(alloc);
    for master in masters {
        list.push(Master {
            ip: master.ip,
            priority: master.priority,
        })?;
    }
    Ok(list)
}

// The rule of the judge of a master.
fn rule(master: &MasterSetting) -> Rule
    ensures { result ≡ judge_rule_of master.now }
{
    if master.gap {
        Rule::Gap(NAMED_GAP)
    } else {
        Rule::Flag
    }
}

// Takes a judge of this rule from a stock that has one.
fn take_judge(stock: &mut Stock, rule: Rule) -> Box<dyn Judge>
    requires stock { IsStock (map held stock.old.flags.items)
        (map held stock.old.gaps.items) }
    requires some { HasNone rule (map held stock.old.flags.items)
        (map held stock.old.gaps.items) → ⊥ }
    ensures { HasTaken rule (map held stock.old.flags.items)
        (map held stock.old.gaps.items) (map held stock.new.flags.items)
        (map held stock.new.gaps.items) (held result) }
{
    stock.take(rule).unwrap()
}

// A judge for each master, of the rule that its settings say.
fn new_judges(
    alloc: Global,
    masters: &[MasterSetting],
    mut stock: Stock,
) -> Result<Vec<Box<dyn Judge>>, OutOfMemory>
    requires stock { IsStock (map held stock.flags.items)
        (map held stock.gaps.items) }
    requires enough { are_enough masters.now
        (length stock.flags.items) (length stock.gaps.items) ≡ true }
    ensures { IfOk result (λ judges. map held judges.items
        ≡ map (λ m. fresh (judge_rule_of m)) masters.now) }
{
    let mut judges = Vec::new(alloc);
    for master in masters {
        judges.push(take_judge(&mut stock, rule(master)))?;
    }
    Ok(judges)
}

/// The slave that these settings open, with judges of the stock, which hands its messages to this
/// port.
///
/// # Errors
/// `OutOfMemory`.
pub(crate) fn open_slave<P: Port>(
    alloc: Global,
    settings: &SlaveSettings,
    stock: Stock,
    port: P,
) -> Result<Slave<P>, OutOfMemory>
    requires range { IsSlaveInRange settings.now }
    requires stock { IsFreshStock held stock }
    requires enough { are_enough settings.now.masters
        (length stock.flags.items) (length stock.gaps.items) ≡ true }
    ensures stands { IfOk result (λ slave. Stands (node_of settings.now)
        (seen_by held slave) []) }
    ensures judged { IfOk result (λ slave. HasJudges (seen_by held slave)) }
    ensures port { IfOk result (λ slave. (seen_by held slave).port ≡ port) }
{
    let masters = new_masters(alloc, settings.masters.list())?;
    let judges = new_judges(alloc, settings.masters.list(), stock)?;
    let slave = Slave::new(alloc, new_config(settings), masters, judges, port)?;
    Ok(slave)
}
