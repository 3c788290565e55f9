//! A PTP unicast grandmaster and its slaves (IEEE 1588-2019 clause 16.1, ITU-T G.8265.1).
//!
//! `ptpuni replay` reads a script of grandmasters and slaves from standard input, runs them in
//! memory, and writes a report of every decision and datagram to standard output. `ptpuni load N`
//! makes such a script of N clients, and writes what its replay came to. `ptpuni pools` runs a
//! script of one grandmaster whose capacity is sold to several customers, and `ptpuni audit N`
//! judges a finished report.
//!
//! `ptpuni show` decodes the datagrams that stand in the lines of standard input, and
//! `ptpuni join` merges each two-step Sync with its Follow_Up. `ptpuni serve` and `ptpuni slave`
//! read settings and run a grandmaster and a slave over UDP.
#![tactic(auto)]

ghost use Rattle.std.specs.Prelude.{◌≡◌, ◌≢◌, ◌+◌, OnOk, length, map};
ghost use Rattle.ptu_judges.specs.Boxes.{IsFreshStock};
ghost use Rattle.ptu_judges.specs.Held.{IsStock, fresh};

use ptu_judges::{FlagJudge, GapJudge, Judge, NAMED_GAP, Rule, Stock};
use ptu_outside::Host;
use ptu_run::{BLOCK, OUT_OF_MEMORY, USAGE, USAGE_TEXT, run_in_blocks, texts_of, waits_for_lines};
use ptu_udp::UdpHost;
use std::alloc::AllocError;
use std::env::Env;
use std::io::{ErrorKind, IsTerminal, Stdin, Stdout};
use std::process::ExitCode;
use std::sync::Wait;
use std::thread::Threads;
use std::{env, io};

/// How many judges of each rule are made before a run, which takes those that its slaves need.
const JUDGES: u64 = 64;

// The status of a run whose words can't be had: one that is not UTF-8 makes a faulty command line.
fn status_without_words(kind: ErrorKind) -> u8
    ensures usage { kind ≡ ErrorKind.InvalidData → result ≡ USAGE }
    ensures memory { kind ≢ ErrorKind.InvalidData → result ≡ OUT_OF_MEMORY }
{
    if kind == ErrorKind::InvalidData {
        USAGE
    } else {
        OUT_OF_MEMORY
    }
}

// The words after the program's name.
fn words_of<R: Env + AllocGlobal>(rt: &R) -> io::Result<Vec<String>> {
    let mut words = Vec::new(rt.alloc());
    for word in env::args(rt)?.skip(1) {
        words.push(word)?;
    }
    Ok(words)
}

// Runs the words over standard input and output, line by line where somebody waits for the lines,
// with 64 judges of each rule.
fn status_of<W, H>(
    rt: &W,
    words: &[String],
    input: Stdin,
    output: Stdout,
    host: &mut H,
    stock: Stock,
) -> u8
where
    W: AllocGlobal + Threads + Wait + Sync,
    H: Host,
    requires stock { IsFreshStock held stock }
    requires number { (length stock.flags.items ≡ 64) × (length stock.gaps.items ≡ 64) }
{
    let Ok(texts) = texts_of(rt.alloc(), words) else {
        return OUT_OF_MEMORY;
    };
    let block = if waits_for_lines(output.is_terminal(), &texts) {
        0
    } else {
        BLOCK
    };
    run_in_blocks(rt, &texts, block, input, output, host, stock)
}

// Puts a judge of each rule into the stock.
fn add_judges(
    stock: &mut Stock,
    flag: Box<dyn Judge>,
    gap: Box<dyn Judge>,
) -> Result<(), AllocError>
    requires flag { held flag ≡ fresh Rule.Flag }
    requires gap { held gap ≡ fresh (Rule.Gap 4) }
    requires stock { IsStock (map held stock.old.flags.items)
        (map held stock.old.gaps.items) }
    ensures stock { OnOk result (IsStock (map held stock.new.flags.items)
        (map held stock.new.gaps.items)) }
    ensures number { OnOk result
        ((length stock.new.flags.items ≡ length stock.old.flags.items + 1)
        × (length stock.new.gaps.items ≡ length stock.old.gaps.items + 1)) }
{
    stock.flags.push(flag)?;
    stock.gaps.push(gap)?;
    Ok(())
}

fn main(rt: HostRuntime) -> ExitCode {
    let alloc = rt.alloc();
    let mut stock = Stock {
        flags: Vec::new(alloc),
        gaps: Vec::new(alloc),
    };
    for _ in 0..JUDGES {
        let flag = Box::new(alloc, FlagJudge::new());
        let gap = Box::new(alloc, GapJudge::new(NAMED_GAP));
        let (Ok(flag), Ok(gap)) = (flag, gap) else {
            return ExitCode::from(OUT_OF_MEMORY);
        };
        if add_judges(&mut stock, flag, gap).is_err() {
            return ExitCode::from(OUT_OF_MEMORY);
        }
    }
    let mut host = UdpHost::new(alloc, rt);
    let status = match words_of(&rt) {
        Ok(words) => status_of(&rt, &words, rt.stdin(), rt.stdout(), &mut host, stock),
        Err(error) => status_without_words(error.kind()),
    };
    if status == USAGE {
        let _ = eprintln!(rt; "{USAGE_TEXT}");
    }
    ExitCode::from(status)
}
