//! The call that does all that the program does.

ghost use Rattle.std.specs.Prelude.{◌≡◌, ◌≢◌, ◌⊎◌, [], ◌∷◌, ℕ, List, Some, length, map, Contains};
ghost use Rattle.ptu_outside.specs.{Faults.{HasRisen}, Handing.{HasPut, HasPutPart}};
ghost use Rattle.ptu_judges.specs.Boxes.{IsFreshStock};
ghost use Rattle.ptu_report.specs.Runs.{IsReadWithin};
ghost use Rattle.ptu_lab.specs.{Headline.{KeepsHeadline}, Steps.{stock_of}};
ghost use Rattle.ptu_pool_run.specs.Promises.{KeepsPools};
ghost use Rattle.ptu_run.specs.CommandLine.{words_command_of, IsCommandLineInRange, AreWordsRefused};
ghost use Rattle.ptu_run.specs.declared.command.Command.{Command};
ghost use Rattle.ptu_world.specs.Report.{report_lines};
ghost use Rattle.ptu_run.specs.Daemons.{HasRunServe, HasRunSlave};
ghost use Rattle.ptu_run.specs.Answers.{AreFaultsAnswered, AreWordsAnswered, HasEnded};
ghost use Rattle.ptu_run.specs.Run.{output_of, statuses, HasAudited, HasLoaded, HasReadAll, HasRun, HasRunUnlessFailed, IsAccepted, IsOfLab, IsStatusOf, IsWholeStatus};

use crate::command::Command;
use crate::daemons::{run_serve, run_slave};
use crate::reading::read_words;
use crate::status::{
    BAD_LINE, BROKEN_PROMISE, OUT_OF_MEMORY, SOURCE_FAULT, USAGE, audit_status, status_of,
};
use ptu_audit::audit;
use ptu_lab::{Stock, load, replay, show};
use ptu_outside::{Host, Sink, Source};
use ptu_pool_run::pools;
use ptu_show::join;
use std::sync::Wait;
use std::thread::Threads;

// Runs a command.
fn run_command<W: AllocGlobal + Threads + Wait + Sync, S: Source, K: Sink, H: Host>(
    rt: &W,
    command: Command,
    source: &mut S,
    sink: &mut K,
    host: &mut H,
    stock: Stock,
) -> u8
    requires stock { IsFreshStock held stock }
    requires range { IsCommandLineInRange command }
    ensures output { IsOfLab command → (input : List ℕ) → S.left source.old ≡ Some input
        → HasRunUnlessFailed K.written K.handed sink.old sink.new
        (stock_of stock.flags.items stock.gaps.items) command input (S.left source.new) result
        (S.faults source.old) (S.faults source.new) (K.faults sink.old) (K.faults sink.new) }
    ensures loaded { (number : ℕ) → command ≡ Command.Load number →
        HasLoaded K.written K.handed sink.old sink.new source.old source.new number result }
    ensures audited { (capacity : ℕ) → command ≡ Command.Audit capacity →
        HasAudited K.written K.handed sink.old sink.new host.old host.new
        (S.left source.old) (S.left source.new) capacity result }
    ensures broken { result ≡ BROKEN_PROMISE
        → (capacity : ℕ) × (command ≡ Command.Audit capacity) }
    ensures served { command ≡ Command.Serve → HasRunServe H.P.Port H.C.Clock K.written K.handed
        sink.old sink.new (H.opening host.old) (H.back host.new) (H.control host.old)
        (H.control_back host.new) (H.opened_at host.new) (H.control_at host.old)
        (H.control_at host.new) (S.left source.old) (S.left source.new) host.old host.new
        result }
    ensures followed { command ≡ Command.Slave → HasRunSlave H.P.Port H.C.Clock K.written K.handed
        sink.old sink.new (H.opening host.old) (H.back host.new) (H.opened_at host.new)
        (length stock.flags.items) (length stock.gaps.items)
        (S.left source.old) (S.left source.new) host.old host.new result }
    ensures unused { IsOfLab command → host.new ≡ host.old }
    ensures ended { HasEnded result (S.faults source.old) (S.faults source.new)
        (K.faults sink.old) (K.faults sink.new) (H.faults host.old) (H.faults host.new) }
    ensures front { IsOfLab command → (input : List ℕ) → S.left source.old ≡ Some input
        → HasPutPart K.written K.handed sink.old sink.new
        (output_of (stock_of stock.flags.items stock.gaps.items) command input) }
    ensures all_read { result ≡ SOURCE_FAULT → IsOfLab command
        → HasReadAll K.written K.handed sink.old sink.new
        (stock_of stock.flags.items stock.gaps.items) command
        (S.left source.old) (S.left source.new) }
    ensures bounded { IsReadWithin S.Source source.old source.new 67108865 }
{
    let alloc = rt.alloc();
    match command {
        Command::Replay => status_of(replay(alloc, source, sink, stock)),
        Command::Show => status_of(show(alloc, source, sink)),
        Command::Load(number) => status_of(load(alloc, number, sink)),
        Command::Serve => run_serve(rt, alloc, source, sink, host),
        Command::Slave => run_slave(alloc, source, sink, host, stock),
        Command::Join => status_of(join(alloc, source, sink)),
        Command::Audit(capacity) => audit_status(audit(alloc, capacity.get(), source, sink)),
        Command::Pools => status_of(pools(alloc, source, sink)),
    }
}

/// Does all that the program does, with the words after its name, and gives the status that it ends
/// with: 0 where the source was read to its end (but by a load, which reads nothing) and the whole
/// output was written, or one of the numbers of `status`. The judges of slaves are taken from the
/// stock, which is to be fresh.
pub fn run<W: AllocGlobal + Threads + Wait + Sync, S: Source, K: Sink, H: Host>(
    rt: &W,
    words: &[&str],
    source: &mut S,
    sink: &mut K,
    host: &mut H,
    stock: Stock,
) -> u8
    requires stock { IsFreshStock held stock }
    ensures statuses { Contains statuses result }

    // Words that the command line does not match, by the meaning that clap gives it, are answered
    // so, and then nothing was read or written.
    ensures words { AreWordsAnswered (AreWordsRefused (map (λ w. w.now) words.now)) result
        ((source.new ≡ source.old) × (sink.new ≡ sink.old) × (host.new ≡ host.old)) }

    // The whole output of the command that the words ask for was written, and the status says how
    // it ends: where neither side failed and memory was found,
    ensures output { (command : Command)
        → words_command_of (map (λ w. w.now) words.now) ≡ Some command → IsOfLab command
        → (input : List ℕ) → S.left source.old ≡ Some input
        → (HasRisen (S.faults source.old) (S.faults source.new) → ⊥)
        → (HasRisen (K.faults sink.old) (K.faults sink.new) → ⊥) → result ≢ OUT_OF_MEMORY
        → HasRun K.written K.handed sink.old sink.new
        (stock_of stock.flags.items stock.gaps.items) command input (S.left source.new) result }
    // and wherever 0 or 65 is answered, whatever the counts did.
    ensures answered { (result ≡ 0) ⊎ (result ≡ BAD_LINE)
        → (command : Command) → words_command_of (map (λ w. w.now) words.now) ≡ Some command
        → IsOfLab command
        → (input : List ℕ) → S.left source.old ≡ Some input
        → HasRun K.written K.handed sink.old sink.new
        (stock_of stock.flags.items stock.gaps.items) command input (S.left source.new) result }

    // A load writes its one line, whatever the source is, which it does not read.
    ensures loaded { (number : ℕ)
        → words_command_of (map (λ w. w.now) words.now) ≡ Some (Command.Load number)
        → HasLoaded K.written K.handed sink.old sink.new source.old source.new number result }

    // An audit answers exactly what the report that is read comes to, by one line. It is yes
    // exactly where the report is sound, and then its grandmasters kept their promises.
    ensures audited { (capacity : ℕ)
        → words_command_of (map (λ w. w.now) words.now) ≡ Some (Command.Audit capacity)
        → HasAudited K.written K.handed sink.old sink.new host.old host.new
        (S.left source.old) (S.left source.new) capacity result }
    // No other word says that a promise was not kept.
    ensures broken { result ≡ BROKEN_PROMISE → (capacity : ℕ)
        × (words_command_of (map (λ w. w.now) words.now) ≡ Some (Command.Audit capacity)) }

    // The headline, of the script that is read,
    ensures headline { (script : List ℕ) → S.left source.old ≡ Some script
        → KeepsHeadline (stock_of stock.flags.items stock.gaps.items) script }
    // and the status is 0 exactly where its last line is `end`; then the source was read to its
    // end.
    ensures status { (result ≡ 0) ⊎ (result ≡ BAD_LINE)
        → words_command_of (map (λ w. w.now) words.now) ≡ Some Command.Replay
        → (script : List ℕ) → S.left source.old ≡ Some script
        → IsStatusOf (report_lines (stock_of stock.flags.items stock.gaps.items) script)
        (S.left source.new) result }

    // The word `pools`: each pool of the script is sent what its own events come to, at its own
    // addresses, whatever the others do; its requests are decided by the room in it; and all are
    // within the capacity that they share.
    ensures pools { (script : List ℕ) → S.left source.old ≡ Some script → KeepsPools script }

    // The word `serve`: the settings that the source has left are refused by one line, or a
    // grandmaster of these is served over the host, whatever its ports do, and its line written.
    ensures served { words_command_of (map (λ w. w.now) words.now) ≡ Some Command.Serve
        → HasRunServe H.P.Port H.C.Clock K.written K.handed sink.old sink.new
        (H.opening host.old) (H.back host.new) (H.control host.old) (H.control_back host.new)
        (H.opened_at host.new) (H.control_at host.old) (H.control_at host.new)
        (S.left source.old) (S.left source.new) host.old host.new result }
    // The word `slave`: likewise, with as many judges as the stock has.
    ensures followed { words_command_of (map (λ w. w.now) words.now) ≡ Some Command.Slave
        → HasRunSlave H.P.Port H.C.Clock K.written K.handed sink.old sink.new
        (H.opening host.old) (H.back host.new) (H.opened_at host.new)
        (length stock.flags.items) (length stock.gaps.items)
        (S.left source.old) (S.left source.new) host.old host.new result }
    // The words for which lines are read and written, but for an audit, leave the host as it is.
    ensures unused { (command : Command)
        → words_command_of (map (λ w. w.now) words.now) ≡ Some command → IsOfLab command
        → host.new ≡ host.old }

    // A fault is answered exactly where there was one, and what was written is a front of the
    // output, whatever is answered.
    ensures faults { AreFaultsAnswered result (S.faults source.old) (S.faults source.new)
        (K.faults sink.old) (K.faults sink.new) (H.faults host.old) (H.faults host.new) }
    ensures front { (command : Command)
        → words_command_of (map (λ w. w.now) words.now) ≡ Some command → IsOfLab command
        → (input : List ℕ) → S.left source.old ≡ Some input
        → HasPutPart K.written K.handed sink.old sink.new
        (output_of (stock_of stock.flags.items stock.gaps.items) command input) }
    // Where nothing failed and nothing is refused, the answer is 0 (with 70 beside it for an
    // audit), or no memory was found.
    ensures complete { (command : Command)
        → words_command_of (map (λ w. w.now) words.now) ≡ Some command
        → (input : List ℕ) → S.left source.old ≡ Some input
        → IsAccepted (stock_of stock.flags.items stock.gaps.items) command input
        → (HasRisen (S.faults source.old) (S.faults source.new) → ⊥)
        → (HasRisen (K.faults sink.old) (K.faults sink.new) → ⊥)
        → (HasRisen (H.faults host.old) (H.faults host.new) → ⊥)
        → IsWholeStatus command result ⊎ (result ≡ OUT_OF_MEMORY) }
    // Where the source failed, that is all that belongs to the lines that were read whole.
    ensures all_read { result ≡ SOURCE_FAULT
        → (command : Command) → words_command_of (map (λ w. w.now) words.now) ≡ Some command
        → IsOfLab command → HasReadAll K.written K.handed sink.old sink.new
        (stock_of stock.flags.items stock.gaps.items) command
        (S.left source.old) (S.left source.new) }

    // At most 67108865 octets are read, and nothing behind the end.
    ensures bounded { IsReadWithin S.Source source.old source.new 67108865 }
{
    match read_words(rt.alloc(), words) {
        Ok(Some(command)) => run_command(rt, command, source, sink, host, stock),
        Ok(None) => USAGE,
        Err(_) => OUT_OF_MEMORY,
    }
}
