//! Scripts and their reports, made out by hand, stocks of judges, and runs over memory.

ghost use Rattle.std.specs.Prelude.{◌≡◌, IfOk, map};
ghost use Rattle.ptu_judges.specs.Boxes.{IsFreshStock};
ghost use Rattle.ptu_judges.specs.Held.{IsStock, fresh};

use ptu_judges::{Judge, Rule, Stock};
use ptu_outside::samples::{idle_port, opened_with};
use ptu_outside::{MemHost, MemSink, MemSource};
use ptu_run::run;
use std::alloc::{AllocError, Global};
use std::sync::Wait;
use std::test::Fail;
use std::thread::Threads;

/// A client asks a grandmaster for Announces at the logarithm 1.
pub(crate) const ONE_ASK: &str = "\
    gm 10.0.0.1 0a00000000000001 1 4 84 8 300\n\
    rx 0 10.0.0.1 10.0.1.17 0c120036040004000000000000000000000000000a0000000000001100010000057f\
    ffffffffffffffffffff00040006b0010000012c\n";

/// What a replay reports of it.
pub(crate) const ONE_GRANT: &str = "\
    2 granted announce 1 at 0 until 300000000000\n\
    2 send 1 10.0.0.1 10.0.1.17 general 0c120038040004000000000000000000000000000a00000000000001\
    00010000057f0a00000000000011000100050008b0010000012c0001\n\
    end 2 1\n";

/// The two halves of a Sync, each of which is also a datagram to be shown.
pub(crate) const HALVES: &str = "\
    0812002c040004000000000000000000000000000a000000000000010001000002\
    7f00000000000100000000\n\
    0012002c040006000000000000000000000000000a000000000000010001000000\
    7f00000000000000000000\n";

/// A stock without judges.
pub(crate) fn no_judges(alloc: Global) -> Stock
    ensures { IsFreshStock held result }
{
    Stock {
        flags: Vec::new(alloc),
        gaps: Vec::new(alloc),
    }
}

/// A stock with this judge alone.
pub(crate) fn one_judge(alloc: Global, flag: Box<dyn Judge>) -> Result<Stock, AllocError>
    requires { held flag ≡ fresh Rule.Flag }
    ensures { IfOk result (λ stock. IsStock (map held stock.flags.items)
        (map held stock.gaps.items)) }
{
    let mut stock = no_judges(alloc);
    stock.flags.push(flag)?;
    Ok(stock)
}

/// A host in memory that does not open.
pub(crate) fn shut(alloc: Global) -> MemHost {
    MemHost::new(opened_with(alloc, idle_port(alloc)), true)
}

/// What a run over memory and this host answers and writes, with a read and a write that fail; none
/// has the number 0.
pub(crate) fn ran(
    rt: &(impl AllocGlobal + Threads + Wait + Sync),
    words: &[&str],
    input: &str,
    failing: (u64, u64),
    host: &mut MemHost,
    stock: Stock,
) -> Result<(u8, String), Fail>
    requires { IsFreshStock held stock }
{
    let alloc = rt.alloc();
    let (read, write) = failing;
    let bytes = Vec::from_slice(alloc, input.as_bytes())?;
    let mut source = MemSource::new(bytes, vec![in alloc; read]?);
    let mut sink = MemSink::new(alloc, vec![in alloc; write]?);
    let status = run(rt, words, &mut source, &mut sink, host, stock);
    let text = String::from_utf8(sink.into_bytes())
        .ok()
        .ok_or("plain text")?;
    Ok((status, text))
}
