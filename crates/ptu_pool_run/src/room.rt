//! The ports of pools: room is made in them before an event, and what was sent is told after it.

ghost use Rattle.std.specs.Prelude.{◌≡◌, ◌<◌, ◌*◌, ◌+◌, ◌++◌, [], Some, length, slice_get, OnOk};
ghost use Rattle.ptu_outside.specs.MemoryPort.{MemoryPort};
ghost use Rattle.ptu_grandmaster.specs.Gm.{KeptGm, port_at, table_at, with_port};
ghost use Rattle.ptu_nodes.specs.GrandmasterPorts.{HasReplyRoom, HasRoom, in_ports};
ghost use Rattle.ptu_nodes.specs.Standing.{AreIdle};
ghost use Rattle.ptu_pool_run.specs.Ported.{with_port_of};
ghost use Rattle.ptu_pool_run.specs.Ports.{AreAllSure, AreOthersSame, GoOn, GoOnIdle, sent_texts};

use crate::Pools;
use crate::output::PoolLine;
use ptu_grandmaster::SIGNALING_PORT;
use ptu_lines::LentOctets;
use ptu_outside::MemPort;
use ptu_report::Texts;
use ptu_units::OutOfMemory;
use ptu_units::sizes::{ANNOUNCE_LENGTH, DELAY_RESP_LENGTH, LONGEST_SIGNALING};

// Makes room in the port of this index for this many datagrams more, and for this many octets in
// them.
fn reserve(
    pools: &mut Pools<MemPort>,
    place: usize,
    index: usize,
    datagrams: usize,
    octets: usize,
) -> Result<(), OutOfMemory>
    requires pool { place < length pools.old.pools }
    requires index { index < 5 }
    ensures room { OnOk result ((gm : KeptGm MemoryPort) → slice_get pools.new.gms place ≡ Some gm →
        HasRoom datagrams octets (port_at index gm)) }
    ensures rest { (port : MemoryPort)
        × (pools.new ≡ with_port_of place index port pools.old) }
    ensures kept { GoOnIdle pools.old pools.new }
{
    pools.ports(place, index).reserve(datagrams, octets)
}

/// Makes room for the one datagram that may answer another: a Delay_Resp in the port of each table
/// of the pool at this place, or a Signaling in its own.
///
/// # Errors
/// `OutOfMemory`. The pools go on as before, with nothing in their ports.
pub fn reserve_replies(pools: &mut Pools<MemPort>, place: usize) -> Result<(), OutOfMemory>
    requires { place < length pools.old.pools }
    ensures room { OnOk result ((gm : KeptGm MemoryPort) → slice_get pools.new.gms place ≡ Some gm →
        HasReplyRoom gm) }
    ensures kept { GoOnIdle pools.old pools.new }
{
    reserve(pools, place, 0, 1, DELAY_RESP_LENGTH)?;
    reserve(pools, place, 1, 1, DELAY_RESP_LENGTH)?;
    reserve(pools, place, 2, 1, DELAY_RESP_LENGTH)?;
    reserve(pools, place, 3, 1, DELAY_RESP_LENGTH)?;
    reserve(pools, place, SIGNALING_PORT, 1, LONGEST_SIGNALING)
}

/// Makes room for a turn of a table of the pool at this place.
///
/// # Errors
/// `OutOfMemory`. The pools go on as before, with nothing in their ports.
#[tactic(auto, using(crate::proofs::Lent::go_on_same))]
pub fn reserve_turn(
    pools: &mut Pools<MemPort>,
    place: usize,
    table: usize,
) -> Result<(), OutOfMemory>
    requires pool { place < length pools.old.pools }
    requires table { table < 4 }
    ensures room { OnOk result ((gm : KeptGm MemoryPort) → slice_get pools.new.gms place ≡ Some gm →
        HasRoom (length (table_at table gm).rows) (length (table_at table gm).rows * 64)
        (table_at table gm).port) }
    ensures kept { GoOnIdle pools.old pools.new }
{
    let datagrams = pools.count(place, table);
    let octets = datagrams.checked_mul(ANNOUNCE_LENGTH).ok_or(OutOfMemory)?;
    reserve(pools, place, table, datagrams, octets)
}

// The number of the pool at this place, which is that of the pools up to it.
fn number_of(pools: &Pools<MemPort>, place: usize) -> usize
    requires { place < length pools.now.pools }
    ensures { result ≡ place + 1 }
{
    pools.pools()[..place].len() + 1
}

// Adds the text of each datagram that stands in the port, as one of the pool with this number, and
// clears the port.
fn tell(port: &mut MemPort, pool: usize, line: u64, texts: &mut Texts) -> Result<(), OutOfMemory>
    ensures says { OnOk result (texts.new ≡ texts.old ++ sent_texts line pool port.old.sent) }
    ensures cleared { OnOk result (port.new ≡ record port.old { sent = [] }) }
{
    let before = texts.count();
    'datagrams: while let Some((to, channel, octets)) = port.sent(texts.count() - before) {
        let octets = LentOctets::new(octets);
        texts.add_text(&PoolLine::Sent {
            line,
            pool,
            channel,
            to,
            octets,
        })?;
    }
    port.clear();
    Ok(())
}

// The same of the port of this index of the pool at this place.
fn tell_port(
    pools: &mut Pools<MemPort>,
    place: usize,
    index: usize,
    line: u64,
    texts: &mut Texts,
) -> Result<(), OutOfMemory>
    requires pool { place < length pools.old.pools }
    requires index { index < 5 }
    ensures there { (gm : KeptGm MemoryPort) × (slice_get pools.old.gms place ≡ Some gm) }
    ensures go_on { OnOk result (GoOn pools.old pools.new) }
    ensures others { OnOk result (AreOthersSame place pools.old pools.new) }
    ensures says { OnOk result ((gm : KeptGm MemoryPort) → slice_get pools.old.gms place ≡ Some gm →
        texts.new ≡ texts.old ++ sent_texts line (place + 1) (port_at index gm).sent) }
    ensures cleared { OnOk result ((gm : KeptGm MemoryPort) →
        slice_get pools.old.gms place ≡ Some gm →
        slice_get pools.new.gms place
        ≡ Some (with_port index (record (port_at index gm) { sent = [] }) gm)) }
    ensures sure { OnOk result (AreAllSure pools.old → AreAllSure pools.new) }
{
    let number = number_of(pools, place);
    tell(pools.ports(place, index), number, line, texts)
}

/// Adds the text of each datagram that the pool at this place sent at this line of the script, port
/// by port, and clears its ports.
///
/// # Errors
/// `OutOfMemory`. Nothing is said of the ports and the texts then: the run ends.
pub fn tell_ports(
    pools: &mut Pools<MemPort>,
    place: usize,
    line: u64,
    texts: &mut Texts,
) -> Result<(), OutOfMemory>
    requires { place < length pools.old.pools }
    ensures go_on { OnOk result (GoOn pools.old pools.new) }
    ensures others { OnOk result (AreOthersSame place pools.old pools.new) }
    ensures says { OnOk result ((gm : KeptGm MemoryPort) → slice_get pools.old.gms place ≡ Some gm →
        texts.new ≡ texts.old ++ sent_texts line (place + 1) (in_ports gm)) }
    ensures idle { OnOk result ((gm : KeptGm MemoryPort) → slice_get pools.new.gms place ≡ Some gm →
        AreIdle gm) }
    ensures sure { OnOk result (AreAllSure pools.old → AreAllSure pools.new) }
{
    tell_port(pools, place, 0, line, texts)?;
    tell_port(pools, place, 1, line, texts)?;
    tell_port(pools, place, 2, line, texts)?;
    tell_port(pools, place, 3, line, texts)?;
    tell_port(pools, place, SIGNALING_PORT, line, texts)
}
