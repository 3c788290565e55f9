//! The ports of a grandmaster of a script.

ghost use Rattle.std.specs.Prelude.{◌≡◌, ◌<◌, ◌==◌, [], OnOk};
ghost use Rattle.ptu_units.specs.Number.{low_nibble_at};
ghost use Rattle.ptu_profile.specs.declared.grandmaster.GmConfig.{GmConfig};
ghost use Rattle.ptu_gm_messages.specs.Items.{heard_in};
ghost use Rattle.ptu_grandmaster.specs.Gm.{port_at, with_port};
ghost use Rattle.ptu_nodes.specs.GrandmasterPorts.{GoesOn, HasResponseRoom, HasRoom, HasRoomToAnswer, in_ports};
ghost use Rattle.ptu_nodes.specs.{Noted.{with_handed}, Standing.{AreIdle, AreSure}};

use crate::journal::Journal;
use ptu_grandmaster::{Gm, SIGNALING_PORT};
use ptu_outside::MemPort;
use ptu_units::message_types::DELAY_REQ;
use ptu_units::sizes::{DELAY_RESP_LENGTH, LONGEST_SIGNALING};
use ptu_units::{OutOfMemory, low_nibble};

/// Makes room in the port of this index for this many datagrams more, and for this many octets in
/// them.
///
/// # Errors
/// `OutOfMemory`. The grandmaster goes on as before, with nothing more in its ports.
#[inline(always)]
pub fn reserve(
    gm: &mut Gm<MemPort>,
    port: usize,
    datagrams: usize,
    octets: usize,
) -> Result<(), OutOfMemory>
    requires { port < 5 }
    ensures room { OnOk result (HasRoom datagrams octets (port_at port gm.new)) }
    ensures rest { gm.new ≡ with_port port (port_at port gm.new) gm.old }
    ensures goes_on { GoesOn gm.old gm.new }
    ensures idle { AreIdle gm.old → AreIdle gm.new }
    ensures sure { AreSure gm.old → AreSure gm.new }
{
    gm.ports(port).reserve(datagrams, octets)
}

// Makes room for a Delay_Resp in the port of each table.
fn reserve_responses(gm: &mut Gm<MemPort>) -> Result<(), OutOfMemory>
    ensures room { OnOk result (HasResponseRoom gm.new) }
    ensures goes_on { GoesOn gm.old gm.new }
    ensures idle { AreIdle gm.old → AreIdle gm.new }
    ensures sure { AreSure gm.old → AreSure gm.new }
{
    reserve(gm, 0, 1, DELAY_RESP_LENGTH)?;
    reserve(gm, 1, 1, DELAY_RESP_LENGTH)?;
    reserve(gm, 2, 1, DELAY_RESP_LENGTH)?;
    reserve(gm, 3, 1, DELAY_RESP_LENGTH)
}

// Whether the datagram may be a Delay_Req, by the messageType in its first octet.
fn may_be_delay_req(octets: &[u8]) -> bool
    ensures { result ≡ (low_nibble_at octets.now 0 == 1) }
{
    !octets.is_empty() && low_nibble(octets, 0) == DELAY_REQ
}

/// Makes room for the one datagram that may answer this one: a Delay_Resp in the port of each
/// table, or a Signaling in its own.
///
/// # Errors
/// `OutOfMemory`. The grandmaster goes on as before, with nothing more in its ports.
#[tactic(auto, using(crate::proofs::Rooms::room_of_responses, crate::proofs::Rooms::room_of_reply))]
pub fn reserve_answer(gm: &mut Gm<MemPort>, octets: &[u8]) -> Result<(), OutOfMemory>
    ensures room { OnOk result ((config : GmConfig) →
        HasRoomToAnswer (heard_in config octets.now) gm.new) }
    ensures goes_on { GoesOn gm.old gm.new }
    ensures idle { AreIdle gm.old → AreIdle gm.new }
    ensures sure { AreSure gm.old → AreSure gm.new }
{
    if may_be_delay_req(octets) {
        reserve_responses(gm)
    } else {
        reserve(gm, SIGNALING_PORT, 1, LONGEST_SIGNALING)
    }
}

// Hands over what stands in the port of this index, and clears it.
#[inline(always)]
fn hand_over_port(
    gm: &mut Gm<MemPort>,
    port: usize,
    ip: u32,
    journal: &mut Journal,
) -> Result<(), OutOfMemory>
    requires { port < 5 }
    ensures handed { OnOk result
        (journal.new ≡ with_handed ip (port_at port gm.old).sent journal.old) }
    ensures cleared { OnOk result
        (gm.new ≡ with_port port (record (port_at port gm.old) { sent = [] }) gm.old) }
{
    journal.hand_over(gm.ports(port), ip)
}

/// Hands over what stands in the ports of the grandmaster at this address, port by port, and clears
/// them.
///
/// # Errors
/// `OutOfMemory`. Nothing is said of the ports and the journal then: the run ends.
pub fn hand_over_all(
    gm: &mut Gm<MemPort>,
    ip: u32,
    journal: &mut Journal,
) -> Result<(), OutOfMemory>
    ensures handed { OnOk result (journal.new ≡ with_handed ip (in_ports gm.old) journal.old) }
    ensures goes_on { OnOk result (GoesOn gm.old gm.new) }
    ensures idle { OnOk result (AreIdle gm.new) }
    ensures sure { OnOk result (AreSure gm.old → AreSure gm.new) }
{
    hand_over_port(gm, 0, ip, journal)?;
    hand_over_port(gm, 1, ip, journal)?;
    hand_over_port(gm, 2, ip, journal)?;
    hand_over_port(gm, 3, ip, journal)?;
    hand_over_port(gm, SIGNALING_PORT, ip, journal)
}
