//! What settings are read as, with all that has a default.

use ptu_config::samples::GM_SETTINGS;
use ptu_config::{MasterSetting, gm_settings, slave_settings};
use ptu_units::{Capacity, Kind, Log, UdpPortNumber};
use std::alloc::Global;
use std::test::Fail;

// The required settings of a grandmaster.
const GM: &str = "ip = \"127.0.0.1\"\nclock = \"0a00000000000001\"\ncapacity = 8\nrounds = 1\n";

// The required settings of a slave, and one more.
const SLAVE: &str = "ip = \"127.0.0.1\"\nclock = \"0a00000000000011\"\nrounds = 1\n\
    log_delay = 0\n[[masters]]\nip = \"10.0.0.1\"\n";

#[test]
fn settings_of_a_grandmaster(rt: HostRuntime) -> Result<(), Fail> {
    let settings = gm_settings(rt.alloc(), GM.as_bytes())?;
    assert_eq!(rt; settings, GM_SETTINGS);
    Ok(())
}

// What the settings of a grandmaster have that may be left out: a capacity, and a control port.
type LeftOut = (Option<Capacity>, Option<UdpPortNumber>);

// The capacity that the settings of a grandmaster have, what may be left out, and how many rounds
// they make.
fn gm_rounds(alloc: Global, text: &str) -> Result<(Capacity, LeftOut, u64), Fail> {
    let settings = gm_settings(alloc, text.as_bytes())?;
    Ok((
        settings.capacity,
        (settings.new_capacity, settings.control_port),
        settings.all_rounds(),
    ))
}

// How many rounds the settings of a slave make.
fn slave_rounds(alloc: Global, text: &str) -> Result<u64, Fail> {
    let settings = slave_settings(alloc, text.as_bytes())?;
    Ok(settings.all_rounds())
}

// The settings with a repetition, and how many rounds these make. The greatest product is wider
// than 32 bits.
#[test]
fn rounds_are_repeated(rt: HostRuntime) -> Result<(), Fail> {
    for (rounds, repeat, all) in [
        ("30", "7", 210),
        ("1", "1000", 1000),
        ("4294967295", "1000", 4_294_967_295_000_u64),
    ] {
        let mut text = String::new(rt.alloc());
        text.push_str("ip = \"127.0.0.1\"\nclock = \"0a00000000000001\"\nrounds = ")?;
        text.push_str(rounds)?;
        text.push_str("\nrepeat = ")?;
        text.push_str(repeat)?;
        let mut gm = text.clone()?;
        gm.push_str("\ncapacity = 8\n")?;
        text.push_str("\n[[masters]]\nip = \"10.0.0.1\"\n")?;
        let (capacity, left_out, rounds) = gm_rounds(rt.alloc(), gm.as_str())?;
        assert!(rt; (capacity.get(), left_out, rounds) == (8, (None, None), all));
        assert_eq!(rt; slave_rounds(rt.alloc(), text.as_str())?, all);
    }
    Ok(())
}

#[test]
fn settings_of_a_slave(rt: HostRuntime) -> Result<(), Fail> {
    let settings = slave_settings(rt.alloc(), SLAVE.as_bytes())?;
    let values = (
        settings.ip,
        settings.clock,
        settings.wait_to_restore.get(),
        settings.duration.get(),
        settings.log_delay,
    );
    assert!(rt; (settings.rounds, settings.repeat) == (1, 1));
    let log = Log::of(Kind::DelayResp, 0);
    assert_eq!(rt; values, (0x7F00_0001, 0x0A00_0000_0000_0011, 300, 300, log));
    let master = MasterSetting {
        ip: 0x0A00_0001,
        priority: 128,
        gap: false,
    };
    assert_eq!(rt; settings.masters.list(), [master].as_slice());
    Ok(())
}
