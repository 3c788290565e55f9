//! What is set up from a source that fails, and with few judges.

use ptu_config::{Key, RefusalLine, SetupFault, gm_setup, slave_setup};
use ptu_outside::MemSource;
use ptu_units::Capacity;
use std::alloc::Global;
use std::test::Fail;

const GM: &str = "ip = \"127.0.0.1\"\nclock = \"0a00000000000001\"\ncapacity = 8\nrounds = 1\n";

const SLAVE: &str = "ip = \"127.0.0.1\"\nclock = \"0a00000000000011\"\nrounds = 1\n\
    [[masters]]\nip = \"10.0.0.1\"\n[[masters]]\nip = \"10.0.0.2\"\njudge = \"gap\"\n";

// The capacities of the grandmaster that is set up, or why none is, where the reads with these
// numbers fail.
fn set_up(
    alloc: Global,
    failing: Vec<u64>,
) -> Result<Result<(Capacity, Option<Capacity>), SetupFault>, Fail> {
    let mut source = MemSource::new(GM.as_bytes().to_vec(alloc)?, failing);
    Ok(match gm_setup(alloc, &mut source) {
        Ok(settings) => Ok((settings.capacity, settings.new_capacity)),
        Err(fault) => Err(fault),
    })
}

// The first read fails, or the one behind all octets.
#[test]
fn a_read_that_fails_sets_nothing_up(rt: HostRuntime) -> Result<(), Fail> {
    let alloc = rt.alloc();
    for call in [1, 2] {
        let answer = set_up(alloc, vec![in alloc; call]?)?;
        assert_eq!(rt; answer, Err(SetupFault::Read));
    }
    Ok(())
}

#[test]
fn a_slave_has_a_judge_of_each_rule(rt: HostRuntime) -> Result<(), Fail> {
    let alloc = rt.alloc();
    let short = Some(SetupFault::Refused(RefusalLine::Bad(Key::Masters)));
    for (flags, gaps, wanted) in [(1, 1, None), (0, 1, short), (1, 0, short)] {
        let mut source = MemSource::new(SLAVE.as_bytes().to_vec(alloc)?, Vec::new(alloc));
        let fault = slave_setup(alloc, &mut source, flags, gaps).err();
        assert_eq!(rt; fault, wanted);
    }
    Ok(())
}
