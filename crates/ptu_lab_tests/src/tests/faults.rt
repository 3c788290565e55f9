//! A source or a sink that fails ends the output of each program over lines.

use ptu_audit::{AuditFault, audit};
use ptu_outside::{MemSink, MemSource};
use ptu_pool_run::{PoolRunFault, pools};
use ptu_show::{JoinFault, LabFault, join, show};
use std::alloc::{AllocError, Global};
use std::test::Fail;

// A source of this input, and a sink; the read and the write with these numbers fail, of which
// none has the number 0.
fn ends(
    alloc: Global,
    input: &str,
    failing: (u64, u64),
) -> Result<(MemSource, MemSink), AllocError> {
    let bytes = Vec::from_slice(alloc, input.as_bytes())?;
    let source = MemSource::new(bytes, vec![in alloc; failing.0]?);
    let sink = MemSink::new(alloc, vec![in alloc; failing.1]?);
    Ok((source, sink))
}

// The input, the read and the write that fail, and the fault. (The last lines of two inputs have no
// end.)
const SHOW_FAULTS: [(&str, (u64, u64), LabFault); 4] = [
    ("-\n", (2, 0), LabFault::Read),
    ("-\n", (0, 2), LabFault::Write),
    ("-\n-", (2, 0), LabFault::Read),
    ("-\n-", (0, 2), LabFault::Write),
];

#[test]
fn show_ends_at_a_fault(rt: HostRuntime) -> Result<(), Fail> {
    let alloc = rt.alloc();
    for (input, failing, fault) in SHOW_FAULTS {
        let (mut source, mut sink) = ends(alloc, input, failing)?;
        let answer = show(alloc, &mut source, &mut sink);
        assert_eq!(rt;
            (answer, sink.bytes()),
            (Err(fault), b"1 fault short 0\n".as_slice())
        );
    }
    Ok(())
}

const JOIN_FAULTS: [((u64, u64), JoinFault); 2] = [
    ((2, 0), JoinFault::Read),
    ((0, 2), JoinFault::Write),
];

#[test]
fn join_ends_at_a_fault(rt: HostRuntime) -> Result<(), Fail> {
    let alloc = rt.alloc();
    for (failing, fault) in JOIN_FAULTS {
        let (mut source, mut sink) = ends(alloc, "-\n", failing)?;
        let answer = join(alloc, &mut source, &mut sink);
        assert_eq!(rt;
            (answer, sink.bytes()),
            (Err(fault), b"1 pass\n".as_slice())
        );
    }
    Ok(())
}

const AUDIT_FAULTS: [((u64, u64), AuditFault); 2] = [
    ((2, 0), AuditFault::Read),
    ((0, 1), AuditFault::Write),
];

#[test]
fn an_audit_ends_at_a_fault(rt: HostRuntime) -> Result<(), Fail> {
    let alloc = rt.alloc();
    for (failing, fault) in AUDIT_FAULTS {
        let (mut source, mut sink) = ends(alloc, "end 0 0", failing)?;
        let answer = audit(alloc, 8, &mut source, &mut sink);
        assert_eq!(rt; (answer, sink.bytes()), (Err(fault), b"".as_slice()));
    }
    Ok(())
}

// A grandmaster of 16 sixteenths, and one customer of half of them.
const ONE_CUSTOMER: &str = "gm 10.0.0.1 0a00000000000001 1 4 84 16 300\npool 10.0.1.0 24 8\n";

const POOLS_FAULTS: [((u64, u64), PoolRunFault); 2] = [
    ((1, 0), PoolRunFault::Read),
    ((0, 1), PoolRunFault::Write),
];

#[test]
fn pools_end_at_a_fault(rt: HostRuntime) -> Result<(), Fail> {
    let alloc = rt.alloc();
    for (failing, fault) in POOLS_FAULTS {
        let (mut source, mut sink) = ends(alloc, ONE_CUSTOMER, failing)?;
        let answer = pools(alloc, &mut source, &mut sink);
        assert_eq!(rt; (answer, sink.bytes()), (Err(fault), b"".as_slice()));
    }
    Ok(())
}
