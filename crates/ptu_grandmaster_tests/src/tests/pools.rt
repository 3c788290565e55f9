use ptu_outside::MemPort;
use ptu_pool_run::{Pool, Pools, PoolsFault};
use ptu_shard::samples::CONFIG;
use ptu_units::Capacity;
use std::alloc::Global;
use std::test::Fail;

// A pool of a test: its address, its bits, and its capacity in sixteenths of a message per second.
#[derive(Clone, Copy)]
struct Row {
    net: u32,
    bits: u8,
    capacity: u64,
}

fn pool(row: Row) -> Result<Pool, Fail> {
    Ok(Pool {
        net: row.net,
        bits: row.bits,
        capacity: Capacity::of(row.capacity).ok_or("a capacity is within its limits")?,
    })
}

// Pools of a grandmaster of this capacity.
fn made(
    alloc: Global,
    capacity: u64,
    pools: &[Pool],
) -> Result<Result<Pools<MemPort>, PoolsFault>, Fail> {
    let mut ports = Vec::new(alloc);
    for _ in 0..5 * pools.len() {
        let (waiting, sends, receives) = (Vec::new(alloc), Vec::new(alloc), Vec::new(alloc));
        ports.push(MemPort::new(alloc, waiting, sends, receives))?;
    }
    if pools.is_empty() || pools.len() > 16 || ports.len() != 5 * pools.len() {
        return Err(Fail::new("1 to 16 pools with five ports each"));
    }
    Ok(Pools::new(alloc, CONFIG, capacity, pools, ports))
}

// A pool within the capacity of 17, a second one, and one of all addresses.
const FIRST: Row = Row {
    net: 0x0a00_0100,
    bits: 24,
    capacity: 8,
};

const SECOND: Row = Row {
    net: 0x0a00_0200,
    ..FIRST
};

const ALL: Row = Row {
    net: 0,
    bits: 0,
    capacity: 8,
};

// One within the second, one whose address has bits behind its net, one of more bits than an
// address has, and two of addresses of their own.
const WITHIN: Row = Row {
    net: 0x0a00_0201,
    bits: 32,
    capacity: 1,
};

const BEHIND: Row = Row {
    net: 0x0a00_0301,
    bits: 24,
    capacity: 1,
};

const TOO_LONG: Row = Row {
    net: 0,
    bits: 33,
    capacity: 1,
};

const OVER: Row = Row {
    net: 0x0a00_0300,
    bits: 24,
    capacity: 2,
};

const LAST: Row = Row {
    capacity: 1,
    ..OVER
};

const CASES: [([Row; 3], Option<PoolsFault>); 7] = [
    (
        [FIRST, SECOND, ALL],
        Some(PoolsFault::Overlap {
            first: 0,
            second: 2,
        }),
    ),
    (
        [FIRST, ALL, ALL],
        Some(PoolsFault::Overlap {
            first: 0,
            second: 1,
        }),
    ),
    (
        [FIRST, SECOND, WITHIN],
        Some(PoolsFault::Overlap {
            first: 1,
            second: 2,
        }),
    ),
    ([FIRST, SECOND, BEHIND], Some(PoolsFault::Net { at: 2 })),
    ([FIRST, TOO_LONG, ALL], Some(PoolsFault::Net { at: 1 })),
    ([FIRST, SECOND, OVER], Some(PoolsFault::Over { sum: 18 })),
    ([FIRST, SECOND, LAST], None),
];

// Which pools are at fault, and their sum: of these a report has the cause alone.
#[test]
fn pools_are_refused(rt: HostRuntime) -> Result<(), Fail> {
    for ([first, second, third], fault) in CASES {
        let pools = [pool(first)?, pool(second)?, pool(third)?];
        assert_eq!(rt; made(rt.alloc(), 17, &pools)?.err(), fault);
    }
    Ok(())
}
