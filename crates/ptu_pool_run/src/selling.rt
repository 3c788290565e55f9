//! Pools are sold one after the other.

ghost use Rattle.std.specs.Prelude.{◌≡◌, ◌++◌, ◌∷◌, [], All, IfErr, IfOk, None, Some, length};
ghost use Rattle.ptu_pool_run.specs.Refusal.{Share};
ghost use Rattle.ptu_pool_run.specs.{Selling.{selling_refusal}, Standing.{AreSold}};

use crate::cause::PoolCause;
use crate::pool_set::MOST;
use crate::{Pool, Pools, PoolsFault};
use ptu_nodes::config_of;
use ptu_outside::MemPort;
use ptu_script::GrandmasterSetup;
use ptu_units::OutOfMemory;
use std::alloc::Global;

// So many ports in memory, at which nothing waits and no call is to fail.
fn idle_ports(alloc: Global, count: usize) -> Result<Vec<MemPort>, OutOfMemory>
    ensures count { IfOk result (λ ports. length ports.items ≡ count) }
    ensures idle { IfOk result (λ ports. All (λ port. port.sent ≡ []) ports.items) }
    ensures sure { IfOk result (λ ports. All (λ port. port.failing_sends ≡ []) ports.items) }
{
    let mut ports = Vec::new(alloc);
    for _ in 0..count {
        let (waiting, sends, receives) = (Vec::new(alloc), Vec::new(alloc), Vec::new(alloc));
        ports.push(MemPort::new(alloc, waiting, sends, receives))?;
    }
    Ok(ports)
}

// These pools and one more.
fn with_pool(alloc: Global, before: &[Pool], pool: Pool) -> Result<Vec<Pool>, OutOfMemory>
    ensures { IfOk result (λ all. all.items ≡ before.now ++ pool ∷ []) }
{
    let mut all = Vec::from_slice(alloc, before)?;
    all.push(pool)?;
    Ok(all)
}

/// The pools with one more behind those that were sold before, without grants; or why the
/// grandmaster that is set up so cannot sell it.
///
/// # Errors
/// `OutOfMemory`. Nothing was changed then.
pub fn sell(
    alloc: Global,
    setup: &GrandmasterSetup,
    before: &[Pool],
    pool: Pool,
) -> Result<Result<Pools<MemPort>, PoolCause>, OutOfMemory>
    requires { Share setup.now.capacity before.now }
    ensures refused { IfOk result (λ sold. IfErr sold
        (λ cause. selling_refusal setup.now.capacity before.now pool ≡ Some cause)) }
    ensures none { IfOk result (λ sold. IfOk sold
        (λ _. selling_refusal setup.now.capacity before.now pool ≡ None)) }
    ensures pools { IfOk result (λ sold. IfOk sold
        (λ pools. pools.pools ≡ before.now ++ pool ∷ [])) }
    ensures sold { IfOk result (λ sold. IfOk sold (λ pools. AreSold setup.now pools [])) }
{
    if !pool.is_network() {
        return Ok(Err(PoolCause::Net));
    }
    if before.len() >= MOST {
        return Ok(Err(PoolCause::Full));
    }
    let all = with_pool(alloc, before, pool)?;
    let ports = idle_ports(alloc, 5 * all.len())?;
    match Pools::new(alloc, config_of(setup), setup.capacity.get(), &all, ports) {
        Ok(pools) => Ok(Ok(pools)),
        Err(PoolsFault::Net { .. }) => Ok(Err(PoolCause::Net)),
        Err(PoolsFault::Overlap { .. }) => Ok(Err(PoolCause::Overlap)),
        Err(PoolsFault::Over { .. }) => Ok(Err(PoolCause::Over)),
        Err(PoolsFault::OutOfMemory) => Err(OutOfMemory),
    }
}
