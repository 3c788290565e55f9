//! Pools are made with five ports each.

ghost use Rattle.std.specs.Prelude.{◌≡◌, ◌<◌, ◌≤◌, ◌*◌, ◌∷◌, [], length, IfOk, MatchOption};
ghost use Rattle.std.specs.Vec.Iter.{into_iter_items};
ghost use Rattle.ptu_pool_run.specs.{Making.{AreFresh}, PoolsStanding.{ports_of_all}};

use crate::pool::Pool;
use ptu_grandmaster::Gm;
use ptu_outside::Port;
use ptu_profile::GmConfig;
use ptu_units::OutOfMemory;
use std::alloc::Global;
use std::vec::IntoIter;

// The next five ports: those of four tables, then that of Signaling messages.
fn next_five<P: Port>(ports: &mut IntoIter<P>) -> Option<(P, P, P, P, P)>
    ensures { MatchOption result (length (into_iter_items ports.old) < 5)
        (λ five. into_iter_items ports.old
        ≡ five.0 ∷ five.1 ∷ five.2 ∷ five.3 ∷ five.4 ∷ into_iter_items ports.new) }
{
    let p0 = ports.next()?;
    let p1 = ports.next()?;
    let p2 = ports.next()?;
    let p3 = ports.next()?;
    let reply = ports.next()?;
    Some((p0, p1, p2, p3, reply))
}

// A grandmaster for each pool, in order.
pub(crate) fn grandmasters<P: Port>(
    alloc: Global,
    config: &GmConfig,
    pools: &[Pool],
    ports: Vec<P>,
) -> Result<Vec<Gm<P>>, OutOfMemory>
    requires { length ports.items ≡ 5 * length pools.now }
    ensures each { IfOk result (λ gms. length gms.items ≡ length pools.now) }
    ensures ports { IfOk result (λ gms. ports_of_all gms.items ≡ ports.items) }
    ensures fresh { IfOk result (λ gms. AreFresh config.now pools.now gms.items) }
{
    let mut gms = Vec::with_capacity(alloc, pools.len())?;
    let mut rest = ports.into_iter();
    for pool in pools {
        let (p0, p1, p2, p3, reply) = next_five(&mut rest).unwrap();
        gms.push(Gm::new(alloc, *config, pool.capacity, p0, p1, p2, p3, reply))?;
    }
    Ok(gms)
}
