//! Pools: a grandmaster for each, beside one another.

ghost use Rattle.std.specs.Prelude.{◌≡◌, ◌<◌, ◌≤◌, ◌*◌, ◌∷◌, [], ◌++◌, ℕ, List, length, Option, Some, slice_get, option_map, IfOk, IfErr, IfSome, OnOk, OnErr, IsTrue};
ghost use Rattle.std.specs.{Borrow.{sem}, List.{position}};
ghost use Rattle.ptu_messages.specs.MessageFault.{IsSignaling};
ghost use Rattle.ptu_profile.specs.declared.grandmaster.GmConfig.{GmConfig};
ghost use Rattle.ptu_grandmaster.specs.Gm.{IsUnchanged, port_at, table_at};
ghost use Rattle.ptu_pool_run.specs.{Pool.{is_in, is_in_at}, Refusal.{IsRefused, Share}};
ghost use Rattle.ptu_pool_run.specs.Events.{PoolEvent, Came, Turned as TurnedEvent};
ghost use Rattle.ptu_pool_run.specs.{Making.{AreFresh}, PoolsStanding.{ChangesOne, StandFor, ports_of_all}};
ghost use Rattle.ptu_pool_run.specs.{Changes.{Took, TookTurn}, Ported.{with_port_of}};
ghost use Rattle.ptu_pool_run.specs.Lends.{LendsPort};

use crate::judging::judge;
use crate::making::grandmasters;
use crate::pool::Pool;
use crate::pools_fault::PoolsFault;
use ptu_grandmaster::{Gm, Taken};
use ptu_outside::Port;
use ptu_profile::GmConfig;
use ptu_shard::Turned;
use ptu_units::{Moment, OutOfMemory};
use std::alloc::Global;
use std::marker::Model;

/// So many pools there are at most.
pub(crate) const MOST: usize = 16;

/// Pools, each with a grandmaster of its own. No address is in two of them.
#[derive(Drop)]
pub struct Pools<P: Port> {
    pools: Vec<Pool>,
    gms: Vec<Gm<P>>,
}

impl<P: Port> Model for Pools<P> {
    ghost use Rattle.std.specs.Prelude.{◌≡◌, ◌≤◌, length};
    ghost use Rattle.ptu_pool_run.specs.{Pool.{AreApart}, PoolsStanding.{KeptPools}};

    ghost Value = { KeptPools P };

    ghost view = { λ p. record { pools = p.pools.items; gms = p.gms.items } };

    ghost invariant = { λ p. (length p.pools.items ≡ length p.gms.items)
        × (length p.pools.items ≤ 16) × AreApart p.pools.items };
}

/// What became of a datagram.
#[derive(Drop)]
pub enum PoolTaken {
    /// Its sender's address is in no pool, and nothing has changed.
    Stranger,
    /// It was taken by the grandmaster of the pool at this place, which did this.
    In(usize, Taken),
}

/// The place of the pool that the address is in.
pub(crate) fn pool_of(pools: &[Pool], ip: u32) -> Option<usize>
    ensures place { result ≡ position (is_in ip) pools.now }
    ensures within { IfSome result (λ place. place < length pools.now) }
{
    pools.iter().position(|pool| pool.contains(ip))
}

impl<P: Port> Pools<P> {
    /// Pools without grants, at moment 0, whose capacities, in sixteenths of a message per second,
    /// sum to at most this one. The first five ports are those of the first pool: of its tables,
    /// then of its Signaling messages. The next five are those of the second pool, and so on.
    ///
    /// # Errors
    /// The first cause that applies: a pool that is no network, an address in two pools, capacities
    /// that sum above the whole, or out of memory.
    pub fn new(
        alloc: Global,
        config: GmConfig,
        capacity: u64,
        pools: &[Pool],
        ports: Vec<P>,
    ) -> Result<Pools<P>, PoolsFault>
        requires some { 1 ≤ length pools.now }
        requires few { length pools.now ≤ 16 }
        requires ports { length ports.items ≡ 5 * length pools.now }
        ensures share { OnOk result (Share capacity pools.now) }
        ensures refused { IfErr result (λ fault. IsRefused capacity pools.now fault) }
        ensures pools { IfOk result (λ made. made.pools ≡ pools.now) }
        ensures ports { IfOk result (λ made. ports_of_all made.gms ≡ ports.items) }
        ensures stands { IfOk result (λ made. StandFor config made []) }
    {
        judge(capacity, pools)?;
        let gms = grandmasters(alloc, &config, pools, ports)?;
        Ok(Pools::assembled(alloc, capacity, &config, pools, gms)?)
    }

    // The pools with these grandmasters, which are fresh.
    fn assembled(
        alloc: Global,
        capacity: u64,
        config: &GmConfig,
        pools: &[Pool],
        gms: Vec<Gm<P>>,
    ) -> Result<Pools<P>, OutOfMemory>
        requires few { length pools.now ≤ 16 }
        requires share { Share capacity pools.now }
        requires each { length gms.items ≡ length pools.now }
        requires fresh { AreFresh config.now pools.now gms.items }
        ensures pools { IfOk result (λ made. made.pools ≡ pools.now) }
        ensures gms { IfOk result (λ made. made.gms ≡ gms.items) }
        ensures stands { IfOk result (λ made. StandFor config.now made []) }
    {
        let copy = Vec::from_slice(alloc, pools)?;
        Ok(Pools { pools: copy, gms })
    }

    /// The pools, in order.
    pub fn pools(&self) -> &[Pool]
        ensures { result.now ≡ self.now.pools }
    {
        &self.pools
    }

    /// Takes a datagram that came from this IPv4 address: the grandmaster of its pool takes it, at
    /// the core's moment for `t`. A datagram from an address in no pool changes nothing.
    ///
    /// # Errors
    /// `OutOfMemory` comes for a Signaling from an address in a pool alone. Then no pool has
    /// changed.
    pub fn take(&mut self, t: Moment, from: u32, bytes: &[u8]) -> Result<PoolTaken, OutOfMemory>
        ensures took { IfOk result
            (λ taken. Took P.Port t from bytes.now taken self.old self.new) }
        ensures stands { OnOk result ((config : GmConfig) (events : List PoolEvent) →
            StandFor config self.old events →
            StandFor config self.new (events ++ Came t from bytes.now ∷ [])) }
        ensures memory { OnErr result ((n : ℕ) × IsSignaling bytes.now n) }
        ensures unchanged { OnErr result ((place : ℕ) × IsTrue (is_in_at self.old.pools place from)
            × ChangesOne place IsUnchanged self.old self.new) }
        ensures still { OnErr result ((config : GmConfig) (events : List PoolEvent) →
            StandFor config self.old events → StandFor config self.new events) }
    {
        let Some(place) = pool_of(&self.pools, from) else {
            return Ok(PoolTaken::Stranger);
        };
        let taken = self.gms[place].take(t, from, bytes)?;
        Ok(PoolTaken::In(place, taken))
    }

    /// Returns what `take` answered of the pool at this place, so that its buffer is used again for
    /// the pool's next Signaling.
    pub fn give_back(&mut self, pool: usize, taken: Taken)
        requires { pool < length self.old.pools }
        ensures { self.new ≡ self.old }
    {
        self.gms[pool].give_back(taken);
    }

    /// A table of the pool at this place takes a turn, at the core's moment for `t`. No memory.
    pub fn turn(&mut self, pool: usize, table: usize, t: Moment) -> Turned
        requires pool { pool < length self.old.pools }
        requires table { table < 4 }
        ensures turned { ChangesOne pool (TookTurn P.Port t table result) self.old self.new }
        ensures stands { (config : GmConfig) (events : List PoolEvent) →
            StandFor config self.old events →
            StandFor config self.new (events ++ TurnedEvent t pool table ∷ []) }
    {
        self.gms[pool].turn(table, t)
    }

    /// The port of this index, from 0 to 4, of the pool at this place: those of its tables, then
    /// that of its Signaling messages.
    pub fn ports(&mut self, pool: usize, index: usize) -> &mut P
        requires pool { pool < length self.old.pools }
        requires index { index < 5 }
        ensures* lends { sem 𝓛 (LendsPort P.row P.Port pool index self.entry result) }
        ensures value { option_map (port_at index) (slice_get self.old.gms pool) ≡ Some result.now }
        // Whatever the port is left as, the pools stand for what they stood for.
        ensures stands { (port : P) (config : GmConfig) (events : List PoolEvent) →
            StandFor config self.old events →
            StandFor config (with_port_of pool index port self.old) events }
    {
        self.gms[pool].ports(index)
    }

    /// How many rows the table of this index, from 0 to 3, of the pool at this place keeps. A turn
    /// of it hands at most so many datagrams to its port.
    pub fn count(&self, pool: usize, table: usize) -> usize
        requires pool { pool < length self.now.pools }
        requires table { table < 4 }
        ensures { option_map (λ gm. length (table_at table gm).rows) (slice_get self.now.gms pool)
            ≡ Some result }
    {
        self.gms[pool].count(table)
    }
}
