//! A pool: the addresses of one customer, as a network address with its leading bits, and its
//! capacity.

ghost use Rattle.std.specs.Prelude.{◌≡◌, ◌-◌};
ghost use Rattle.ptu_pool_run.specs.Pool.{is_in, is_network, meets};

use ptu_units::Capacity;

/// A customer's pool of IPv4 addresses, and the capacity that it is sold.
#[derive(Clone, Copy)]
pub struct Pool {
    /// The first address of the pool, its first octet the highest.
    pub net: u32,
    /// An address is in the pool where so many of its first bits are those of `net`, from 0 to 32.
    pub bits: u8,
    /// Its capacity.
    pub capacity: Capacity,
}

impl Pool {
    // How many bits of an address are free in the pool.
    fn free_bits(&self) -> u32
        ensures { result ≡ 32 - self.now.bits }
    {
        32_u32.saturating_sub(u32::from(self.bits))
    }

    /// The address is in the pool.
    pub fn contains(&self, ip: u32) -> bool
        ensures { result ≡ is_in ip self.now }
    {
        let free = self.free_bits();
        u64::from(ip) >> free == u64::from(self.net) >> free
    }

    /// It has at most 32 bits, and its address has none set after them.
    pub fn is_network(&self) -> bool
        ensures { result ≡ is_network self.now }
    {
        self.bits <= 32 && u64::from(self.net) % (1_u64 << self.free_bits()) == 0
    }

    // One of the pools has the other's first address.
    pub(crate) fn meets(&self, other: &Pool) -> bool
        ensures { result ≡ meets self.now other.now }
    {
        self.contains(other.net) || other.contains(self.net)
    }
}
