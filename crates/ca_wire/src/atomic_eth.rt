ghost use Rattle.std.specs.Prelude.{◌≡◌, ◌+◌, ◌++◌, ◌≤◌, length};
ghost use Rattle.ca_wire.specs.Packet.{atomic_bytes, FitsAtomic};
ghost use Rattle.ca_wire.specs.Decoding.{atomic_from};
ghost use Rattle.ca_wire.specs.Writing.{HasRoom, Grows};

use crate::numbers::{group, halves, put_groups, u32_at, u64_at};
use ca_base::Key;

/// How many bytes an AtomicETH has.
pub const ATOMIC_ETH_BYTES: usize = 28;

/// Atomic extended transport header: what a CmpSwap or a FetchAdd does.
#[derive(Clone, Copy)]
pub struct AtomicEth {
    /// The virtual address of the eight bytes.
    pub address: u64,
    /// The R_Key.
    pub key: Key,
    /// The value that CmpSwap puts in place, or the value that FetchAdd adds.
    pub swap: u64,
    /// The value that CmpSwap compares with; FetchAdd sends 0.
    pub compare: u64,
}

impl AtomicEth {
    /// The AtomicETH at the front of these bytes.
    #[inline(always)]
    #[tactic(auto, unfolding(crate::specs::Decoding::atomic_from))]
    pub(crate) fn read(bytes: &[u8]) -> AtomicEth
        requires { ATOMIC_ETH_BYTES ≤ length bytes.now }
        ensures { result ≡ atomic_from bytes.now }
    {
        let (address, rest) = u64_at(bytes);
        let (key, rest) = u32_at(rest);
        let (swap, rest) = u64_at(rest);
        let (compare, _) = u64_at(rest);
        AtomicEth {
            address,
            key: Key(key),
            swap,
            compare,
        }
    }

    /// Adds an AtomicETH at the end of a list that has room for it.
    #[inline(always)]
    pub(crate) fn put(self, out: &mut Vec<u8>)
        requires { HasRoom out.old ATOMIC_ETH_BYTES }
        ensures items { out.new.items ≡ out.old.items ++ atomic_bytes self }
        ensures room { Grows out.old out.new ATOMIC_ETH_BYTES }
        ensures fits { FitsAtomic self }
    {
        let (high, low) = halves(self.address);
        let (swap_high, swap_low) = halves(self.swap);
        let (compare_high, compare_low) = halves(self.compare);
        let key = group(self.key.0);
        put_groups(
            &[
                high,
                low,
                key,
                swap_high,
                swap_low,
                compare_high,
                compare_low,
            ],
            out,
        );
    }
}
