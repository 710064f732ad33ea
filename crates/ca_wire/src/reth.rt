ghost use Rattle.std.specs.Prelude.{◌≡◌, ◌+◌, ◌++◌, ◌≤◌, length};
ghost use Rattle.ca_wire.specs.Packet.{reth_bytes, FitsReth};
ghost use Rattle.ca_wire.specs.Decoding.{reth_from};
ghost use Rattle.ca_wire.specs.Writing.{HasRoom, Grows};

use crate::numbers::{group, halves, put_groups, u32_at, u64_at};
use ca_base::Key;

/// How many bytes a RETH has.
pub const RETH_BYTES: usize = 16;

/// RDMA extended transport header: what a WRITE or a READ reaches.
#[derive(Clone, Copy)]
pub struct Reth {
    /// The virtual address of the first byte.
    pub address: u64,
    /// The R_Key.
    pub key: Key,
    /// The DMA length of the whole message, in bytes.
    pub length: u32,
}

impl Reth {
    /// The RETH at the front of these bytes.
    #[inline(always)]
    #[tactic(auto, unfolding(crate::specs::Decoding::reth_from))]
    pub(crate) fn read(bytes: &[u8]) -> Reth
        requires { RETH_BYTES ≤ length bytes.now }
        ensures { result ≡ reth_from bytes.now }
    {
        let (address, rest) = u64_at(bytes);
        let (key, rest) = u32_at(rest);
        let (length, _) = u32_at(rest);
        Reth {
            address,
            key: Key(key),
            length,
        }
    }

    /// Adds a RETH at the end of a list that has room for it.
    #[inline(always)]
    pub(crate) fn put(self, out: &mut Vec<u8>)
        requires { HasRoom out.old RETH_BYTES }
        ensures items { out.new.items ≡ out.old.items ++ reth_bytes self }
        ensures room { Grows out.old out.new RETH_BYTES }
        ensures fits { FitsReth self }
    {
        let (high, low) = halves(self.address);
        put_groups(&[high, low, group(self.key.0), group(self.length)], out);
    }
}
