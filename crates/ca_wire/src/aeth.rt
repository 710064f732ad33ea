ghost use Rattle.std.specs.Prelude.{◌≡◌, ◌+◌, ◌++◌, ◌^◌, ◌<◌, ◌≤◌, length};
ghost use Rattle.ca_wire.specs.Packet.{aeth_bytes};
ghost use Rattle.ca_wire.specs.Decoding.{aeth_from};
ghost use Rattle.ca_wire.specs.Writing.{HasRoom, Grows};

use crate::numbers::u32_at;
use crate::writing::put;

/// How many bytes an AETH has.
pub const AETH_BYTES: usize = 4;

/// ACK extended transport header.
#[derive(Clone, Copy)]
pub struct Aeth {
    /// What it says, as [`crate::Syndrome`] spells it.
    pub syndrome: u8,
    /// The message sequence number, below 2^24.
    pub msn: u32,
}

impl Aeth {
    /// The AETH at the front of these bytes.
    #[inline(always)]
    #[tactic(auto, unfolding(crate::specs::Decoding::aeth_from))]
    pub(crate) fn read(bytes: &[u8]) -> Aeth
        requires { AETH_BYTES ≤ length bytes.now }
        ensures { result ≡ aeth_from bytes.now }
    {
        let (word, _) = u32_at(bytes);
        Aeth {
            syndrome: (word >> 24) as u8,
            msn: word % 0x100_0000,
        }
    }

    /// Adds an AETH at the end of a list that has room for it.
    #[inline(always)]
    #[tactic(auto, unfolding(crate::specs::Packet::be_bytes))]
    pub(crate) fn put(self, out: &mut Vec<u8>)
        requires msn { self.msn < 2 ^ 24 }
        requires room { HasRoom out.old AETH_BYTES }
        ensures items { out.new.items ≡ out.old.items ++ aeth_bytes self }
        ensures room { Grows out.old out.new AETH_BYTES }
        ensures fits { self.syndrome < 2 ^ 8 }
    {
        let word = u32::from(self.syndrome) * 0x100_0000 + self.msn;
        put(&word.to_be_bytes(), out);
    }
}
