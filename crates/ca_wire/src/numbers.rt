ghost use Rattle.std.specs.Prelude.{◌≡◌, ◌+◌, ◌*◌, ◌/◌, ◌%◌, ◌^◌, ◌++◌, ◌≤◌, length, drop};
ghost use Rattle.std.specs.Int.{w32, w64};
ghost use Rattle.std.specs.List.{flat_map};
ghost use Rattle.ca_wire.specs.Packet.{be_bytes};
ghost use Rattle.ca_wire.specs.Decoding.{number_at, number_from};
ghost use Rattle.ca_wire.specs.Writing.{HasRoom, Grows};

use crate::writing::put;

/// How many bytes an AtomicAckETH has.
pub const ATOMIC_ACK_ETH_BYTES: usize = 8;

/// How many bytes an ImmDt has.
pub const IMM_DT_BYTES: usize = 4;

/// How many bytes an IETH has.
pub const IETH_BYTES: usize = 4;

/// The big-endian number of four bytes at the front, and the bytes after it.
#[inline(always)]
#[tactic(auto, unfolding(crate::specs::Decoding::number_at))]
pub fn u32_at(bytes: &[u8]) -> (u32, &[u8])
    requires { 4 ≤ length bytes.now }
    ensures value { (result.0, result.1.now) ≡ number_at w32 bytes.now }
    ensures rest { length result.1.now + 4 ≡ length bytes.now }
{
    let (front, rest) = bytes.split_at(4);
    let number = u32::from_be_bytes([front[0], front[1], front[2], front[3]]);
    (number, rest)
}

/// The big-endian number of eight bytes at the front, and the bytes after it.
#[inline(always)]
#[tactic(auto, unfolding(crate::specs::Decoding::number_at))]
pub fn u64_at(bytes: &[u8]) -> (u64, &[u8])
    requires { 8 ≤ length bytes.now }
    ensures value { (result.0, result.1.now) ≡ number_at w64 bytes.now }
    ensures rest { length result.1.now + 8 ≡ length bytes.now }
{
    let (front, rest) = bytes.split_at(8);
    let number = u64::from_be_bytes([
        front[0], front[1], front[2], front[3], front[4], front[5], front[6], front[7],
    ]);
    (number, rest)
}

/// The big-endian number of four bytes at the front.
#[inline(always)]
#[tactic(auto, unfolding(crate::specs::Decoding::number_from))]
pub fn u32_from(bytes: &[u8]) -> u32
    requires { 4 ≤ length bytes.now }
    ensures { result ≡ number_from w32 bytes.now }
{
    u32_at(bytes).0
}

/// The big-endian number of four bytes behind this many.
#[inline(always)]
pub fn u32_behind(size: usize, bytes: &[u8]) -> u32
    requires { size + 4 ≤ length bytes.now }
    ensures { result ≡ number_from w32 (drop size bytes.now) }
{
    let (_, rest) = bytes.split_at(size);
    u32_from(rest)
}

/// The big-endian number of eight bytes behind this many.
#[inline(always)]
pub fn u64_behind(size: usize, bytes: &[u8]) -> u64
    requires { size + 8 ≤ length bytes.now }
    ensures { result ≡ number_from w64 (drop size bytes.now) }
{
    let (_, rest) = bytes.split_at(size);
    u64_from(rest)
}

/// The big-endian number of eight bytes at the front.
#[inline(always)]
#[tactic(auto, unfolding(crate::specs::Decoding::number_from))]
fn u64_from(bytes: &[u8]) -> u64
    requires { 8 ≤ length bytes.now }
    ensures { result ≡ number_from w64 bytes.now }
{
    u64_at(bytes).0
}

/// A number as four bytes, the highest first.
#[inline(always)]
#[tactic(auto, unfolding(crate::specs::Packet::be_bytes))]
pub fn group(number: u32) -> [u8; 4]
    ensures { result ≡ be_bytes w32 number }
{
    number.to_be_bytes()
}

/// The high and the low half of a number of eight bytes, each as bytes, the highest first.
#[inline(always)]
pub fn halves(number: u64) -> ([u8; 4], [u8; 4])
    ensures high { result.0 ≡ be_bytes w32 (number / 2 ^ 32) }
    ensures low { result.1 ≡ be_bytes w32 (number % 2 ^ 32) }
{
    let high = (number >> 32) as u32;
    let low = (number % 0x1_0000_0000) as u32;
    (group(high), group(low))
}

/// Adds groups of four bytes at once.
#[inline(always)]
pub fn put_groups(groups: &[[u8; 4]], out: &mut Vec<u8>)
    requires { HasRoom out.old (length groups.now * 4) }
    ensures items { out.new.items ≡ out.old.items ++ flat_map (λ x. x) groups.now }
    ensures room { Grows out.old out.new (length groups.now * 4) }
{
    put(groups.as_flattened(), out);
}

/// Adds a number of four bytes, the highest first.
#[inline(always)]
#[tactic(auto, unfolding(crate::specs::Packet::be_bytes))]
pub fn put_u32(number: u32, out: &mut Vec<u8>)
    requires { HasRoom out.old 4 }
    ensures items { out.new.items ≡ out.old.items ++ be_bytes w32 number }
    ensures room { Grows out.old out.new 4 }
{
    put(&number.to_be_bytes(), out);
}

/// Adds a number of eight bytes, the highest first.
#[inline(always)]
#[tactic(auto, unfolding(crate::specs::Packet::be_bytes))]
pub fn put_u64(number: u64, out: &mut Vec<u8>)
    requires { HasRoom out.old 8 }
    ensures items { out.new.items ≡ out.old.items ++ be_bytes w64 number }
    ensures room { Grows out.old out.new 8 }
{
    put(&number.to_be_bytes(), out);
}
