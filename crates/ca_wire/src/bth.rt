ghost use Rattle.std.specs.Prelude.{◌≡◌, ◌++◌, ◌<◌, take, None, Some, IfOk, IfErr, OnOk, IsOkAnd};
ghost use Rattle.std.specs.Int.{w32};
ghost use Rattle.ca_wire.specs.declared.bth.Bth.{Bth};
ghost use Rattle.ca_wire.specs.Packet.{SpellsBth, FitsBth, be_bytes, bit, bth_bytes, bth_refusal_of, canonical};
ghost use Rattle.ca_wire.specs.Decoding.{Returns, bth_at, front_at};
ghost use Rattle.ca_wire.specs.Writing.{HasRoom, Grows};

use crate::numbers::{group, put_groups, u32_at};
use crate::wire_error::WireError;

/// How many bytes the base transport header has.
pub const BTH_BYTES: usize = 12;

/// The base transport header.
#[derive(Clone, Copy, Debug, PartialEq)]
pub struct Bth {
    /// What the packet is, by the table of opcodes.
    pub opcode: u8,
    /// The responder is asked for a solicited event.
    pub solicited: bool,
    /// MigReq: the migration state.
    pub migrated: bool,
    /// How many pad bytes follow the payload, below 4.
    pub pad: u8,
    /// The partition key.
    pub pkey: u16,
    /// The number of the destination queue pair, below 2^24.
    pub queue: u32,
    /// AckReq: an acknowledgement is asked for.
    pub ack: bool,
    /// The packet sequence number, below 2^24.
    pub psn: u32,
}

#[inline(always)]
fn bit_of(flag: bool) -> u32
    ensures { result ≡ bit flag }
{
    if flag { 1 } else { 0 }
}

#[inline(always)]
fn put_words(first: u32, second: u32, third: u32, out: &mut Vec<u8>)
    requires { HasRoom out.old BTH_BYTES }
    ensures items { out.new.items ≡ out.old.items
        ++ (be_bytes w32 first ++ (be_bytes w32 second ++ be_bytes w32 third)) }
    ensures room { Grows out.old out.new BTH_BYTES }
{
    put_groups(&[group(first), group(second), group(third)], out);
}

impl Bth {
    /// The base transport header at the front, and the bytes after it.
    #[inline(always)]
    #[tactic(auto, unfolding(crate::specs::Decoding::bth_at))]
    pub(crate) fn read(bytes: &[u8]) -> Result<(Bth, &[u8]), WireError>
        ensures value { Returns (λ x. (x.0, x.1.now)) result (bth_at bytes.now) }
        ensures pad { IfOk result (λ x. x.0.pad < 4) }
    {
        if bytes.len() < BTH_BYTES {
            return Err(WireError::TooShort);
        }
        let (first, rest) = u32_at(bytes);
        let (second, rest) = u32_at(rest);
        let (third, rest) = u32_at(rest);
        if (first >> 16) % 16 != 0 {
            return Err(WireError::Version);
        }
        let bth = Bth {
            opcode: (first >> 24) as u8,
            solicited: (first >> 23) % 2 == 1,
            migrated: (first >> 22) % 2 == 1,
            pad: ((first >> 20) % 4) as u8,
            pkey: (first % 0x1_0000) as u16,
            queue: second % 0x100_0000,
            ack: third >> 31 == 1,
            psn: third % 0x100_0000,
        };
        Ok((bth, rest))
    }

    /// Adds the canonical spelling at the end of a list that has room for it.
    #[inline(always)]
    pub(crate) fn put(self, out: &mut Vec<u8>)
        requires fits { FitsBth self }
        requires room { HasRoom out.old BTH_BYTES }
        ensures items { out.new.items ≡ out.old.items ++ bth_bytes (canonical 0) self }
        ensures room { Grows out.old out.new BTH_BYTES }
    {
        let flags = bit_of(self.solicited) * 8 + bit_of(self.migrated) * 4 + u32::from(self.pad);
        let first = u32::from(self.opcode) * 0x100_0000 + flags * 0x10_0000 + u32::from(self.pkey);
        let third = bit_of(self.ack) * 0x8000_0000 + self.psn;
        put_words(first, self.queue, third, out);
    }
}

#[tactic(auto, unfolding(crate::specs::Decoding::front_at))]
fn front_of(bytes: &[u8]) -> Result<Bth, WireError>
    ensures { Returns (λ b. b) result (front_at bytes.now) }
{
    let (bth, _) = Bth::read(bytes)?;
    Ok(bth)
}

/// The base transport header at the front of these bytes, whatever follows it: `TooShort` exactly where there are fewer
/// than 12 bytes, and else `Version` exactly where the header version is not 0. It takes no memory.
pub fn read_bth(bytes: &[u8]) -> Result<Bth, WireError>
    ensures found { IfOk result (λ b. SpellsBth (take BTH_BYTES bytes.now) b) }
    ensures only { (b : Bth) → SpellsBth (take BTH_BYTES bytes.now) b → IsOkAnd result (λ r. r ≡ b) }
    ensures refused { IfErr result (λ e. bth_refusal_of bytes.now ≡ Some e) }
    ensures taken { OnOk result (bth_refusal_of bytes.now ≡ None) }
{
    front_of(bytes)
}
