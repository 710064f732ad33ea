ghost use Rattle.std.specs.Prelude.{◌≡◌, ◌+◌, ◌++◌, ◌^◌, ◌<◌, OnOk, OnErr, IfSome, is_some, [], replicate};
ghost use Rattle.std.specs.Int.{w32, w64};
ghost use Rattle.std.specs.Option.{option_map_or};
ghost use Rattle.ca_wire.specs.Packet.{FitsReth, FitsAtomic, IsWellFormed, Spells, be_bytes, pad_count, reth_bytes, atomic_bytes, aeth_bytes, spelling};
ghost use Rattle.ca_wire.specs.Decoding.{if_there};
ghost use Rattle.ca_wire.specs.Writing.{HasRoom, Grows};

use crate::aeth::{AETH_BYTES, Aeth};
use crate::atomic_eth::{ATOMIC_ETH_BYTES, AtomicEth};
use crate::bth::{BTH_BYTES, Bth};
use crate::numbers::{ATOMIC_ACK_ETH_BYTES, IETH_BYTES, IMM_DT_BYTES, put_u32, put_u64};
use crate::packet::Packet;
use crate::reth::{RETH_BYTES, Reth};
use crate::writing::put;
use ca_base::Memory;

#[inline(always)]
fn pad_of(len: usize) -> usize
    ensures { result ≡ pad_count len }
{
    (4 - len % 4) % 4
}

#[inline(always)]
fn size_if(present: bool, size: usize) -> usize
    ensures { result ≡ if_there present size }
{
    if present { size } else { 0 }
}

// How many bytes the headers that are there have.
#[inline(always)]
fn size_of_headers(p: &Packet<'_>) -> usize
    ensures { result ≡ if_there (is_some p.now.reth) 16 + if_there (is_some p.now.atomic) 28
        + if_there (is_some p.now.aeth) 4 + if_there (is_some p.now.result) 8
        + if_there (is_some p.now.imm) 4 + if_there (is_some p.now.ieth) 4 }
{
    size_if(p.reth.is_some(), RETH_BYTES)
        + size_if(p.atomic.is_some(), ATOMIC_ETH_BYTES)
        + size_if(p.aeth.is_some(), AETH_BYTES)
        + size_if(p.result.is_some(), ATOMIC_ACK_ETH_BYTES)
        + size_if(p.imm.is_some(), IMM_DT_BYTES)
        + size_if(p.ieth.is_some(), IETH_BYTES)
}

#[inline(always)]
fn put_reth(reth: Option<Reth>, out: &mut Vec<u8>)
    requires { HasRoom out.old (if_there (is_some reth) 16) }
    ensures items { out.new.items ≡ out.old.items ++ option_map_or reth_bytes reth [] }
    ensures room { Grows out.old out.new (if_there (is_some reth) 16) }
    ensures fits { IfSome reth FitsReth }
{
    if let Some(reth) = reth {
        reth.put(out);
    }
}

#[inline(always)]
fn put_atomic(atomic: Option<AtomicEth>, out: &mut Vec<u8>)
    requires { HasRoom out.old (if_there (is_some atomic) 28) }
    ensures items { out.new.items ≡ out.old.items ++ option_map_or atomic_bytes atomic [] }
    ensures room { Grows out.old out.new (if_there (is_some atomic) 28) }
    ensures fits { IfSome atomic FitsAtomic }
{
    if let Some(atomic) = atomic {
        atomic.put(out);
    }
}

#[inline(always)]
fn put_aeth(aeth: Option<Aeth>, out: &mut Vec<u8>)
    requires msn { IfSome aeth (λ a. a.msn < 2 ^ 24) }
    requires room { HasRoom out.old (if_there (is_some aeth) 4) }
    ensures items { out.new.items ≡ out.old.items ++ option_map_or aeth_bytes aeth [] }
    ensures room { Grows out.old out.new (if_there (is_some aeth) 4) }
    ensures fits { IfSome aeth (λ a. a.syndrome < 2 ^ 8) }
{
    if let Some(aeth) = aeth {
        aeth.put(out);
    }
}

#[inline(always)]
fn put_u64_if(number: Option<u64>, out: &mut Vec<u8>)
    requires { HasRoom out.old (if_there (is_some number) 8) }
    ensures items { out.new.items ≡ out.old.items ++ option_map_or (be_bytes w64) number [] }
    ensures room { Grows out.old out.new (if_there (is_some number) 8) }
    ensures fits { IfSome number (λ n. n < 2 ^ 64) }
{
    if let Some(number) = number {
        put_u64(number, out);
    }
}

#[inline(always)]
fn put_u32_if(number: Option<u32>, out: &mut Vec<u8>)
    requires { HasRoom out.old (if_there (is_some number) 4) }
    ensures items { out.new.items ≡ out.old.items ++ option_map_or (be_bytes w32) number [] }
    ensures room { Grows out.old out.new (if_there (is_some number) 4) }
    ensures fits { IfSome number (λ n. n < 2 ^ 32) }
{
    if let Some(number) = number {
        put_u32(number, out);
    }
}

#[inline(always)]
#[tactic(auto, using(crate::proofs::WritingLaws::zeros))]
fn put_pad(count: usize, out: &mut Vec<u8>)
    requires count { count < 4 }
    requires room { HasRoom out.old count }
    ensures items { out.new.items ≡ out.old.items ++ replicate count 0 }
    ensures room { Grows out.old out.new count }
{
    if count != 0 {
        put(&[0; 3][..count], out);
    }
}

/// Appends the one canonical spelling of a packet: reserved bits and pad bytes are 0. It makes room once, and `Memory`
/// leaves the list as it was.
///
/// The packet is well formed: its headers are those of its opcode, its numbers fit their fields, and its payload has at
/// most 4096 bytes and none where the opcode allows none.
#[inline(always)]
pub fn encode(p: &Packet<'_>, out: &mut Vec<u8>) -> Result<(), Memory>
    requires { IsWellFormed p.now }
    ensures ok { OnOk result (out.new.items ≡ out.old.items ++ spelling p.now) }
    ensures err { OnErr result (out.new.items ≡ out.old.items) }
    // What is written spells the packet, and so is read as it.
    ensures again { Spells (spelling p.now) p.now }
{
    let pad = pad_of(p.payload.len());
    out.reserve(BTH_BYTES + size_of_headers(p) + p.payload.len() + pad)?;
    let bth = Bth {
        opcode: p.opcode,
        solicited: p.solicited,
        migrated: p.migrated,
        pad: pad as u8,
        pkey: p.pkey,
        queue: p.queue,
        ack: p.ack,
        psn: p.psn,
    };
    bth.put(out);
    put_reth(p.reth, out);
    put_atomic(p.atomic, out);
    put_aeth(p.aeth, out);
    put_u64_if(p.result, out);
    put_u32_if(p.imm, out);
    put_u32_if(p.ieth, out);
    put(p.payload, out);
    put_pad(pad, out);
    Ok(())
}
