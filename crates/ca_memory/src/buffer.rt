ghost use Rattle.std.specs.Prelude.{◌≡◌, OnOk, OnErr, IfOk, length};
ghost use Rattle.ca_base.specs.ca_keys.Memory.{little_endian};

use crate::number::number_put;
use ca_base::limits::ATOMIC_BYTES;
use ca_base::{AtomicOp, Memory, Run};
use std::alloc::Global;
use std::marker::Model;

/// A buffer of an adapter's memory. Contracts see it as the list of its bytes.
#[derive(Drop)]
pub struct Buffer {
    bytes: Vec<u8>,
}

impl Model for Buffer {
    ghost use Rattle.std.specs.Prelude.{ℕ, List};

    ghost Value = { List ℕ };

    ghost view = { λ buffer. buffer.bytes.items };
}

impl Buffer {
    ghost use Rattle.std.specs.Prelude.{◌+◌, ◌++◌, [], ◌∷◌, replicate};
    ghost use Rattle.ca_base.specs.ca_keys.Memory.{bytes_at, little_endian_bytes};
    ghost use Rattle.ca_base.specs.ca_keys.declared.place.Run.{Run};
    ghost use Rattle.ca_memory.specs.Buffer.{memory_of, IsInside, bytes_after, IsWrittenAt};
    ghost use Rattle.ca_memory.specs.Number.{number_after};

    /// A buffer of `length` bytes that are all 0.
    pub fn zeroed(alloc: Global, length: u32) -> Result<Buffer, Memory>
        ensures { IfOk result (λ buffer. buffer ≡ replicate length 0) }
    {
        Ok(Buffer {
            bytes: vec![in alloc; 0; length as usize]?,
        })
    }

    /// Appends the bytes at the places of the run, in order. `Memory` leaves `out` as it was.
    pub fn read(&self, at: &Run, out: &mut Vec<u8>) -> Result<(), Memory>
        requires { IsInside at.now.offset at.now.length self.now }
        ensures bytes { OnOk result (out.new.items ≡ out.old.items ++ bytes_at (memory_of self.now) (at.now ∷ [])) }
        ensures count { OnOk result (length out.new.items ≡ length out.old.items + at.now.length) }
        ensures err { OnErr result (out.new.items ≡ out.old.items) }
    {
        let begin = at.offset as usize;
        let end = begin + at.length as usize;
        out.extend_from_slice(&self.bytes[begin..end])?;
        Ok(())
    }

    /// Puts the bytes to the places of the run, in order. There are as many as the run has places.
    pub fn write(&mut self, at: &Run, bytes: &[u8])
        requires inside { IsInside at.now.offset at.now.length self.old }
        requires count { length bytes.now ≡ at.now.length }
        ensures bytes { self.new ≡ bytes_after at.now.offset bytes.now self.old }
        ensures places { IsWrittenAt at.now bytes.now self.old self.new }
        ensures count { length self.new ≡ length self.old }
    {
        self.put(at.offset as usize, bytes);
    }

    /// Gives the number that the eight bytes from `offset` on hold, least significant first, and puts the one that the
    /// atomic makes of it.
    pub fn swap(&mut self, offset: u32, op: AtomicOp) -> u64
        requires { IsInside offset ATOMIC_BYTES self.old }
        ensures found { (at : Run) → at.offset ≡ offset → at.length ≡ ATOMIC_BYTES
            → result ≡ little_endian (bytes_at (memory_of self.old) (at ∷ [])) }
        ensures bytes { self.new ≡ bytes_after offset (little_endian_bytes (number_after op result)) self.old }
        ensures places { (at : Run) → at.offset ≡ offset → at.length ≡ ATOMIC_BYTES
            → IsWrittenAt at (little_endian_bytes (number_after op result)) self.old self.new }
        ensures count { length self.new ≡ length self.old }
    {
        let begin = offset as usize;
        let found = number_in(&self.bytes[begin..begin + ATOMIC_BYTES as usize]);
        self.put(begin, &number_put(op, found).to_le_bytes());
        found
    }

    fn put(&mut self, begin: usize, bytes: &[u8])
        requires { IsInside begin (length bytes.now) self.old }
        ensures { self.new ≡ bytes_after begin bytes.now self.old }
    {
        self.bytes[begin..begin + bytes.len()].copy_from_slice(bytes);
    }
}

fn number_in(bytes: &[u8]) -> u64
    requires { length bytes.now ≡ ATOMIC_BYTES }
    ensures { result ≡ little_endian bytes.now }
{
    match bytes.as_array::<8>() {
        Some(eight) => u64::from_le_bytes(*eight),
        None => unreachable!(),
    }
}
