ghost use Rattle.std.specs.Prelude.{◌≡◌, None, Some, IfOk, IfErr, OnOk, IsOkAnd, drop, take, length, ◌+◌};
ghost use Rattle.ca_wire.specs.Decoding.{packet_in};
ghost use Rattle.ca_wire.specs.Packet.{Fields, Spells, headers_size, refusal_of};

use crate::bth::{BTH_BYTES, Bth};
use crate::headers::body_of;
use crate::packet::Packet;
use crate::wire_error::WireError;

/// The packet that these bytes spell, all of them. The payload is a slice of `bytes`; no memory is taken. A refusal is
/// the first test that holds, in the order of the variants of [`WireError`], but that `TooShort` is tested again after
/// `Opcode`, for the headers that the opcode has.
#[inline(always)]
pub fn decode(bytes: &[u8]) -> Result<Packet<'_>, WireError>
    // The reading from left to right gives the same, packet or refusal.
    ensures value { result ≡ packet_in bytes.now }
    // What is read is spelt so.
    ensures found { IfOk result (λ p. Spells bytes.now p) }
    // What is spelt so is read.
    ensures only { (f : Fields) → Spells bytes.now f → IsOkAnd result (λ p. p ≡ f) }
    // Which test refuses.
    ensures refused { IfErr result (λ e. refusal_of bytes.now ≡ Some e) }
    ensures taken { OnOk result (refusal_of bytes.now ≡ None) }
    // Which part of the bytes the payload is.
    ensures payload { IfOk result (λ p. p.payload
        ≡ take (length p.payload) (drop (BTH_BYTES + headers_size p.opcode) bytes.now)) }
{
    let (bth, rest) = Bth::read(bytes)?;
    let (headers, payload) = body_of(bth.opcode, bth.pad, rest)?;
    Ok(Packet {
        opcode: bth.opcode,
        solicited: bth.solicited,
        migrated: bth.migrated,
        pkey: bth.pkey,
        queue: bth.queue,
        ack: bth.ack,
        psn: bth.psn,
        reth: headers.reth,
        atomic: headers.atomic,
        aeth: headers.aeth,
        result: headers.result,
        imm: headers.imm,
        ieth: headers.ieth,
        payload,
    })
}
