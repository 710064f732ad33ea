ghost use Rattle.ca_wire.specs.Packet.{IsWellFormed};

mod packet_text;
mod vectors;

use ca_base::{Key, Memory};
use ca_wire::*;
use packet_text::PacketText;
use std::alloc::Global;
use std::process::Abort;
use std::test::*;
use vectors::{DISSECTED, SENT};

fn bytes_of(alloc: Global, text: &str) -> Result<Vec<u8>, Fail> {
    Ok(hex::decode(alloc, text)?)
}

fn text_is(rt: &impl Abort, text: &str, want: &str) {
    assert_eq!(rt; text, want);
}

// These bytes are a packet that says this, whose canonical spelling is that one.
fn is_packet<R: Abort + AllocGlobal>(
    rt: &R,
    text: &str,
    fields: &str,
    spelling: &str,
) -> Result<(), Fail> {
    let bytes = bytes_of(rt.alloc(), text)?;
    let p = decode(&bytes)?;
    text_is(
        rt,
        format!(in rt.alloc(); "{}", PacketText(&p))?.as_str(),
        fields,
    );
    is_spelt(rt, &p, spelling)
}

// The packet is spelt so.
fn is_spelt<R: Abort + AllocGlobal>(rt: &R, p: &Packet<'_>, text: &str) -> Result<(), Fail>
    requires { IsWellFormed p.now }
{
    let mut out = Vec::new(rt.alloc());
    encode(p, &mut out)?;
    text_is(rt, hex::encode(rt.alloc(), out.as_slice())?.as_str(), text);
    Ok(())
}

#[test]
fn other_programs_read_and_send_the_same(rt: HostRuntime) -> Result<(), Fail> {
    for rows in [DISSECTED, SENT].as_slice() {
        for line in rows.lines() {
            if let Some((text, fields)) = line.split_once(' ') {
                is_packet(&rt, text, fields, text)?;
            }
        }
    }
    Ok(())
}

#[test]
fn what_is_ignored_is_sent_as_zero(rt: HostRuntime) -> Result<(), Fail> {
    let fields = "opcode=4 se=0 mig=0 pkey=65535 qp=256 ackreq=1 psn=1 payload=1";
    is_packet(
        &rt,
        "0430ffff3f000100ff00000101264b70",
        fields,
        "0430ffff000001008000000101000000",
    )
}

fn outcome(bytes: &[u8]) -> Result<usize, WireError> {
    Ok(decode(bytes)?.payload.len())
}

fn outcome_is(rt: &impl Abort, bytes: &[u8], want: Result<usize, WireError>) {
    assert_eq!(rt; outcome(bytes), want);
}

const TOO_SHORT: Result<usize, WireError> = Err(WireError::TooShort);

const OPCODE: Result<usize, WireError> = Err(WireError::Opcode);

const LENGTH: Result<usize, WireError> = Err(WireError::Length);

const PAD: Result<usize, WireError> = Err(WireError::Pad);

/// Bytes with less than a base transport header, or less than the headers of the opcode.
const SHORT: &str = "
0a30ffff00000100800000
153fffff00000100800000
0a30ffff0000010080000000000000010000000000000001000000
1110ffff00000100000000001f0000";

/// Another header version; where it stands the opcode does not matter.
const OTHER_VERSION: &str = "0a31ffff000001008000000000000001000000000000000100000001ab000000
0a32ffff000001008000000000000001000000000000000100000001ab000000
0a33ffff000001008000000000000001000000000000000100000001ab000000
0a3fffff000001008000000000000001000000000000000100000001ab000000
1531ffff0000010080000000";

/// An opcode that is not in the table.
const OTHER_OPCODE: &str = "1530ffff000001008000000000000001000000000000000100000001ab000000
1530ffff0000010080000000";

/// What follows the headers is no multiple of four, or stands where nothing may.
const WRONG_LENGTH: &str = "0a30ffff000001008000000000000001000000000000000100000001ab0000
1110ffff00000100000000001f00000100
1100ffff00000100000000001f00000100000000";

/// A pad count where nothing follows the headers.
const NEEDLESS_PAD: &str = "0a30ffff000001008000000000000001000000000000000100000001
1110ffff00000100000000001f000001";

fn are_refused<R: Abort + AllocGlobal>(rt: &R, texts: &str, why: WireError) -> Result<(), Fail> {
    for text in texts.lines() {
        outcome_is(rt, &bytes_of(rt.alloc(), text)?, Err(why));
    }
    Ok(())
}

#[test]
fn the_first_test_that_fails_is_the_refusal(rt: HostRuntime) -> Result<(), Fail> {
    are_refused(&rt, SHORT, WireError::TooShort)?;
    are_refused(&rt, OTHER_VERSION, WireError::Version)?;
    are_refused(&rt, OTHER_OPCODE, WireError::Opcode)?;
    are_refused(&rt, WRONG_LENGTH, WireError::Length)?;
    are_refused(&rt, NEEDLESS_PAD, WireError::Pad)
}

// A packet of this opcode with these flags and otherwise zeros, this many bytes long.
fn zeros(alloc: Global, opcode: u8, flags: u8, len: usize) -> Result<Vec<u8>, Memory> {
    let mut bytes = vec![in alloc; opcode, flags]?;
    for _ in 2..len {
        bytes.push(0)?;
    }
    Ok(bytes)
}

/// The bytes of the headers of each opcode, from 0 on; None for those that are not known.
const HEADER_BYTES: [Option<usize>; 24] = [
    Some(0),
    Some(0),
    Some(0),
    Some(4),
    Some(0),
    Some(4),
    Some(16),
    Some(0),
    Some(0),
    Some(4),
    Some(16),
    Some(20),
    Some(16),
    Some(4),
    Some(0),
    Some(4),
    Some(4),
    Some(4),
    Some(12),
    Some(28),
    Some(28),
    None,
    Some(4),
    Some(4),
];

#[test]
fn opcodes_and_their_headers(rt: HostRuntime) -> Result<(), Fail> {
    for opcode in 0..=255u8 {
        let size = HEADER_BYTES.as_slice().get(usize::from(opcode));
        match size {
            Some(Some(size)) => {
                for len in 2..12 + *size {
                    outcome_is(&rt, &zeros(rt.alloc(), opcode, 0, len)?, TOO_SHORT);
                }
                outcome_is(&rt, &zeros(rt.alloc(), opcode, 0, 12 + *size)?, Ok(0));
            }
            _ => outcome_is(&rt, &zeros(rt.alloc(), opcode, 0, 40)?, OPCODE),
        }
    }
    Ok(())
}

/// How many bytes follow the headers, the pad count, how many bytes of payload are read where one may stand, and where
/// none may.
const PAYLOADS: [(
    usize,
    u8,
    Result<usize, WireError>,
    Result<usize, WireError>,
); 22] = [
    (0, 0, Ok(0), Ok(0)),
    (0, 1, PAD, PAD),
    (0, 2, PAD, PAD),
    (0, 3, PAD, PAD),
    (1, 0, LENGTH, LENGTH),
    (1, 1, LENGTH, LENGTH),
    (2, 2, LENGTH, LENGTH),
    (3, 3, LENGTH, LENGTH),
    (4, 0, Ok(4), LENGTH),
    (4, 1, Ok(3), LENGTH),
    (4, 2, Ok(2), LENGTH),
    (4, 3, Ok(1), LENGTH),
    (5, 1, LENGTH, LENGTH),
    (6, 2, LENGTH, LENGTH),
    (7, 3, LENGTH, LENGTH),
    (8, 0, Ok(8), LENGTH),
    (8, 3, Ok(5), LENGTH),
    (9, 1, LENGTH, LENGTH),
    (4096, 0, Ok(4096), LENGTH),
    (4096, 3, Ok(4093), LENGTH),
    (4100, 3, LENGTH, LENGTH),
    (4100, 0, LENGTH, LENGTH),
];

#[test]
fn payloads_and_pad_bytes(rt: HostRuntime) -> Result<(), Fail> {
    for row in PAYLOADS.as_slice() {
        let (rest, pad, some, none) = *row;
        let flags = (pad % 4) << 4;
        outcome_is(
            &rt,
            &zeros(rt.alloc(), opcode::SEND_ONLY, flags, 12 + rest % 8192)?,
            some,
        );
        outcome_is(
            &rt,
            &zeros(rt.alloc(), opcode::ACKNOWLEDGE, flags, 16 + rest % 8192)?,
            none,
        );
    }
    Ok(())
}

fn front_is(rt: &impl Abort, bytes: &[u8], want: Result<Bth, WireError>) {
    assert_eq!(rt; read_bth(bytes), want);
}

#[test]
fn the_base_transport_header_alone(rt: HostRuntime) -> Result<(), Fail> {
    let want = Bth {
        opcode: 255,
        solicited: true,
        migrated: true,
        pad: 2,
        pkey: 0xfffe,
        queue: 0x80_0001,
        ack: true,
        psn: 0x80_0002,
    };
    front_is(
        &rt,
        &bytes_of(rt.alloc(), "ffe0fffe3f800001ff80000215")?,
        Ok(want),
    );
    front_is(&rt, &[0xff; 11], Err(WireError::TooShort));
    for version in 1..16u8 {
        front_is(
            &rt,
            &zeros(rt.alloc(), 10, version, 12)?,
            Err(WireError::Version),
        );
    }
    Ok(())
}

#[test]
fn the_answers_that_the_engines_send(rt: HostRuntime) -> Result<(), Fail> {
    is_spelt(
        &rt,
        &acknowledgement(256, 0, 1),
        "1100ffff00000100000000001f000001",
    )?;
    is_spelt(
        &rt,
        &rnr_nak(12, 256, 0, 0),
        "1100ffff00000100000000002c000000",
    )?;
    let denied = nak(NakCode::RemoteAccessError, 256, 1, 1);
    is_spelt(&rt, &denied, "1100ffff000001000000000162000001")?;
    let found = atomic_acknowledge(0x0102_0304_0506_0708, 257, 6, 6);
    is_spelt(
        &rt,
        &found,
        "1200ffff00000101000000061f0000060102030405060708",
    )?;
    let last = Segment { index: 1, count: 2 };
    is_spelt(
        &rt,
        &read_response(last, 256, 1, 3, &[0xab]),
        "0f30ffff00000100000000011f000003ab000000",
    )
}

/// An RDMA WRITE Only of one byte.
const WRITE: &str = "0a30ffff000001008000000000000001000000000000000100000001ab000000";

#[test]
fn the_requests_that_the_engines_send(rt: HostRuntime) -> Result<(), Fail> {
    let reth = Reth {
        address: 0x1_0000_0000,
        key: Key(1),
        length: 1,
    };
    let only = Segment { index: 0, count: 1 };
    let last = Segment { index: 1, count: 2 };
    is_spelt(
        &rt,
        &write_packet(only, reth, None, true, 256, 0, &[0xab]),
        WRITE,
    )?;
    let immediate = SendKind::WithImmediate(0xdead_beef);
    let send = send_packet(
        immediate,
        last,
        true,
        0xff_ffff,
        0xff_fffe,
        &[1, 0x26, 0x4b, 0x70, 0x95],
    );
    is_spelt(
        &rt,
        &send,
        "03b0ffff00ffffff80fffffedeadbeef01264b7095000000",
    )?;
    let invalidate = SendKind::WithInvalidate(Key(0x0800_0138));
    let send = send_packet(invalidate, last, true, 17, 165, &[0x74]);
    is_spelt(&rt, &send, "16b0ffff00000011800000a50800013874000000")?;
    let read = "0c00ffff000001008000000400000001000000000000000100000001";
    is_spelt(&rt, &read_request(reth, 256, 4), read)
}

#[test]
fn the_atomics_that_the_engines_send(rt: HostRuntime) -> Result<(), Fail> {
    let swap = AtomicEth {
        address: 4_294_967_304,
        key: Key(1),
        swap: 77,
        compare: 0,
    };
    let text = "1300ffff0000010080ffffff000000010000000800000001000000000000004d0000000000000000";
    is_spelt(&rt, &cmp_swap(swap, 256, 0xff_ffff), text)?;
    let text = "1400ffff000001008000000000000001000004000000000100000000000000050000000000000000";
    is_spelt(&rt, &fetch_add(4_294_968_320, Key(1), 5, 256, 0), text)
}
