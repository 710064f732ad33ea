ghost use Rattle.std.specs.Prelude.{◌≡◌, ◌<◌, length};
ghost use Rattle.ca_memory.specs.Buffer.{IsInside};

use ca_base::{AtomicOp, Memory, Run};
use ca_memory::Buffer;
use std::alloc::Global;
use std::process::Abort;
use std::test::Fail;

const BYTES: u32 = 16;

fn run(offset: u32, length: u32) -> Run
    ensures offset { result.offset ≡ offset }
    ensures count { result.length ≡ length }
{
    Run {
        adapter: 0,
        buffer: 0,
        offset,
        length,
    }
}

fn put(buffer: &mut Buffer, offset: u32, bytes: &[u8])
    requires inside { IsInside offset (length bytes.now) buffer.old }
    requires short { length bytes.now < 256 }
    ensures { length buffer.new ≡ length buffer.old }
{
    buffer.write(&run(offset, bytes.len() as u32), bytes);
}

fn all_bytes(alloc: Global, buffer: &Buffer) -> Result<Vec<u8>, Memory>
    requires { length buffer.now ≡ BYTES }
{
    let mut bytes = Vec::new(alloc);
    buffer.read(&run(0, BYTES), &mut bytes)?;
    Ok(bytes)
}

fn bytes_are(rt: &impl Abort, bytes: &[u8], want: &[u8]) {
    assert_eq!(rt; bytes, want);
}

fn number_is(rt: &impl Abort, number: u64, want: u64) {
    assert_eq!(rt; number, want);
}

#[test]
fn reads_what_was_written_and_nothing_beside_it(rt: HostRuntime) -> Result<(), Fail> {
    let mut buffer = Buffer::zeroed(rt.alloc(), BYTES)?;
    put(&mut buffer, 0, b"abc");
    put(&mut buffer, 13, b"xyz");
    put(&mut buffer, 2, b"");
    put(&mut buffer, 1, b"B");
    let mut bytes = Vec::from_slice(rt.alloc(), b"read ")?;
    buffer.read(&run(12, 4), &mut bytes)?;
    bytes_are(&rt, bytes.as_slice(), b"read \0xyz");
    bytes_are(
        &rt,
        all_bytes(rt.alloc(), &buffer)?.as_slice(),
        b"aBc\0\0\0\0\0\0\0\0\0\0xyz",
    );
    Ok(())
}

/// The number that stands in the last eight bytes, an atomic on them, and the number that stands there afterwards.
const ATOMICS: [(u64, AtomicOp, u64); 5] = [
    (
        5,
        AtomicOp::CmpSwap {
            compare: 5,
            swap: 7,
        },
        7,
    ),
    (
        5,
        AtomicOp::CmpSwap {
            compare: 6,
            swap: 7,
        },
        5,
    ),
    (
        u64::MAX,
        AtomicOp::CmpSwap {
            compare: u64::MAX,
            swap: 0,
        },
        0,
    ),
    (5, AtomicOp::FetchAdd { add: 7 }, 12),
    (u64::MAX, AtomicOp::FetchAdd { add: 2 }, 1),
];

#[test]
fn swaps_the_last_eight_bytes(rt: HostRuntime) -> Result<(), Fail> {
    for row in ATOMICS.as_slice() {
        let (begin, op, want) = *row;
        let mut buffer = Buffer::zeroed(rt.alloc(), BYTES)?;
        number_is(&rt, buffer.swap(8, AtomicOp::FetchAdd { add: begin }), 0);
        number_is(&rt, buffer.swap(8, op), begin);
        number_is(&rt, buffer.swap(8, AtomicOp::FetchAdd { add: 0 }), want);
        number_is(&rt, buffer.swap(0, AtomicOp::FetchAdd { add: 0 }), 0);
    }
    Ok(())
}

#[test]
fn keeps_the_least_significant_byte_first(rt: HostRuntime) -> Result<(), Fail> {
    let mut buffer = Buffer::zeroed(rt.alloc(), BYTES)?;
    put(&mut buffer, 8, &[8, 7, 6, 5, 4, 3, 2, 1]);
    number_is(
        &rt,
        buffer.swap(8, AtomicOp::FetchAdd { add: 1 }),
        0x0102_0304_0506_0708,
    );
    bytes_are(
        &rt,
        all_bytes(rt.alloc(), &buffer)?.as_slice(),
        &[0, 0, 0, 0, 0, 0, 0, 0, 9, 7, 6, 5, 4, 3, 2, 1],
    );
    Ok(())
}
