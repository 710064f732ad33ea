ghost use Rattle.std.specs.Prelude.{◌≡◌, IfOk, length};
ghost use Rattle.ca_keys.specs.Memory.{bytes_at, places_count};
ghost use Rattle.ca_grant.specs.Access.{FitInBytes, buffer_after};
ghost use Rattle.ca_memory.specs.Buffer.{memory_of};
ghost use Rattle.ca_region.specs.Span.{runs_of_span};

use ca_base::{Bytes, Memory, Span};
use ca_memory::Buffer;
use std::alloc::Global;

/// How many places a span has.
fn length_of(span: &Span) -> usize
    ensures { result ≡ places_count (runs_of_span span.now) }
{
    let second = match &span.second {
        Some(second) => second.length,
        None => 0,
    };
    span.first.length as usize + second as usize
}

/// The bytes that a buffer holds at the places of a span, in order. It takes memory once.
#[inline(always)]
pub fn bytes_of_span(alloc: Global, buffer: &Buffer, span: &Span) -> Result<Bytes, Memory>
    requires { FitInBytes (length buffer.now) (runs_of_span span.now) }
    ensures bytes { IfOk result (λ bytes. bytes ≡ bytes_at (memory_of buffer.now) (runs_of_span span.now)) }
    ensures count { IfOk result (λ bytes. length bytes ≡ places_count (runs_of_span span.now)) }
{
    let mut bytes = Vec::with_capacity(alloc, length_of(span))?;
    buffer.read(&span.first, &mut bytes)?;
    if let Some(second) = &span.second {
        buffer.read(second, &mut bytes)?;
    }
    Ok(Bytes::from(bytes))
}

/// Puts bytes to the places of a span, in order; there are as many as it has places.
pub fn write_span(buffer: &mut Buffer, span: &Span, bytes: &[u8])
    requires inside { FitInBytes (length buffer.old) (runs_of_span span.now) }
    requires count { length bytes.now ≡ places_count (runs_of_span span.now) }
    ensures bytes { buffer.new ≡ buffer_after (runs_of_span span.now) bytes.now buffer.old }
    ensures count { length buffer.new ≡ length buffer.old }
{
    let (front, rest) = bytes.split_at(span.first.length as usize);
    buffer.write(&span.first, front);
    if let Some(second) = &span.second {
        buffer.write(second, rest);
    }
}
