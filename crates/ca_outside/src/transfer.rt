ghost use Rattle.std.specs.Prelude.{◌≡◌, ◌+◌, ◌<◌, ◌≤◌, [], length, IfSome, Some, IfOk, OnOk, OnErr, IsErrOf};
ghost use Rattle.std.specs.Io.KnownBytes.{Consumes, Appends};
ghost use Rattle.ca_outside.specs.Outside.{Rose, HasCause, LosesAtMost, AppendsPart};
ghost use Rattle.ca_outside.specs.declared.transfer.ReadStop.TheVariants as stops;

use crate::sink::Sink;
use crate::source::{Failed, Source};
use ca_base::Memory;
use std::alloc::{AllocError, Global};

/// The most bytes of one read.
const CHUNK: usize = 4096;

/// Why not all the bytes of a source came.
#[derive(Clone, Copy, Debug, PartialEq, Eq)]
pub enum ReadStop {
    /// The source failed.
    Failed,
    /// Out of memory.
    Memory,
}

impl From<Failed> for ReadStop {
    ghost from_gives = { λ _ stop. stop ≡ stops.Failed };

    fn from(_failed: Failed) -> ReadStop {
        ReadStop::Failed
    }
}

impl From<AllocError> for ReadStop {
    ghost from_gives = { λ _ stop. stop ≡ stops.Memory };

    fn from(_error: AllocError) -> ReadStop {
        ReadStop::Memory
    }
}

/// Reads to the end, or until more than `limit` bytes came: one more at most, so that memory stays bounded by the
/// limit. What was read before an answer that is not Ok is lost.
pub fn read_up_to<S: Source>(
    alloc: Global,
    source: &mut S,
    limit: usize,
) -> Result<Vec<u8>, ReadStop>
    ensures bytes { IfOk result (λ bytes. Consumes (S.left source.old) (S.left source.new) bytes.items) }
    ensures all { IfOk result (λ bytes. IfSome (S.left source.old)
        (λ left. length bytes.items ≤ limit → bytes.items ≡ left)) }
    ensures end { IfOk result (λ bytes. IfSome (S.left source.old)
        (λ _. length bytes.items ≤ limit → S.left source.new ≡ Some [])) }
    ensures bounded { IfOk result (λ bytes. length bytes.items ≤ limit + 1) }
    ensures loses { LosesAtMost (limit + 1) (S.left source.old) (S.left source.new) }
    ensures failed { IsErrOf result ReadStop.Failed → Rose (S.faults source.old) (S.faults source.new) }
    ensures never_falls { S.faults source.old ≤ S.faults source.new }
    ensures kept { OnOk result (S.faults source.new ≡ S.faults source.old) }
    ensures memory { IsErrOf result ReadStop.Memory → S.faults source.new ≡ S.faults source.old }
{
    let mut bytes = Vec::new(alloc);
    let mut chunk = [0u8; CHUNK];
    while bytes.len() <= limit {
        let room = (limit - bytes.len()).min(CHUNK - 1) + 1;
        let count = source.read(&mut chunk[..room])?;
        if count == 0 {
            return Ok(bytes);
        }
        bytes.extend_from_slice(&chunk[..count])?;
    }
    Ok(bytes)
}

/// Writes all the bytes, in as many pieces as the sink takes them. After `Failed` the sink took some of them from
/// the front.
pub fn write_all<K: Sink>(sink: &mut K, bytes: &[u8]) -> Result<(), Failed>
    ensures ok { OnOk result (Appends (K.held sink.old) (K.held sink.new) bytes.now) }
    ensures err { OnErr result (AppendsPart (K.held sink.old) (K.held sink.new) bytes.now) }
    ensures cause { HasCause (K.faults sink.old) (K.faults sink.new) result }
{
    let mut done = 0;
    while done < bytes.len() {
        done += sink.write(&bytes[done..])?;
    }
    Ok(())
}
