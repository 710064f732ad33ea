ghost use Rattle.std.specs.Prelude.{◌≡◌};
ghost use Rattle.ca_trace_lex.specs.Words.{Gives};
ghost use Rattle.ca_trace_read_lines.specs.Reading as reading;

use crate::answer::{completion_at, verdict_at};
use ca_base::{DomainId, Grant, Key, Kind, OpRefusal, Place, QueueId, Rights};
use ca_model::{Drop1, Mark};
use ca_trace_lex::{
    Pieces, Stop, is_name, take_address, take_alarm, take_hex, take_object, take_queues, take_runs,
};
use std::alloc::Global;

/// A key that came into force.
#[tactic(auto, unfolding(crate::specs::Reading::granted_at))]
fn granted_at(alloc: Global, words: &mut Pieces) -> Result<Mark, Stop>
    ensures { Gives result (reading.granted_at words.old) }
{
    let domain = words.take::<DomainId>()?;
    let key = words.take::<Key>()?;
    let local = take_object(words)?;
    let queue = take_queues(words)?;
    let address = take_address(words)?;
    let length = words.take::<u32>()?;
    let rights = words.take::<Rights>()?;
    let runs = take_runs(alloc, words)?;
    Ok(Mark::Granted(Grant {
        key,
        domain,
        queue,
        local,
        address,
        length,
        rights,
        runs,
    }))
}

/// A packet's access.
#[tactic(auto, unfolding(crate::specs::Reading::remote_at))]
fn remote_at(alloc: Global, words: &mut Pieces) -> Result<Mark, Stop>
    ensures { Gives result (reading.remote_at words.old) }
{
    let queue = words.take::<QueueId>()?;
    let domain = words.take::<DomainId>()?;
    let envelope = words.take::<Option<u64>>()?;
    let key = words.take::<Key>()?;
    let kind = words.take::<Kind>()?;
    let address = take_address(words)?;
    let length = words.take::<u32>()?;
    let verdict = verdict_at(alloc, words)?;
    Ok(Mark::Remote {
        queue,
        domain,
        envelope,
        key,
        kind,
        address,
        length,
        verdict,
    })
}

/// A request's access to its own list.
#[tactic(auto, unfolding(crate::specs::Reading::local_mark_at))]
fn local_mark_at(alloc: Global, words: &mut Pieces) -> Result<Mark, Stop>
    ensures { Gives result (reading.local_mark_at words.old) }
{
    let queue = words.take::<QueueId>()?;
    let domain = words.take::<DomainId>()?;
    let key = words.take::<Key>()?;
    let kind = words.take::<Kind>()?;
    let address = take_address(words)?;
    let length = words.take::<u32>()?;
    let verdict = verdict_at(alloc, words)?;
    Ok(Mark::Local {
        queue,
        domain,
        key,
        kind,
        address,
        length,
        verdict,
    })
}

/// A write of the host.
#[tactic(auto, unfolding(crate::specs::Reading::stored_at))]
fn stored_at(alloc: Global, words: &mut Pieces) -> Result<Mark, Stop>
    ensures { Gives result (reading.stored_at words.old) }
{
    let (adapter, buffer) = words.take::<(u8, u16)>()?;
    let offset = words.take::<u32>()?;
    let bytes = take_hex(alloc, words)?;
    let place = Place {
        adapter,
        buffer,
        offset,
    };
    Ok(Mark::Stored { place, bytes })
}

/// A packet that was sent.
#[tactic(auto, unfolding(crate::specs::Reading::sent_at))]
fn sent_at(alloc: Global, words: &mut Pieces) -> Result<Mark, Stop>
    ensures { Gives result (reading.sent_at words.old) }
{
    let source = words.take::<QueueId>()?;
    let target = words.take::<QueueId>()?;
    let index = words.take::<Option<u64>>()?;
    let request = words.take::<Option<u64>>()?;
    let bytes = take_hex(alloc, words)?;
    Ok(Mark::Sent {
        source,
        target,
        index,
        request,
        bytes,
    })
}

/// A completion that was put, with why its operation was refused.
#[tactic(auto, unfolding(crate::specs::Reading::done_at))]
fn done_at(words: &mut Pieces) -> Result<Mark, Stop>
    ensures { Gives result (reading.done_at words.old) }
{
    let completion = completion_at(words)?;
    let cause = words.take::<Option<OpRefusal>>()?;
    let queue = completion.queue;
    Ok(Mark::Done {
        queue,
        completion,
        cause,
    })
}

/// A mark of a packet or of a timer, by its name.
#[tactic(auto, unfolding(crate::specs::Reading::passing_at))]
fn passing_at(name: &[u8], words: &mut Pieces) -> Result<Mark, Stop>
    ensures { Gives result (reading.passing_at name.now words.old) }
{
    if is_name(name, "lost") {
        let target = words.take::<QueueId>()?;
        let index = words.take::<Option<u64>>()?;
        Ok(Mark::Lost { target, index })
    } else if is_name(name, "arrived") {
        let target = words.take::<QueueId>()?;
        let index = words.take::<Option<u64>>()?;
        Ok(Mark::Arrived { target, index })
    } else if is_name(name, "dropped") {
        let target = words.take::<QueueId>()?;
        let cause = words.take::<Drop1>()?;
        Ok(Mark::Dropped { target, cause })
    } else if is_name(name, "timer") {
        let queue = words.take::<QueueId>()?;
        let silent = take_alarm(words)?;
        Ok(Mark::Timer { queue, silent })
    } else {
        Err(Stop::Outside)
    }
}

/// A mark that is no answer, by its name.
#[tactic(auto, unfolding(crate::specs::Reading::mark_at))]
pub(crate) fn mark_at(alloc: Global, name: &[u8], words: &mut Pieces) -> Result<Mark, Stop>
    ensures { Gives result (reading.mark_at name.now words.old) }
{
    if is_name(name, "granted") {
        granted_at(alloc, words)
    } else if is_name(name, "revoked") {
        let adapter = words.take::<u8>()?;
        let key = words.take::<Key>()?;
        Ok(Mark::Revoked { adapter, key })
    } else if is_name(name, "remote") {
        remote_at(alloc, words)
    } else if is_name(name, "local") {
        local_mark_at(alloc, words)
    } else if is_name(name, "stored") {
        stored_at(alloc, words)
    } else if is_name(name, "sent") {
        sent_at(alloc, words)
    } else if is_name(name, "done") {
        done_at(words)
    } else {
        passing_at(name, words)
    }
}
