ghost use Rattle.std.specs.Prelude.{◌≡◌};
ghost use Rattle.ca_trace_lex.specs.Words.{Reads, GivesAs};
ghost use Rattle.ca_trace_read_lines.specs.Answers as reading;

use ca_base::limits::MAX_POLLED;
use ca_base::{Completion, Denial, Key, QueueId, State, Verdict, WcOp, WcStatus};
use ca_model::{Answer, Refusal};
use ca_trace::Told;
use ca_trace_lex::{Pieces, Stop, is_name, take_hex, take_side};
use std::alloc::Global;

/// The state of a queue pair.
#[tactic(auto, unfolding(crate::specs::Answers::state_at))]
fn state_at(words: &mut Pieces) -> Result<Told, Stop>
    ensures { Reads (λ x. x) result words.new (reading.state_at words.old) }
{
    let state = words.take::<State>()?;
    let incarnation = words.take::<u32>()?;
    let sends = words.take::<u16>()?;
    let receives = words.take::<u16>()?;
    Ok(Told::Whole(Answer::Query {
        state,
        incarnation,
        sends,
        receives,
    }))
}

/// How many completions a poll gave.
#[tactic(auto, unfolding(crate::specs::Answers::polled_at))]
fn polled_at(words: &mut Pieces) -> Result<Told, Stop>
    ensures { Reads (λ x. x) result words.new (reading.polled_at words.old) }
{
    let n = words.take::<u8>()?;
    if usize::from(n) <= MAX_POLLED {
        Ok(Told::Polled(n))
    } else {
        Err(Stop::Outside)
    }
}

/// What the line of a call tells of its answer, behind the arrow.
#[tactic(auto, unfolding(crate::specs::Answers::answer_at))]
pub(crate) fn answer_at(alloc: Global, words: &mut Pieces) -> Result<Told, Stop>
    ensures { Reads (λ x. x) result words.new (reading.answer_at words.old) }
{
    let name = words.take_word()?;
    if is_name(name, "ok") {
        Ok(Told::Whole(Answer::Fine))
    } else if is_name(name, "key") {
        let key = words.take::<Key>()?;
        Ok(Told::Whole(Answer::Key(key)))
    } else if is_name(name, "qp") {
        let number = words.take::<u32>()?;
        let incarnation = words.take::<u32>()?;
        Ok(Told::Whole(Answer::Queue {
            number,
            incarnation,
        }))
    } else if is_name(name, "posted") {
        let key = words.take::<Option<Key>>()?;
        Ok(Told::Whole(Answer::Posted(key)))
    } else if is_name(name, "polled") {
        polled_at(words)
    } else if is_name(name, "state") {
        state_at(words)
    } else if is_name(name, "bytes") {
        let bytes = take_hex(alloc, words)?;
        Ok(Told::Whole(Answer::Loaded(bytes)))
    } else if is_name(name, "refused") {
        let refusal = words.take::<Refusal>()?;
        Ok(Told::Whole(Answer::Refused(refusal)))
    } else {
        Err(Stop::Outside)
    }
}

/// A completion.
#[tactic(auto, unfolding(crate::specs::Answers::completion_at))]
pub(crate) fn completion_at(words: &mut Pieces) -> Result<Completion, Stop>
    ensures { Reads (λ x. x) result words.new (reading.completion_at words.old) }
{
    let queue = words.take::<QueueId>()?;
    let receive = take_side(words)?;
    let place = words.take::<u64>()?;
    let id = words.take::<u64>()?;
    let op = words.take::<WcOp>()?;
    let status = words.take::<WcStatus>()?;
    let bytes = words.take::<u32>()?;
    let imm = words.take::<Option<u32>>()?;
    let invalidated = words.take::<Option<Key>>()?;
    Ok(Completion {
        id,
        queue,
        receive,
        place,
        status,
        op,
        bytes,
        imm,
        invalidated,
    })
}

/// What came of an access.
#[tactic(auto, unfolding(crate::specs::Answers::verdict_at))]
pub(crate) fn verdict_at(alloc: Global, words: &mut Pieces) -> Result<Verdict, Stop>
    ensures { Reads (λ x. x) result words.new (reading.verdict_at words.old) }
{
    let name = words.take_word()?;
    if is_name(name, "read") {
        let bytes = take_hex(alloc, words)?;
        Ok(Verdict::Read(bytes))
    } else if is_name(name, "wrote") {
        let bytes = take_hex(alloc, words)?;
        Ok(Verdict::Wrote(bytes))
    } else if is_name(name, "found") {
        let found = words.take::<u64>()?;
        let _ = words.take_word()?;
        let put = words.take::<u64>()?;
        Ok(Verdict::Swapped { found, put })
    } else if is_name(name, "denied") {
        let denial = words.take::<Denial>()?;
        Ok(Verdict::Denied(denial))
    } else {
        Err(Stop::Outside)
    }
}
