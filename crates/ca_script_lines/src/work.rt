ghost use Rattle.ca_script_lines.specs.Grammar as grammar;
ghost use Rattle.ca_script_lines.specs.Rows.{read_row, read_named};
ghost use Rattle.ca_script_lex.specs.Reading.{AnswersFrom};

use crate::operation::operation;
use crate::what::What;
use ca_base::{RecvRequest, SendRequest};
use ca_script_lex::ca_model::Verb;
use ca_script_lex::ca_trace_lex::is_name;
use ca_script_lex::{
    LineError, LineWords, ScriptCause, take_buffer, take_flags, take_hex, take_pieces, take_queue,
    take_slot, take_u8, take_u32, take_u64,
};
use std::alloc::Global;

/// A request of a send queue.
#[tactic(auto, unfolding(crate::specs::Grammar::post_row))]
pub(crate) fn post(alloc: Global, words: &mut LineWords) -> Result<What, LineError>
    ensures { AnswersFrom (λ x. x) result words.new (read_row grammar.post_row words.old) }
{
    let slot = take_slot(words)?;
    let id = take_u64(words)?;
    let flags = take_flags(words)?;
    let op = operation(alloc, words)?;
    let request = SendRequest {
        id,
        signalled: flags.signalled,
        fence: flags.fence,
        solicited: flags.solicited,
        op,
    };
    Ok(What::Verb(Verb::PostSend { slot, request }))
}

/// A request of a receive queue.
#[tactic(auto, unfolding(crate::specs::Grammar::recv_row))]
fn recv(words: &mut LineWords) -> Result<What, LineError>
    ensures { AnswersFrom (λ x. x) result words.new (read_row grammar.recv_row words.old) }
{
    let slot = take_slot(words)?;
    let id = take_u64(words)?;
    let list = take_pieces(words)?;
    let request = RecvRequest { id, list };
    Ok(What::Verb(Verb::PostRecv { slot, request }))
}

/// A request of a shared receive queue.
#[tactic(auto, unfolding(crate::specs::Grammar::srecv_row))]
fn srecv(words: &mut LineWords) -> Result<What, LineError>
    ensures { AnswersFrom (λ x. x) result words.new (read_row grammar.srecv_row words.old) }
{
    let slot = take_slot(words)?;
    let id = take_u64(words)?;
    let list = take_pieces(words)?;
    let request = RecvRequest { id, list };
    Ok(What::Verb(Verb::PostSrq { slot, request }))
}

/// A poll.
#[tactic(auto, unfolding(crate::specs::Grammar::poll_row))]
fn poll(words: &mut LineWords) -> Result<What, LineError>
    ensures { AnswersFrom (λ x. x) result words.new (read_row grammar.poll_row words.old) }
{
    let slot = take_slot(words)?;
    let n = take_u8(words)?;
    Ok(What::Verb(Verb::Poll { slot, n, least: 0 }))
}

/// A poll that waits for all that it takes.
#[tactic(auto, unfolding(crate::specs::Grammar::wait_row))]
fn wait(words: &mut LineWords) -> Result<What, LineError>
    ensures { AnswersFrom (λ x. x) result words.new (read_row grammar.wait_row words.old) }
{
    let slot = take_slot(words)?;
    let n = take_u8(words)?;
    Ok(What::Verb(Verb::Poll { slot, n, least: n }))
}

/// A write of the host.
#[tactic(auto, unfolding(crate::specs::Grammar::store_row))]
fn store(alloc: Global, words: &mut LineWords) -> Result<What, LineError>
    ensures { AnswersFrom (λ x. x) result words.new (read_row grammar.store_row words.old) }
{
    let (adapter, buffer) = take_buffer(words)?;
    let offset = take_u32(words)?;
    let bytes = take_hex(alloc, words)?;
    Ok(What::Verb(Verb::Store {
        adapter,
        buffer,
        offset,
        bytes,
    }))
}

/// A read of the host.
#[tactic(auto, unfolding(crate::specs::Grammar::load_row))]
fn load(words: &mut LineWords) -> Result<What, LineError>
    ensures { AnswersFrom (λ x. x) result words.new (read_row grammar.load_row words.old) }
{
    let (adapter, buffer) = take_buffer(words)?;
    let offset = take_u32(words)?;
    let length = take_u32(words)?;
    Ok(What::Verb(Verb::Load {
        adapter,
        buffer,
        offset,
        length,
    }))
}

/// An injection.
#[tactic(auto, unfolding(crate::specs::Grammar::inject_row))]
fn inject(alloc: Global, words: &mut LineWords) -> Result<What, LineError>
    ensures { AnswersFrom (λ x. x) result words.new (read_row grammar.inject_row words.old) }
{
    let queue = take_queue(255, words)?;
    let bytes = take_hex(alloc, words)?;
    Ok(What::Verb(Verb::Inject { queue, bytes }))
}

/// A line that waits for the clock.
#[tactic(auto, unfolding(crate::specs::Grammar::at_row))]
fn at(words: &mut LineWords) -> Result<What, LineError>
    ensures { AnswersFrom (λ x. x) result words.new (read_row grammar.at_row words.old) }
{
    let clock = take_u64(words)?;
    Ok(What::At(clock))
}

/// A request, a poll, an access of the host or a wait for the clock, by its name.
#[tactic(auto, unfolding(crate::specs::Grammar::work_lines))]
pub(crate) fn work_line(
    alloc: Global,
    name: &[u8],
    words: &mut LineWords,
) -> Result<What, LineError>
    ensures { AnswersFrom (λ x. x) result words.new (read_named grammar.work_lines name.now words.old) }
{
    if is_name(name, "post") {
        post(alloc, words)
    } else if is_name(name, "recv") {
        recv(words)
    } else if is_name(name, "srecv") {
        srecv(words)
    } else if is_name(name, "poll") {
        poll(words)
    } else if is_name(name, "wait") {
        wait(words)
    } else if is_name(name, "store") {
        store(alloc, words)
    } else if is_name(name, "load") {
        load(words)
    } else if is_name(name, "inject") {
        inject(alloc, words)
    } else if is_name(name, "at") {
        at(words)
    } else {
        Err(LineError::Refused(ScriptCause::UnknownWord))
    }
}
