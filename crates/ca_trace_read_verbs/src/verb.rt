ghost use Rattle.std.specs.Prelude.{◌≡◌};
ghost use Rattle.ca_trace_lex.specs.Words.{Reads, GivesAs};
ghost use Rattle.ca_trace_read_verbs.specs.Verbs as reading;

use crate::change::change_at;
use crate::operation::operation_at;
use ca_base::{DomainId, QueueId, RecvRequest, Rights, SendRequest, Slot};
use ca_model::Verb;
use ca_trace_lex::{Pieces, Stop, has, is_name, take_hex, take_pieces};
use std::alloc::Global;

/// A registration of a memory region.
#[tactic(auto, unfolding(crate::specs::Verbs::reg_at))]
fn reg_at(words: &mut Pieces) -> Result<Verb, Stop>
    ensures { Reads (λ x. x) result words.new (reading.reg_at words.old) }
{
    let slot = words.take::<Slot>()?;
    let buffer = words.take::<u16>()?;
    let offset = words.take::<u32>()?;
    let length = words.take::<u32>()?;
    let rights = words.take::<Rights>()?;
    Ok(Verb::RegMr {
        slot,
        buffer,
        offset,
        length,
        rights,
    })
}

/// The creation of a queue pair.
#[tactic(auto, unfolding(crate::specs::Verbs::qp_at))]
fn qp_at(words: &mut Pieces) -> Result<Verb, Stop>
    ensures { Reads (λ x. x) result words.new (reading.qp_at words.old) }
{
    let slot = words.take::<Slot>()?;
    let send_cq = words.take::<u16>()?;
    let recv_cq = words.take::<u16>()?;
    let send_depth = words.take::<u16>()?;
    let recv_depth = words.take::<u16>()?;
    let srq = words.take::<Option<u16>>()?;
    Ok(Verb::CreateQp {
        slot,
        send_cq,
        recv_cq,
        send_depth,
        recv_depth,
        srq,
    })
}

/// A request of a send queue.
#[tactic(auto, unfolding(crate::specs::Verbs::post_at))]
fn post_at(alloc: Global, words: &mut Pieces) -> Result<Verb, Stop>
    ensures { Reads (λ x. x) result words.new (reading.post_at words.old) }
{
    let slot = words.take::<Slot>()?;
    let id = words.take::<u64>()?;
    let flags = words.take_word()?;
    let signalled = has(b's', flags);
    let fence = has(b'f', flags);
    let solicited = has(b'e', flags);
    let op = operation_at(alloc, words)?;
    let request = SendRequest {
        id,
        signalled,
        fence,
        solicited,
        op,
    };
    Ok(Verb::PostSend { slot, request })
}

/// A request of a receive queue.
#[tactic(auto, unfolding(crate::specs::Verbs::receive_at))]
fn receive_at(alloc: Global, words: &mut Pieces) -> Result<(Slot, RecvRequest), Stop>
    ensures { Reads (λ x. x) result words.new (reading.receive_at words.old) }
{
    let slot = words.take::<Slot>()?;
    let id = words.take::<u64>()?;
    let list = take_pieces(alloc, words)?;
    Ok((slot, RecvRequest { id, list }))
}

/// The least number of completions that a poll waits for, where one stands before the answer.
#[tactic(auto, unfolding(crate::specs::Verbs::least_at))]
fn least_at(words: &mut Pieces) -> Result<u8, Stop>
    ensures { Reads (λ x. x) result words.new (reading.least_at words.old) }
{
    if is_name(words.first_word()?, "->") {
        return Ok(0);
    }
    words.take::<u8>()
}

/// A poll.
#[tactic(auto, unfolding(crate::specs::Verbs::poll_at))]
fn poll_at(words: &mut Pieces) -> Result<Verb, Stop>
    ensures { Reads (λ x. x) result words.new (reading.poll_at words.old) }
{
    let slot = words.take::<Slot>()?;
    let n = words.take::<u8>()?;
    let least = least_at(words)?;
    Ok(Verb::Poll { slot, n, least })
}

/// A poll that waits for all that it takes.
#[tactic(auto, unfolding(crate::specs::Verbs::wait_at))]
fn wait_at(words: &mut Pieces) -> Result<Verb, Stop>
    ensures { Reads (λ x. x) result words.new (reading.wait_at words.old) }
{
    let slot = words.take::<Slot>()?;
    let n = words.take::<u8>()?;
    Ok(Verb::Poll { slot, n, least: n })
}

/// A write of the host.
#[tactic(auto, unfolding(crate::specs::Verbs::store_at))]
fn store_at(alloc: Global, words: &mut Pieces) -> Result<Verb, Stop>
    ensures { Reads (λ x. x) result words.new (reading.store_at words.old) }
{
    let (adapter, buffer) = words.take::<(u8, u16)>()?;
    let offset = words.take::<u32>()?;
    let bytes = take_hex(alloc, words)?;
    Ok(Verb::Store {
        adapter,
        buffer,
        offset,
        bytes,
    })
}

/// A read of the host.
#[tactic(auto, unfolding(crate::specs::Verbs::load_at))]
fn load_at(words: &mut Pieces) -> Result<Verb, Stop>
    ensures { Reads (λ x. x) result words.new (reading.load_at words.old) }
{
    let (adapter, buffer) = words.take::<(u8, u16)>()?;
    let offset = words.take::<u32>()?;
    let length = words.take::<u32>()?;
    Ok(Verb::Load {
        adapter,
        buffer,
        offset,
        length,
    })
}

/// An injection.
#[tactic(auto, unfolding(crate::specs::Verbs::inject_at))]
fn inject_at(alloc: Global, words: &mut Pieces) -> Result<Verb, Stop>
    ensures { Reads (λ x. x) result words.new (reading.inject_at words.old) }
{
    let queue = words.take::<QueueId>()?;
    let bytes = take_hex(alloc, words)?;
    Ok(Verb::Inject { queue, bytes })
}

/// A request or an access of the host, by its name.
#[tactic(auto, unfolding(crate::specs::Verbs::work_at))]
fn work_at(alloc: Global, name: &[u8], words: &mut Pieces) -> Result<Verb, Stop>
    ensures { Reads (λ x. x) result words.new (reading.work_at name.now words.old) }
{
    if is_name(name, "post") {
        post_at(alloc, words)
    } else if is_name(name, "recv") {
        let (slot, request) = receive_at(alloc, words)?;
        Ok(Verb::PostRecv { slot, request })
    } else if is_name(name, "srecv") {
        let (slot, request) = receive_at(alloc, words)?;
        Ok(Verb::PostSrq { slot, request })
    } else if is_name(name, "poll") {
        poll_at(words)
    } else if is_name(name, "wait") {
        wait_at(words)
    } else if is_name(name, "store") {
        store_at(alloc, words)
    } else if is_name(name, "load") {
        load_at(words)
    } else if is_name(name, "inject") {
        inject_at(alloc, words)
    } else {
        change_at(name, words)
    }
}

/// A verb that names a domain alone or an object alone, by its name.
#[tactic(auto, unfolding(crate::specs::Verbs::object_at))]
fn object_at(alloc: Global, name: &[u8], words: &mut Pieces) -> Result<Verb, Stop>
    ensures { Reads (λ x. x) result words.new (reading.object_at name.now words.old) }
{
    if is_name(name, "pd") {
        let domain = words.take::<DomainId>()?;
        Ok(Verb::AllocPd { domain })
    } else if is_name(name, "unpd") {
        let domain = words.take::<DomainId>()?;
        Ok(Verb::DeallocPd { domain })
    } else if is_name(name, "dereg") {
        let slot = words.take::<Slot>()?;
        Ok(Verb::DeregMr { slot })
    } else if is_name(name, "unmw") {
        let slot = words.take::<Slot>()?;
        Ok(Verb::DeallocMw { slot })
    } else if is_name(name, "uncq") {
        let slot = words.take::<Slot>()?;
        Ok(Verb::DestroyCq { slot })
    } else if is_name(name, "unsrq") {
        let slot = words.take::<Slot>()?;
        Ok(Verb::DestroySrq { slot })
    } else if is_name(name, "query") {
        let slot = words.take::<Slot>()?;
        Ok(Verb::QueryQp { slot })
    } else if is_name(name, "unqp") {
        let slot = words.take::<Slot>()?;
        Ok(Verb::DestroyQp { slot })
    } else {
        work_at(alloc, name, words)
    }
}

/// A verb.
#[tactic(auto, unfolding(crate::specs::Verbs::verb_at))]
pub fn verb_at(alloc: Global, words: &mut Pieces) -> Result<Verb, Stop>
    ensures { Reads (λ x. x) result words.new (reading.verb_at words.old) }
{
    let name = words.take_word()?;
    if is_name(name, "reg") {
        reg_at(words)
    } else if is_name(name, "qp") {
        qp_at(words)
    } else if is_name(name, "mr") {
        let slot = words.take::<Slot>()?;
        let pages = words.take::<u16>()?;
        Ok(Verb::AllocMr { slot, pages })
    } else if is_name(name, "mw") {
        let slot = words.take::<Slot>()?;
        let kind = words.take::<u8>()?;
        Ok(Verb::AllocMw { slot, kind })
    } else if is_name(name, "cq") {
        let slot = words.take::<Slot>()?;
        let capacity = words.take::<u16>()?;
        Ok(Verb::CreateCq { slot, capacity })
    } else if is_name(name, "srq") {
        let slot = words.take::<Slot>()?;
        let depth = words.take::<u16>()?;
        Ok(Verb::CreateSrq { slot, depth })
    } else {
        object_at(alloc, name, words)
    }
}
