ghost use Rattle.std.specs.Prelude.{◌≡◌};

use ca_base::{Bytes, Change, DomainId, QueueId, RecvRequest, Rights, SendRequest, Slot};
use std::alloc::AllocError;

/// What a consumer asks of its adapter: a transport verb of the standard, an access of its host, or an injection.
#[derive(Drop)]
pub enum Verb {
    /// Allocates a protection domain.
    AllocPd {
        domain: DomainId,
    },
    DeallocPd {
        domain: DomainId,
    },
    /// Registers `length` bytes of a buffer from `offset` on as a memory region.
    RegMr {
        slot: Slot,
        buffer: u16,
        offset: u32,
        length: u32,
        rights: Rights,
    },
    /// Allocates a memory region of this many pages, free for fast registration.
    AllocMr {
        slot: Slot,
        pages: u16,
    },
    DeregMr {
        slot: Slot,
    },
    /// Allocates a memory window of type 1 or 2.
    AllocMw {
        slot: Slot,
        kind: u8,
    },
    DeallocMw {
        slot: Slot,
    },
    /// Creates a completion queue for this many completions.
    CreateCq {
        slot: Slot,
        capacity: u16,
    },
    DestroyCq {
        slot: Slot,
    },
    /// Creates a shared receive queue for this many receives.
    CreateSrq {
        slot: Slot,
        depth: u16,
    },
    DestroySrq {
        slot: Slot,
    },
    /// Creates a queue pair over completion queues and perhaps a shared receive queue of its own domain, by slot.
    CreateQp {
        slot: Slot,
        send_cq: u16,
        recv_cq: u16,
        send_depth: u16,
        recv_depth: u16,
        srq: Option<u16>,
    },
    /// Changes the state of a queue pair.
    ModifyQp {
        slot: Slot,
        change: Change,
    },
    /// Asks for the state of a queue pair and how many places its queues occupy.
    QueryQp {
        slot: Slot,
    },
    DestroyQp {
        slot: Slot,
    },
    /// Posts a request to a send queue.
    PostSend {
        slot: Slot,
        request: SendRequest,
    },
    /// Posts a receive to a queue pair.
    PostRecv {
        slot: Slot,
        request: RecvRequest,
    },
    /// Posts a receive to a shared receive queue.
    PostSrq {
        slot: Slot,
        request: RecvRequest,
    },
    /// Takes at most `n` completions of a completion queue, once there are at least `least`.
    Poll {
        slot: Slot,
        n: u8,
        least: u8,
    },
    /// The host writes bytes of a buffer. Store and Load are no verbs of the standard: a consumer owns its host's
    /// memory.
    Store {
        adapter: u8,
        buffer: u16,
        offset: u32,
        bytes: Bytes,
    },
    /// The host reads bytes of a buffer.
    Load {
        adapter: u8,
        buffer: u16,
        offset: u32,
        length: u32,
    },
    /// Lets bytes arrive at a queue pair at once, as a packet that no envelope carried. It is no verb of the standard,
    /// but a way to try hostile packets (this profile's choice).
    Inject {
        queue: QueueId,
        bytes: Bytes,
    },
}

impl Clone for Verb {
    ghost is_clone = { λ verb copy. copy ≡ verb };

    fn clone(&self) -> Result<Verb, AllocError> {
        Ok(match self {
            Verb::AllocPd { domain } => Verb::AllocPd { domain: *domain },
            Verb::DeallocPd { domain } => Verb::DeallocPd { domain: *domain },
            Verb::RegMr {
                slot,
                buffer,
                offset,
                length,
                rights,
            } => Verb::RegMr {
                slot: *slot,
                buffer: *buffer,
                offset: *offset,
                length: *length,
                rights: *rights,
            },
            Verb::AllocMr { slot, pages } => Verb::AllocMr {
                slot: *slot,
                pages: *pages,
            },
            Verb::DeregMr { slot } => Verb::DeregMr { slot: *slot },
            Verb::AllocMw { slot, kind } => Verb::AllocMw {
                slot: *slot,
                kind: *kind,
            },
            Verb::DeallocMw { slot } => Verb::DeallocMw { slot: *slot },
            Verb::CreateCq { slot, capacity } => Verb::CreateCq {
                slot: *slot,
                capacity: *capacity,
            },
            Verb::DestroyCq { slot } => Verb::DestroyCq { slot: *slot },
            Verb::CreateSrq { slot, depth } => Verb::CreateSrq {
                slot: *slot,
                depth: *depth,
            },
            Verb::DestroySrq { slot } => Verb::DestroySrq { slot: *slot },
            Verb::CreateQp {
                slot,
                send_cq,
                recv_cq,
                send_depth,
                recv_depth,
                srq,
            } => Verb::CreateQp {
                slot: *slot,
                send_cq: *send_cq,
                recv_cq: *recv_cq,
                send_depth: *send_depth,
                recv_depth: *recv_depth,
                srq: *srq,
            },
            Verb::ModifyQp { slot, change } => Verb::ModifyQp {
                slot: *slot,
                change: *change,
            },
            Verb::QueryQp { slot } => Verb::QueryQp { slot: *slot },
            Verb::DestroyQp { slot } => Verb::DestroyQp { slot: *slot },
            Verb::Poll { slot, n, least } => Verb::Poll {
                slot: *slot,
                n: *n,
                least: *least,
            },
            Verb::Load {
                adapter,
                buffer,
                offset,
                length,
            } => Verb::Load {
                adapter: *adapter,
                buffer: *buffer,
                offset: *offset,
                length: *length,
            },
            Verb::PostSend { slot, request } => Verb::PostSend {
                slot: *slot,
                request: request.clone()?,
            },
            Verb::PostRecv { slot, request } => Verb::PostRecv {
                slot: *slot,
                request: request.clone()?,
            },
            Verb::PostSrq { slot, request } => Verb::PostSrq {
                slot: *slot,
                request: request.clone()?,
            },
            Verb::Store {
                adapter,
                buffer,
                offset,
                bytes,
            } => Verb::Store {
                adapter: *adapter,
                buffer: *buffer,
                offset: *offset,
                bytes: bytes.clone()?,
            },
            Verb::Inject { queue, bytes } => Verb::Inject {
                queue: *queue,
                bytes: bytes.clone()?,
            },
        })
    }
}
