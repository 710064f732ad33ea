ghost use Rattle.std.specs.Prelude.{◌≡◌, Some};
ghost use Rattle.ca_base.specs.Spelling.{operation_text, status_text};

use ca_keys::{Key, QueueId};
use std::fmt;

/// The status of a work completion.
#[derive(Clone, Copy, Default, PartialEq, Eq)]
pub enum WcStatus {
    #[default]
    Success,
    /// Local length error: a SEND was longer than the receive.
    LocalLength,
    /// Local protection error: the request's own list was denied.
    LocalProtection,
    /// Work request flushed: the queue pair went to Error before the request was done.
    Flushed,
    /// Memory management operation error: a bind, fast registration or invalidation was refused.
    MemoryManagement,
    /// Bad response: an answer did not fit the request.
    BadResponse,
    RemoteInvalidRequest,
    RemoteAccess,
    RemoteOperation,
    /// Transport retry counter exceeded.
    RetryExceeded,
    /// RNR retry counter exceeded.
    RnrRetryExceeded,
}

impl fmt::Display for WcStatus {
    ghost output = { λ status. Some (status_text status) };

    fn fmt<W: fmt::Write>(&self, f: &mut fmt::Formatter<W>) -> fmt::Result {
        f.write_str(match self {
            WcStatus::Success => "success",
            WcStatus::LocalLength => "local-length",
            WcStatus::LocalProtection => "local-protection",
            WcStatus::Flushed => "flushed",
            WcStatus::MemoryManagement => "memory-management",
            WcStatus::BadResponse => "bad-response",
            WcStatus::RemoteInvalidRequest => "remote-invalid-request",
            WcStatus::RemoteAccess => "remote-access",
            WcStatus::RemoteOperation => "remote-operation",
            WcStatus::RetryExceeded => "retry-exceeded",
            WcStatus::RnrRetryExceeded => "rnr-retry-exceeded",
        })
    }
}

/// What the request of a completion asked for.
#[derive(Clone, Copy, Default, PartialEq, Eq)]
pub enum WcOp {
    #[default]
    Send,
    Write,
    Read,
    CmpSwap,
    FetchAdd,
    Bind,
    FastReg,
    LocalInv,
    Recv,
    /// A receive that a WRITE with Immediate completed.
    RecvImm,
}

impl fmt::Display for WcOp {
    ghost output = { λ operation. Some (operation_text operation) };

    fn fmt<W: fmt::Write>(&self, f: &mut fmt::Formatter<W>) -> fmt::Result {
        f.write_str(match self {
            WcOp::Send => "send",
            WcOp::Write => "write",
            WcOp::Read => "read",
            WcOp::CmpSwap => "cmp-swap",
            WcOp::FetchAdd => "fetch-add",
            WcOp::Bind => "bind",
            WcOp::FastReg => "fast-reg",
            WcOp::LocalInv => "local-inv",
            WcOp::Recv => "recv",
            WcOp::RecvImm => "recv-imm",
        })
    }
}

/// The two queues of a queue pair, of one of which a completion is.
#[derive(Clone, Copy)]
pub enum Side {
    Sends,
    Receives,
}

/// A work completion: of the request with this `id`, posted at this `queue` pair, in its send queue or as a receive, at
/// this posting `place`. `bytes` is the length of the message of a READ or a receive, 8 for an atomic, and else 0;
/// `invalidated` is the R_Key that a SEND with Invalidate named.
#[derive(Clone, Copy, Default, PartialEq, Eq)]
pub struct Completion {
    pub id: u64,
    pub queue: QueueId,
    pub receive: bool,
    pub place: u64,
    pub status: WcStatus,
    pub op: WcOp,
    pub bytes: u32,
    pub imm: Option<u32>,
    pub invalidated: Option<Key>,
}

impl Completion {
    ghost use Rattle.std.specs.Prelude.{◌≡◌};
    ghost use Rattle.ca_base.specs.Side.{is_receives};

    /// Which queue it is of.
    pub fn side(&self) -> Side
        ensures { is_receives result ≡ self.now.receive }
    {
        if self.receive {
            Side::Receives
        } else {
            Side::Sends
        }
    }
}
