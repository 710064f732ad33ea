ghost use Rattle.std.specs.Prelude.{◌≡◌, ◌<◌, ◌≤◌, ◌^◌};
ghost use Rattle.ca_base.specs.declared.limits.TheConstants.{MAX_MESSAGE_BYTES};
ghost use Rattle.ca_qpstate.specs.ca_model.Requests as requests;
ghost use Rattle.ca_qpstate.specs.ca_model.machine.Invariants.{IsList};
ghost use Rattle.ca_qpstate.specs.ca_model.machine.Numbering.{is_answered_op, is_atomic_op, is_read};

use crate::list::list_length;
use ca_base::{Piece, SendOp, WcOp};

/// The scatter or gather list of a request; a local operation has none.
pub fn list_of(op: &SendOp) -> &[Piece]
    ensures { result.now ≡ requests.list_of op.now }
{
    match op {
        SendOp::Send { list }
        | SendOp::SendImm { list, .. }
        | SendOp::SendInv { list, .. }
        | SendOp::Write { list, .. }
        | SendOp::WriteImm { list, .. }
        | SendOp::Read { list, .. }
        | SendOp::CmpSwap { list, .. }
        | SendOp::FetchAdd { list, .. } => list.as_slice(),
        SendOp::Bind1 { .. }
        | SendOp::Bind2 { .. }
        | SendOp::FastReg { .. }
        | SendOp::LocalInv { .. } => &[],
    }
}

/// The operation that the completion of a request names.
pub fn operation_of(op: &SendOp) -> WcOp
    ensures { result ≡ requests.operation_of op.now }
{
    match op {
        SendOp::Send { .. } | SendOp::SendImm { .. } | SendOp::SendInv { .. } => WcOp::Send,
        SendOp::Write { .. } | SendOp::WriteImm { .. } => WcOp::Write,
        SendOp::Read { .. } => WcOp::Read,
        SendOp::CmpSwap { .. } => WcOp::CmpSwap,
        SendOp::FetchAdd { .. } => WcOp::FetchAdd,
        SendOp::Bind1 { .. } | SendOp::Bind2 { .. } => WcOp::Bind,
        SendOp::FastReg { .. } => WcOp::FastReg,
        SendOp::LocalInv { .. } => WcOp::LocalInv,
    }
}

/// Whether a request is a local operation, which has no packets: a bind, a fast registration or a Local Invalidate.
pub fn is_local(op: &SendOp) -> bool
    ensures { result ≡ requests.is_local op.now }
{
    matches!(
        op,
        SendOp::Bind1 { .. }
            | SendOp::Bind2 { .. }
            | SendOp::FastReg { .. }
            | SendOp::LocalInv { .. }
    )
}

/// Whether a request is a READ.
pub fn is_read(op: &SendOp) -> bool
    ensures { result ≡ is_read op.now }
{
    matches!(op, SendOp::Read { .. })
}

/// Whether a request is an atomic.
pub fn is_atomic(op: &SendOp) -> bool
    ensures { result ≡ is_atomic_op op.now }
{
    matches!(op, SendOp::CmpSwap { .. } | SendOp::FetchAdd { .. })
}

/// Whether each PSN of a request waits for a response of its own: those of READs and atomics do.
pub fn is_answered(op: &SendOp) -> bool
    ensures { result ≡ is_answered_op op.now }
{
    is_read(op) || is_atomic(op)
}

/// How many packets a message of so many bytes has at a path MTU: at least one.
pub fn segments(mtu: u16, count: u32) -> u64
    requires { 0 < mtu }
    ensures value { result ≡ requests.segments mtu count }
    ensures some { 0 < result }
    ensures few { count ≤ MAX_MESSAGE_BYTES → result ≤ MAX_MESSAGE_BYTES }
    ensures narrow { result < 2 ^ 32 }
{
    u64::from(count.max(1) - 1) / u64::from(mtu) + 1
}

/// How many PSNs a request takes at a path MTU: one a packet, of a READ one a response, and none for a local operation.
pub fn psns_of(mtu: u16, op: &SendOp) -> u32
    requires mtu { 0 < mtu }
    requires list { IsList (requests.list_of op.now) }
    ensures value { result ≡ requests.psns_of mtu op.now }
    ensures few { result ≤ MAX_MESSAGE_BYTES }
{
    match op {
        SendOp::CmpSwap { .. } | SendOp::FetchAdd { .. } => 1,
        SendOp::Bind1 { .. }
        | SendOp::Bind2 { .. }
        | SendOp::FastReg { .. }
        | SendOp::LocalInv { .. } => 0,
        SendOp::Send { list }
        | SendOp::SendImm { list, .. }
        | SendOp::SendInv { list, .. }
        | SendOp::Write { list, .. }
        | SendOp::WriteImm { list, .. }
        | SendOp::Read { list, .. } => segments(mtu, list_length(list.as_slice())) as u32,
    }
}
