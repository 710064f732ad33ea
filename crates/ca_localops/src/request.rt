ghost use Rattle.std.specs.Prelude.{◌≡◌};
ghost use Rattle.ca_localops.specs.Requests.{IsBind, request_of};

use ca_base::{Key, QueueId, Rights, SendOp};

/// What a bind asks for: a window bound to `length` bytes from `address` on of the region that has this key.
#[derive(Clone, Copy)]
pub struct BindRequest {
    pub key: Key,
    pub kind: BindKind,
    pub address: u64,
    pub length: u32,
    pub rights: Rights,
}

/// The type of window that is bound: of type 1, under the byte that was drawn when the bind was posted, if one was; of
/// type 2, under a byte that is named, for the queue pair.
#[derive(Clone, Copy)]
pub enum BindKind {
    Type1 { drawn: Option<u8> },
    Type2 { low: u8, queue: QueueId },
}

/// What an operation that is a bind asks for.
pub fn request_from(op: &SendOp, drawn: Option<u8>, queue: QueueId) -> BindRequest
    requires { IsBind op.now }
    ensures { result ≡ request_of op.now drawn queue }
{
    match op {
        SendOp::Bind1 {
            region,
            address,
            length,
            rights,
            ..
        } => BindRequest {
            key: *region,
            kind: BindKind::Type1 { drawn },
            address: *address,
            length: *length,
            rights: *rights,
        },
        SendOp::Bind2 {
            region,
            low,
            address,
            length,
            rights,
            ..
        } => BindRequest {
            key: *region,
            kind: BindKind::Type2 { low: *low, queue },
            address: *address,
            length: *length,
            rights: *rights,
        },
        _ => unreachable!(),
    }
}
