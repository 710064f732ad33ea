ghost use Rattle.std.specs.Prelude.{◌≡◌, IfOk, IfSome};
ghost use Rattle.ca_adapter_acts.specs.Copies.{small};

use arrayvec::ArrayVec;
use ca_base::limits::MAX_PIECES;
use ca_base::{Memory, Piece, SendOp, SendRequest};

/// A copy of a send request. SENDs, WRITEs and READs, which are most of what is posted, are copied by themselves: a copy
/// of any operation first makes place for each kind of it.
#[inline(always)]
pub fn copy_of_send(request: &SendRequest) -> Result<SendRequest, Memory>
    ensures { IfOk result (λ copy. copy ≡ request.now) }
{
    let op = match &request.op {
        SendOp::Send { list } => SendOp::Send {
            list: copy_of_list(list),
        },
        SendOp::Write { address, key, list } => SendOp::Write {
            address: *address,
            key: *key,
            list: copy_of_list(list),
        },
        SendOp::Read { address, key, list } => SendOp::Read {
            address: *address,
            key: *key,
            list: copy_of_list(list),
        },
        _ => return Ok(request.clone()?),
    };
    Ok(SendRequest {
        id: request.id,
        signalled: request.signalled,
        fence: request.fence,
        solicited: request.solicited,
        op,
    })
}

/// A copy of a list.
#[inline(always)]
fn copy_of_list(list: &ArrayVec<Piece, MAX_PIECES>) -> ArrayVec<Piece, MAX_PIECES>
    ensures { result ≡ list.now }
{
    let mut copy = ArrayVec::new();
    let _ = copy.try_extend_from_slice(list.as_slice());
    copy
}

/// A copy of a WRITE of one piece, which comes most often. None comes of any other request, which `copy_of_send` copies.
#[inline(always)]
pub fn copy_of_small(request: &SendRequest) -> Option<SendRequest>
    ensures copy { IfSome result (λ copy. copy ≡ request.now) }
    ensures small { result ≡ small request.now }
{
    let SendOp::Write { address, key, list } = &request.op else {
        return None;
    };
    let [piece] = list.as_slice() else {
        return None;
    };
    let mut list = ArrayVec::new();
    list.push(*piece);
    Some(SendRequest {
        id: request.id,
        signalled: request.signalled,
        fence: request.fence,
        solicited: request.solicited,
        op: SendOp::Write {
            address: *address,
            key: *key,
            list,
        },
    })
}
