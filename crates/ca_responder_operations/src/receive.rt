ghost use Rattle.std.specs.Prelude.{◌≡◌, ◌+◌, ◌<◌, ◌≤◌, [], IfOk, IfSome, None, Some, length, nat_lt, option_copied};
ghost use Rattle.std.specs.Option.{option_map};
ghost use Rattle.ca_keys.specs.declared.access.Kind.{Kind};
ghost use Rattle.ca_base.specs.declared.limits.TheConstants.{MAX_PAYLOAD_BYTES, MAX_PIECES};
ghost use Rattle.ca_base.specs.objects.WorkQueue.{waiting_count};
ghost use Rattle.ca_model.specs.Requests.{list_length};
ghost use Rattle.ca_model.specs.machine.Arrivals as arrivals;
ghost use Rattle.ca_model.specs.machine.Expected as rows;
ghost use Rattle.ca_model.specs.machine.Invariants.{IsQueue, IsSharedReceives};
ghost use Rattle.ca_model.specs.machine.Numbering.{list_asks};
ghost use Rattle.ca_responder_answers.specs.ca_qp_rows.Asks.{AreAsksFor};
ghost use Rattle.ca_responder_operations.specs.Receives.{AreCounted, IsNext, IsReceiving};
ghost use Rattle.ca_responder_operations.specs.Receives as receives;

use arrayvec::ArrayVec;
use ca_base::limits::MAX_PIECES;
use ca_base::{Ask, Kind, Memory, Message, Piece, PlacedReceive, RecvRequest};
use ca_model::Receiving;
use ca_responder_answers::ca_qp_rows::{Asker, fill_asks, list_length};
use ca_responder_answers::ca_qpstate::QueuePart;
use ca_responder_answers::next_posting;
use ca_srq::Srq;
use ca_wire::Packet;

/// The receive that a message would take: of the shared receive queue, or of the queue pair's own. None comes exactly
/// where none waits. It takes no memory.
#[inline(always)]
pub fn next_receive<'a>(q: &'a QueuePart, srq: Option<&'a Srq>) -> Option<&'a RecvRequest>
    requires { IsQueue q.now }
    ensures { option_copied result ≡ option_map (λ r. r.receive)
        (arrivals.next_receive q.now (option_copied srq.entry)) }
{
    if q.srq.is_some() {
        return match srq {
            Some(srq) => srq.first(),
            None => None,
        };
    }
    match &q.receives {
        Some(receives) => receives.get(next_posting(receives)),
        None => None,
    }
}

/// The posting place of the receive that a message would take.
#[inline(always)]
fn next_receive_place(q: &QueuePart, srq: Option<&Srq>) -> Option<u64>
    requires { IsQueue q.now }
    ensures { IfSome (arrivals.next_receive q.now (option_copied srq.entry)) (λ r. result ≡ Some r.place) }
{
    if q.srq.is_some() {
        return match srq {
            Some(srq) => srq.first_place(),
            None => None,
        };
    }
    match &q.receives {
        Some(receives) => Some(next_posting(receives)),
        None => None,
    }
}

/// A copy of the receive that a message would take, with its posting place.
#[inline(always)]
pub fn find_receive(q: &QueuePart, srq: Option<&Srq>) -> Result<Option<PlacedReceive>, Memory>
    requires queue { IsQueue q.now }
    requires shared { IfSome (option_copied srq) IsSharedReceives }
    ensures { IfOk result (IsNext q.now (arrivals.next_receive q.now (option_copied srq.entry))) }
{
    let Some(receive) = next_receive(q, srq) else {
        return Ok(None);
    };
    let receive = receive.clone()?;
    match next_receive_place(q, srq) {
        Some(place) => Ok(Some(PlacedReceive { place, receive })),
        None => unreachable!(),
    }
}

/// Whether the message in progress holds a receive.
pub fn holds_receive(q: &QueuePart) -> bool
    ensures { result ≡ receives.holds_receive q.now.responder.message }
{
    matches!(q.responder.message, Some(Message::Send { .. }))
}

/// A copy of the receive of the message in progress, if it holds one.
#[inline(always)]
pub fn receiving_of(q: &QueuePart) -> Result<Option<Receiving>, Memory>
    requires queue { IsQueue q.now }
    ensures { IfOk result (IsReceiving q.now (rows.receiving_of q.now None q.now.responder.message)) }
{
    if let Some(
        Message::Send {
            place,
            receive,
            bytes,
        },
    ) = &q.responder.message
    {
        return Ok(Some(Receiving {
            receive: PlacedReceive {
                place: *place,
                receive: receive.clone()?,
            },
            before: *bytes,
            taken: false,
        }));
    }
    Ok(None)
}

/// Takes the next receive of the queue pair's own, where it has one.
pub fn take_own(q: &mut QueuePart)
    requires { IfSome q.old.receives (λ r. 0 < waiting_count r) }
    ensures { q.new ≡ arrivals.with_receive_taken q.old }
{
    if let Some(receives) = &mut q.receives {
        receives.take_next();
    }
}

/// Where the bytes of a SEND packet go in a receive's list, behind so many that came before.
pub fn receive_asks(
    q: &QueuePart,
    p: &Packet<'_>,
    before: u32,
    list: &[Piece],
) -> ArrayVec<Ask, MAX_PIECES>
    requires few { length list.now ≤ MAX_PIECES }
    requires payload { length p.now.payload ≤ MAX_PAYLOAD_BYTES }
    ensures value { result.items ≡ list_asks q.now.queue q.now.domain Kind.Write before (length p.now.payload)
        list.now }
    ensures asks { AreAsksFor Kind.Write (length p.now.payload) result.items }
{
    let mut asks = ArrayVec::new();
    fill_receive_asks(q, p, before, list, &mut asks);
    asks
}

/// Puts these asks into a list of the caller's, which is empty.
#[inline(always)]
pub fn fill_receive_asks(
    q: &QueuePart,
    p: &Packet<'_>,
    before: u32,
    list: &[Piece],
    asks: &mut ArrayVec<Ask, MAX_PIECES>,
)
    requires empty { asks.old.items ≡ [] }
    requires few { length list.now ≤ MAX_PIECES }
    requires payload { length p.now.payload ≤ MAX_PAYLOAD_BYTES }
    ensures value { asks.new.items ≡ list_asks q.now.queue q.now.domain Kind.Write before (length p.now.payload)
        list.now }
    ensures asks { AreAsksFor Kind.Write (length p.now.payload) asks.new.items }
{
    let asker = Asker {
        queue: q.queue,
        domain: q.domain,
        kind: Kind::Write,
    };
    fill_asks(asker, before, p.payload.len() as u32, list, asks);
}

/// Whether a SEND packet has more bytes than its receive has room for.
#[inline(always)]
pub fn exceeds_receive(p: &Packet<'_>, before: u32, list: &[Piece]) -> bool
    requires { AreCounted (length p.now.payload) before list.now }
    ensures { result ≡ nat_lt (list_length list.now) (before + length p.now.payload) }
{
    list_length(list) < before + p.payload.len() as u32
}
