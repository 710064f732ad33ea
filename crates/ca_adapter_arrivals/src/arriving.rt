ghost use Rattle.std.specs.Prelude.{◌≡◌, ◌<◌, false, IfSome, IsTrue};
ghost use Rattle.ca_adapter_arrivals.specs.Arrived.{shared_on, told, with_shared};
ghost use Rattle.ca_base.specs.objects.QueuePair.{srq_of};
ghost use Rattle.ca_adapter_reach.specs.AtHand.{CanEnd, CanJudge, HasBytesAtHand};
ghost use Rattle.ca_adapter_reach.specs.Changed.{after_end_of, after_write_by};
ghost use Rattle.ca_adapter_reach.specs.Seen.{sight_of};
ghost use Rattle.ca_keys.specs.Equal.{slot_eq};
ghost use Rattle.ca_model.specs.Packets.{is_response};
ghost use Rattle.ca_model.specs.machine.CanStep.{CanStep};
ghost use Rattle.ca_model.specs.machine.Delivery.{arrival_row, packet_arrived};
ghost use Rattle.ca_model.specs.machine.Invariants.{IsSharedReceives};
ghost use Rattle.ca_responder.specs.ca_responder_operations.Taking.{CanMeet, IsArrival, outcome_in};
ghost use Rattle.ca_wire.specs.Packet.{IsWellFormed};
ghost use Rattle.ca_adapter_reach.specs.Shelved.{has_thing};

use ca_adapter_parts::SrqSlot;
use ca_adapter_parts::ca_qpstate::QueuePart;
use ca_adapter_reach::{Reached, Shelf};
use ca_adapter_turns::ca_requester::on_response;
use ca_base::{Memory, Slot};
use ca_model::{Mark, Marks};
use ca_responder::ca_qp_rows::{Arrival, arrival_of, drop_packet};
use ca_responder::on_request;
use ca_wire::Packet;

/// Bytes that arrive, and the index of their envelope, where one carried them.
#[derive(Clone, Copy)]
pub(crate) struct Incoming<'a> {
    pub(crate) bytes: &'a [u8],
    pub(crate) envelope: Option<u64>,
}

/// Bytes arrive at a queue pair, whose shared receive queue stands on a shelf, where it has one. That they arrived is
/// told first, and then what comes of it. `Memory` changes nothing but the marks.
pub(crate) fn arrive(
    q: &mut QueuePart,
    srqs: &mut Shelf<Slot, SrqSlot>,
    reach: &mut Reached,
    incoming: &Incoming<'_>,
    marks: &mut Marks,
) -> Result<(), Memory>
    requires step { CanStep q.old }
    requires there { IfSome q.old.srq (λ srq. IsTrue (has_thing slot_eq (srq_of q.old srq) srqs.old.things)) }
    requires shared { IfSome (shared_on srqs.old q.old) IsSharedReceives }
    requires at_hand { CanMeet sight_of CanJudge HasBytesAtHand CanEnd reach.old q.old
        (arrival_row incoming.now.bytes.now incoming.now.envelope (shared_on srqs.old q.old) q.old) }
    requires room { 0 < marks.old.room }
    ensures arrival { IsArrival after_write_by after_end_of result (outcome_in (sight_of reach.old)
        (arrival_row incoming.now.bytes.now incoming.now.envelope (shared_on srqs.old q.old) q.old))
        q.old q.new (told q.old incoming.now.envelope marks.old) marks.new
        reach.old reach.new (shared_on srqs.old q.old) (shared_on srqs.new q.old) }
    ensures shelf { srqs.new ≡ with_shared q.old (shared_on srqs.new q.old) srqs.old }
{
    tell(q, incoming, marks);
    meet(q, srqs, reach, incoming, marks)
}

/// Tells that bytes arrived at a queue pair, in the spare room.
fn tell(q: &QueuePart, incoming: &Incoming<'_>, marks: &mut Marks)
    requires { 0 < marks.old.room }
    ensures { marks.new.marks ≡ (told q.now incoming.now.envelope marks.old).marks }
{
    marks.push(Mark::Arrived {
        target: q.queue,
        index: incoming.envelope,
    });
}

/// Bytes meet a queue pair. They are read once: they are dropped, or their packet is taken by its engine. `Memory`
/// changes nothing.
fn meet(
    q: &mut QueuePart,
    srqs: &mut Shelf<Slot, SrqSlot>,
    reach: &mut Reached,
    incoming: &Incoming<'_>,
    marks: &mut Marks,
) -> Result<(), Memory>
    requires step { CanStep q.old }
    requires there { IfSome q.old.srq (λ srq. IsTrue (has_thing slot_eq (srq_of q.old srq) srqs.old.things)) }
    requires shared { IfSome (shared_on srqs.old q.old) IsSharedReceives }
    requires at_hand { CanMeet sight_of CanJudge HasBytesAtHand CanEnd reach.old q.old
        (arrival_row incoming.now.bytes.now incoming.now.envelope (shared_on srqs.old q.old) q.old) }
    ensures arrival { IsArrival after_write_by after_end_of result (outcome_in (sight_of reach.old)
        (arrival_row incoming.now.bytes.now incoming.now.envelope (shared_on srqs.old q.old) q.old))
        q.old q.new marks.old marks.new reach.old reach.new (shared_on srqs.old q.old) (shared_on srqs.new q.old) }
    ensures shelf { srqs.new ≡ with_shared q.old (shared_on srqs.new q.old) srqs.old }
{
    match arrival_of(q, incoming.bytes) {
        Ok(Arrival::Response(p)) => on_response(q, reach, &p, marks),
        Ok(Arrival::Request(p, _)) => take_request(q, srqs, reach, &p, incoming.envelope, marks),
        Err(cause) => drop_packet(q, cause, marks),
    }
}

/// The responder of a queue pair takes a request, with the shared receive queue, where there is one.
fn take_request(
    q: &mut QueuePart,
    srqs: &mut Shelf<Slot, SrqSlot>,
    reach: &mut Reached,
    p: &Packet<'_>,
    envelope: Option<u64>,
    marks: &mut Marks,
) -> Result<(), Memory>
    requires step { CanStep q.old }
    requires there { IfSome q.old.srq (λ srq. IsTrue (has_thing slot_eq (srq_of q.old srq) srqs.old.things)) }
    requires shared { IfSome (shared_on srqs.old q.old) IsSharedReceives }
    requires packet { IsWellFormed p.now }
    requires request { is_response p.now.opcode ≡ false }
    requires at_hand { CanMeet sight_of CanJudge HasBytesAtHand CanEnd reach.old q.old
        (packet_arrived p.now envelope (shared_on srqs.old q.old) q.old) }
    ensures arrival { IsArrival after_write_by after_end_of result (outcome_in (sight_of reach.old)
        (packet_arrived p.now envelope (shared_on srqs.old q.old) q.old))
        q.old q.new marks.old marks.new reach.old reach.new (shared_on srqs.old q.old) (shared_on srqs.new q.old) }
    ensures shelf { srqs.new ≡ with_shared q.old (shared_on srqs.new q.old) srqs.old }
{
    let Some(srq) = q.srq else {
        return on_request(q, None, reach, p, envelope, marks);
    };
    let slot = Slot {
        domain: q.domain,
        slot: srq,
    };
    match &mut srqs.at_mut(slot).srq {
        Some(srq) => on_request(q, Some(srq), reach, p, envelope, marks),
        None => on_request(q, None, reach, p, envelope, marks),
    }
}
