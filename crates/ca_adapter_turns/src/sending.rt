ghost use Rattle.std.specs.Prelude.{◌≡◌, ◌*◌, ◌≤◌, ◌<◌, ◌^◌, Bool, [], suc, true, length, IfSome, OnOk};
ghost use Rattle.ca_adapter_acts.specs.Act.{Acts, Suffices};
ghost use Rattle.ca_adapter_acts.specs.Room.{FitsDone};
ghost use Rattle.ca_adapter_turns.specs.Senders as senders;
ghost use Rattle.ca_adapter_turns.specs.Senders.{CanSend, most_by, row_of, turn_plan};
ghost use Rattle.ca_adapter_turns.specs.Shown.{AreShown};
ghost use Rattle.ca_adapter_turns.specs.Stepped.{HasTurned};
ghost use Rattle.ca_base.specs.Configuration.{configuration_in};
ghost use Rattle.ca_base.specs.declared.limits.TheConstants.{MAX_PIECES};
ghost use Rattle.ca_base.specs.objects.QueuePair.{Present, QueuePair, correspondent_of, is_present, queue_in};
ghost use Rattle.ca_adapter_reach.specs.ca_grant.Reaching.{AreAtHand};
ghost use Rattle.ca_adapter_parts.specs.HeldView.{holding};
ghost use Rattle.ca_adapter_reach.specs.AtHand.{CanJudge, HasBytesAtHand};
ghost use Rattle.ca_adapter_reach.specs.Changed.{after_write_by};
ghost use Rattle.ca_adapter_reach.specs.Seen.{sight_of};
ghost use Rattle.ca_keys.specs.declared.names.QueueId.{QueueId};
ghost use Rattle.ca_model.specs.machine.Plan.{perform};
ghost use Rattle.ca_model.specs.machine.Respond.{respond_row};
ghost use Rattle.ca_model.specs.machine.Row.{ending_of};
ghost use Rattle.ca_model.specs.machine.Turns as turns;
ghost use Rattle.ca_model.specs.machine.World.{Mailbox_of, Queue_of};
ghost use Rattle.ca_wire.specs.Packet.{most_of_response, most_spelt};
ghost use Rattle.ca_requester.specs.ca_qp_rows.Asks as asks_of;
ghost use Rattle.ca_requester.specs.ca_qp_rows.Made.{IsTurn};
ghost use Rattle.ca_requester.specs.ca_requester_sends.Turn.{SendsFound, turn_row};

use crate::leave::{Path, leave};
use crate::timers::{peer_of, reaches_peer};
use ca_adapter_acts::{Outlets, put_done};
use ca_adapter_parts::ca_qpstate::QueuePart;
use ca_adapter_parts::{Held, QueueSlot};
use ca_adapter_reach::Reached;
use ca_adapter_reach_laws::ca_responder_answers::{next_response, respond_ask};
use ca_base::{ActError, Ask, Correspondent, Lot, QueueId, Reason, Sent, Settings, State};
use ca_model::Marks;
use ca_requester::{Found, next_asks, next_packet};
use std::alloc::Global;

/// Which engine of a queue pair sends: the responder an answer, or the requester a packet of the request that
/// `next_turn` found.
#[derive(Clone, Copy)]
pub(crate) enum Sender {
    Responder,
    Requester(Found),
}

impl Sender {
    ghost use Rattle.std.specs.Prelude.{◌≡◌, ◌+◌, ◌≤◌, Bool, length, OnOk};
    ghost use Rattle.ca_adapter_turns.specs.Senders as senders;
    ghost use Rattle.ca_adapter_turns.specs.Senders.{CanSend, most_by, row_of};
    ghost use Rattle.ca_adapter_reach.specs.ca_grant.Reaching.{AreAtHand};
    ghost use Rattle.ca_adapter_reach.specs.AtHand.{CanJudge, HasBytesAtHand};
    ghost use Rattle.ca_adapter_reach.specs.Changed.{after_write_by};
    ghost use Rattle.ca_adapter_reach.specs.Seen.{sight_of};
    ghost use Rattle.ca_model.specs.machine.Row.{ending_of};
    ghost use Rattle.ca_requester.specs.ca_qp_rows.Asks.{touched_by};
    ghost use Rattle.ca_requester.specs.ca_qp_rows.Made.{IsTurn};

    /// Why it does not send where its queue pair has no peer.
    fn reason_alone(self, q: &QueuePart) -> Reason
        ensures { result ≡ senders.reason_alone self q.now }
    {
        match (self, q.state) {
            (Sender::Requester(_), _) | (_, State::Reset | State::Init) => Reason::State,
            _ => Reason::Empty,
        }
    }

    /// The most bytes that its packet is spelt in.
    fn most(self, q: &QueuePart) -> usize
        requires { CanSend self q.now }
        ensures { (room : Bool) → most_by self (touched_by (row_of self room q.now).asks) ≤ result }
    {
        match self {
            Sender::Responder => most_of_answer(q),
            Sender::Requester(found) => most_of_packet(q, &found),
        }
    }

    /// Its engine carries out its row, if it can.
    fn turn(
        self,
        q: &mut QueuePart,
        reach: &mut Reached,
        room: bool,
        marks: &mut Marks,
        out: &mut Vec<u8>,
    ) -> Result<Sent, ActError>
        requires can { CanSend self q.old }
        requires at_hand { AreAtHand sight_of CanJudge HasBytesAtHand reach.old (row_of self room q.old).asks }
        ensures turn { IsTurn after_write_by result (ending_of (sight_of reach.old) (row_of self room q.old))
            q.old q.new marks.old marks.new reach.old reach.new out.old.items out.new.items }
        ensures size { OnOk result (length out.new.items
            ≤ length out.old.items + most_by self (touched_by (row_of self room q.old).asks)) }
    {
        match self {
            Sender::Responder => next_response(q, reach, room, marks, out),
            Sender::Requester(found) => next_packet(q, &found, reach, room, marks, out),
        }
    }
}

/// Takes the turn of an engine that sends: its row is carried out, what completes is put into the completion queues,
/// and its packet goes to the peer's mailbox. It is not possible, in this order: `State` where there is no queue pair,
/// the sender's reason where there is no peer, and the first of its row. `Memory` leaves all as it was.
pub(crate) fn take_turn(
    alloc: Global,
    settings: &Settings,
    held: &mut Held,
    queue: QueueId,
    lot: Lot,
    sender: Sender,
) -> Result<Marks, ActError>
    requires suffices { Suffices held.old (turn_plan sender (configuration_in settings.now) queue lot) }
    requires parts { AreShown (configuration_in settings.now) held.old }
    requires can { IfSome (queue_in ((holding held.old).world.queue queue)) (CanSend sender) }
    requires named { IfSome (queue_in ((holding held.old).world.queue queue)) (λ q. q.queue ≡ queue) }
    requires next { (n : QueueId) → suc ((holding held.old).world.mailbox n).next < 2 ^ 64 }
    requires fits { FitsDone (holding held.old).world
        (perform (holding held.old).world (turn_plan sender (configuration_in settings.now) queue lot)) }
    ensures act { Acts result (turn_plan sender (configuration_in settings.now) queue lot) held.old held.new }
{
    if !settings.has_queue(queue) {
        return Err(ActError::NotReady(Reason::State));
    }
    let QueueSlot::Present(q) = held.queue(queue) else {
        return Err(ActError::NotReady(Reason::State));
    };
    let Some(peer) = peer_of(q) else {
        return Err(ActError::NotReady(sender.reason_alone(q)));
    };
    let path = Path {
        from: own_of(q),
        to: peer,
    };
    let to = Outlets::of(q);
    let room = has_room_for(held, q, peer);
    let mut marks = Marks::empty(alloc);
    let mut bytes = Vec::new(alloc);
    let Ok(copy) = Vec::with_capacity(alloc, sender.most(q)) else {
        return Err(ActError::Memory);
    };
    let sent = turn_held(held, queue, sender, room, &mut marks, &mut bytes)?;
    put_done(held, &to, marks.as_slice());
    leave(held, path, lot, sent, bytes, copy, &mut marks);
    Ok(marks)
}

/// The engine of a queue pair that is held carries out its row, if it can; it reaches what is held.
#[tactic(auto, unfolding(ca_adapter_parts::specs::HeldView::holding))]
fn turn_held(
    held: &mut Held,
    queue: QueueId,
    sender: Sender,
    room: bool,
    marks: &mut Marks,
    out: &mut Vec<u8>,
) -> Result<Sent, ActError>
    requires held { (holding held.old).has (Queue_of queue) ≡ true }
    requires there { is_present ((holding held.old).world.queue queue) ≡ true }
    requires can { IfSome (queue_in ((holding held.old).world.queue queue)) (CanSend sender) }
    requires at_hand { IfSome (queue_in ((holding held.old).world.queue queue))
        (λ q. AreAtHand sight_of CanJudge HasBytesAtHand held.old.reached (row_of sender room q).asks) }
    requires empty { out.old.items ≡ [] }
    ensures turned { (q : QueuePair) → (holding held.old).world.queue queue ≡ Present q
        → HasTurned queue result (ending_of (sight_of held.old.reached) (row_of sender room q))
        held.old (holding held.new) marks.old marks.new out.new.items }
    ensures size { (q : QueuePair) → (holding held.old).world.queue queue ≡ Present q
        → OnOk result (length out.new.items ≤ most_by sender (asks_of.touched_by (row_of sender room q).asks)) }
{
    let slot = held.queues.at_mut(queue);
    let QueueSlot::Present(q) = &mut **slot else {
        unreachable!()
    };
    sender.turn(q, &mut held.reached, room, marks, out)
}

/// A queue pair in its incarnation.
fn own_of(q: &QueuePart) -> Correspondent
    ensures { result ≡ correspondent_of q.now }
{
    Correspondent {
        queue: q.queue,
        incarnation: q.incarnation,
    }
}

/// Whether there is room for a packet in the peer's mailbox, which is held, or no path leads there.
fn has_room_for(held: &Held, q: &QueuePart, peer: Correspondent) -> bool
    requires { (holding held.now).has (Mailbox_of peer.queue) ≡ true }
    ensures { result ≡ turns.has_room_for q.now peer ((holding held.now).world.mailbox peer.queue) }
{
    !reaches_peer(held, q, peer) || held.mailbox(peer.queue).room()
}

/// The most bytes that the answer at the front is spelt in.
#[tactic(auto, using(crate::proofs::RowLemmas::respond_touches))]
fn most_of_answer(q: &QueuePart) -> usize
    ensures { (room : Bool) → most_of_response (asks_of.touched_by (respond_row room q.now).asks) ≤ result }
{
    let touched = match respond_ask(q) {
        Some(ask) => ask.touch as usize,
        None => 0,
    };
    (touched + 19).max(24)
}

/// The most bytes that the next packet of a request is spelt in.
fn most_of_packet(q: &QueuePart, found: &Found) -> usize
    requires { SendsFound q.now found.now }
    ensures { (room : Bool) → most_spelt (asks_of.touched_by (turn_row q.now room).asks) ≤ result }
{
    let asks = next_asks(q, found);
    (touched_by(asks.as_slice()) + 35).max(40)
}

/// How many bytes asks touch, which are few.
fn touched_by(asks: &[Ask]) -> usize
    requires { length asks.now ≤ MAX_PIECES }
    ensures value { result ≡ asks_of.touched_by asks.now }
    ensures most { result ≤ length asks.now * 2 ^ 32 }
{
    match asks {
        [] => 0,
        [ask, rest @ ..] => ask.touch as usize + touched_by(rest),
    }
}
