ghost use Rattle.std.specs.Prelude.{◌≡◌, Bool, true, IfSome};
ghost use Rattle.ca_base.specs.Configuration.{Configuration, configuration_in};
ghost use Rattle.ca_base.specs.declared.lot.Lot.{Lot};
ghost use Rattle.ca_base.specs.objects.QueuePair.{queue_in};
ghost use Rattle.ca_adapter_parts.specs.HeldView.{holding};
ghost use Rattle.ca_model.specs.declared.event.Event.TheVariants as events;
ghost use Rattle.ca_model.specs.declared.part_name.PartName.TheVariants as names;
ghost use Rattle.ca_model.specs.machine.CanStep.{CanStep};
ghost use Rattle.ca_model.specs.machine.Parts.{Part, event_needs, operation_needs, request_needs, row_needs, where_some};
ghost use Rattle.ca_model.specs.machine.Requester.{turn_of};
ghost use Rattle.ca_model.specs.machine.Respond.{respond_row};
ghost use Rattle.ca_requester.specs.ca_requester_sends.Turn.{IsWaiting, SendsFound};
ghost use Rattle.ca_adapter_footprint.specs.Next as next;
ghost use Rattle.ca_adapter_footprint.specs.Next.{next_of};

use crate::around::{around, beside, peer};
use crate::keys::{bind, ending, row};
use crate::missing::{missing, missing_of};
use ca_adapter_parts::{Held, QueueSlot};
use ca_base::{QueueId, Reason, SendOp, Settings};
use ca_model::PartName;
use ca_qpstate::QueuePart;
use ca_requester::ca_requester_sends::{Found, Turn, next_asks, next_local, next_turn};
use ca_responder::ca_responder_answers::respond_ask;

/// Timeout: the queue pair, its mailbox, what stands around it, and the peer's queue pair and mailbox.
#[tactic(auto, using(crate::proofs::HasLemmas::holds))]
pub(crate) fn timeout(settings: &Settings, held: &Held, queue: QueueId) -> Option<PartName>
    ensures { (hasten : Bool) → result
        ≡ next_of held.now (event_needs (configuration_in settings.now) (events.Timeout queue hasten)) }
{
    if !settings.has_queue(queue) {
        return None;
    }
    let name = PartName::Queue(queue);
    if !held.has(&name) {
        return Some(name);
    }
    let QueueSlot::Present(q) = held.queue(queue) else {
        return None;
    };
    let mailbox = PartName::Mailbox(queue);
    if !held.has(&mailbox) {
        return Some(mailbox);
    }
    if let Some(name) = around(held, q) {
        return Some(name);
    }
    match q.peer {
        Some((peer, _)) => missing_of(held, PartName::Queue(peer), PartName::Mailbox(peer)),
        None => None,
    }
}

/// RnrWake: the queue pair, and the peer's queue pair, mailbox and shared receive queue.
#[tactic(auto, using(crate::proofs::HasLemmas::holds))]
pub(crate) fn rnr_wake(settings: &Settings, held: &Held, queue: QueueId) -> Option<PartName>
    ensures { result ≡ next_of held.now (event_needs (configuration_in settings.now) (events.RnrWake queue)) }
{
    if !settings.has_queue(queue) {
        return None;
    }
    let name = PartName::Queue(queue);
    if !held.has(&name) {
        return Some(name);
    }
    let QueueSlot::Present(q) = held.queue(queue) else {
        return None;
    };
    match q.peer {
        Some((queue, incarnation)) => peer(held, queue, incarnation),
        None => None,
    }
}

/// Respond: the queue pair, what stands around it, the peer's mailbox, and what the answer at the front asks for.
#[tactic(auto, using(crate::proofs::HasLemmas::holds))]
pub(crate) fn respond(settings: &Settings, held: &Held, queue: QueueId) -> Option<PartName>
    ensures { (lot : Lot) → result
        ≡ next_of held.now (event_needs (configuration_in settings.now) (events.Respond queue lot)) }
{
    if !settings.has_queue(queue) {
        return None;
    }
    let name = PartName::Queue(queue);
    if !held.has(&name) {
        return Some(name);
    }
    let QueueSlot::Present(q) = held.queue(queue) else {
        return None;
    };
    if let Some(name) = around(held, q) {
        return Some(name);
    }
    answer(settings, held, q)
}

/// The peer's mailbox, and what the answer at the front asks for.
fn answer(settings: &Settings, held: &Held, q: &QueuePart) -> Option<PartName>
    ensures { result ≡ next_of held.now (where_some (λ p. Part (names.Mailbox p.queue)
        (row_needs (configuration_in settings.now) (respond_row true q.now))) q.now.peer) }
{
    let Some((peer, _)) = q.peer else {
        return None;
    };
    let mailbox = PartName::Mailbox(peer);
    if !held.has(&mailbox) {
        return Some(mailbox);
    }
    response(settings, held, q)
}

/// What the answer at the front asks for.
#[tactic(auto, using(crate::proofs::KeyLemmas::respond_no_key))]
fn response(settings: &Settings, held: &Held, q: &QueuePart) -> Option<PartName>
    ensures { result ≡ next_of held.now (row_needs (configuration_in settings.now) (respond_row true q.now)) }
{
    match respond_ask(q) {
        Some(ask) => row(settings, held, q, &[ask], None),
        None => row(settings, held, q, &[], None),
    }
}

/// Request: the queue pair, what stands around it, and what its turn needs.
#[tactic(auto, using(crate::proofs::HasLemmas::holds))]
pub(crate) fn request(settings: &Settings, held: &Held, queue: QueueId) -> Option<PartName>
    requires { IfSome (queue_in ((holding held.now).world.queue queue)) CanStep }
    ensures { (lot : Lot) → result
        ≡ next_of held.now (event_needs (configuration_in settings.now) (events.Request queue lot)) }
{
    if !settings.has_queue(queue) {
        return None;
    }
    let name = PartName::Queue(queue);
    if !held.has(&name) {
        return Some(name);
    }
    let QueueSlot::Present(q) = held.queue(queue) else {
        return None;
    };
    if let Some(name) = around(held, q) {
        return Some(name);
    }
    turn(settings, held, q)
}

/// What a requester's turn needs beside the queue pair and what stands around it; a packet also the peer's mailbox.
#[tactic(auto, using(crate::proofs::TurnLemmas::performs))]
fn turn(settings: &Settings, held: &Held, q: &QueuePart) -> Option<PartName>
    requires { CanStep q.now }
    ensures { result ≡ next_of held.now (request_needs (configuration_in settings.now) q.now (turn_of q.now)) }
{
    match next_turn(q) {
        Ok(Turn::Performs(found)) => {
            let (request, _) = next_local(q, &found);
            operation(settings, held, q, &request.op)
        }
        Ok(Turn::Sends(found)) => packet(settings, held, q, &found),
        Err(reason) => waiting(held, q, reason),
    }
}

/// What a local operation needs.
fn operation(settings: &Settings, held: &Held, q: &QueuePart, op: &SendOp) -> Option<PartName>
    ensures { result ≡ next_of held.now (operation_needs (configuration_in settings.now) q.now op.now) }
{
    match op {
        SendOp::Bind1 { window, region, .. } => bind(settings, held, q, *window, *region),
        SendOp::Bind2 { window, region, .. } => bind(settings, held, q, *window, *region),
        SendOp::FastReg { region, .. } => missing(held, PartName::Region(beside(q, *region))),
        SendOp::LocalInv { key } => ending(settings, held, q.domain, *key),
        _ => None,
    }
}

/// The peer's mailbox, and what a packet asks for.
#[tactic(auto, using(crate::proofs::TurnLemmas::sends_some, crate::proofs::TurnLemmas::sends_none, crate::proofs::TurnLemmas::sends_no_key))]
fn packet(settings: &Settings, held: &Held, q: &QueuePart, found: &Found) -> Option<PartName>
    requires { SendsFound q.now found.now }
    ensures { result ≡ next_of held.now (request_needs (configuration_in settings.now) q.now (turn_of q.now)) }
{
    let Some((receiver, _)) = q.peer else {
        return None;
    };
    let mailbox = PartName::Mailbox(receiver);
    if !held.has(&mailbox) {
        return Some(mailbox);
    }
    let list = next_asks(q, found);
    row(settings, held, q, list.as_slice(), None)
}

/// What a turn that waits needs: where a packet would be too much, the peer's mailbox.
#[tactic(auto, using(crate::proofs::TurnLemmas::waits_full, crate::proofs::TurnLemmas::waits_other))]
fn waiting(held: &Held, q: &QueuePart, reason: Reason) -> Option<PartName>
    requires { IsWaiting q.now reason }
    ensures { (c : Configuration) → result ≡ next_of held.now (request_needs c q.now (turn_of q.now)) }
{
    if !waits_for_answers(reason) {
        return None;
    }
    match q.peer {
        Some((peer, _)) => missing(held, PartName::Mailbox(peer)),
        None => None,
    }
}

/// Whether a turn waits because too much would be outstanding.
fn waits_for_answers(reason: Reason) -> bool
    ensures { result ≡ next.waits_for_answers reason }
{
    matches!(reason, Reason::Outstanding)
}
