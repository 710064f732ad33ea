ghost use Rattle.std.specs.Prelude.{◌≡◌, ℕ, IfSome, None, Option, option_copied};
ghost use Rattle.ca_base.specs.objects.QueuePair.{queue_in};
ghost use Rattle.ca_keys.specs.declared.names.Slot.{Slot};
ghost use Rattle.ca_model.specs.declared.event.Event.TheVariants as events;
ghost use Rattle.ca_model.specs.declared.part_name.PartName.TheVariants as names;
ghost use Rattle.ca_base.specs.Configuration.{configuration_in};
ghost use Rattle.ca_adapter_parts.specs.HeldView.{holding};
ghost use Rattle.ca_model.specs.machine.CanStep.{CanStep};
ghost use Rattle.ca_model.specs.machine.Delivery.{arrival_row};
ghost use Rattle.ca_model.specs.machine.Invariants.{IsSharedReceives};
ghost use Rattle.ca_model.specs.machine.Parts.{Part, arrival_needs, event_needs, present_needs, row_needs};
ghost use Rattle.ca_model.specs.machine.Seen.{shared_receives};
ghost use Rattle.ca_adapter_footprint.specs.Next.{IsNextAround, next_of};

use crate::around::{around, beside};
use crate::keys::row;
use ca_adapter_parts::{Held, QueueSlot};
use ca_base::{QueueId, Settings};
use ca_model::PartName;
use ca_qpstate::QueuePart;
use ca_requester::ca_qp_rows::{Arrival, arrival_of};
use ca_requester::response_asks;
use ca_responder::{request_asks, request_key};
use ca_srq::Srq;

/// What bytes that arrive at a queue pair need beside it. The packet is read once.
#[tactic(auto, using(crate::proofs::HasLemmas::holds))]
pub(crate) fn arrival(
    settings: &Settings,
    held: &Held,
    q: &QueuePart,
    bytes: &[u8],
) -> Option<PartName>
    requires step { CanStep q.now }
    requires shared { IfSome (shared_receives (holding held.now).world q.now) IsSharedReceives }
    ensures { (envelope : Option ℕ) → result
        ≡ next_of held.now (arrival_needs (configuration_in settings.now) envelope bytes.now q.now) }
{
    if let Some(name) = around(held, q) {
        return Some(name);
    }
    let srq = receives(held, q);
    arrived(settings, held, q, srq, bytes)
}

/// The shared receives of a queue pair around which nothing is missing.
#[tactic(auto, using(crate::proofs::HasLemmas::holds, crate::proofs::ReadyLemmas::around_srq))]
fn receives<'a>(held: &'a Held, q: &QueuePart) -> Option<&'a Srq>
    requires { IsNextAround held.now q.now None }
    ensures { option_copied result ≡ shared_receives (holding held.now).world q.now }
{
    match q.srq {
        Some(srq) => held.srq(beside(q, srq)).srq.as_ref(),
        None => None,
    }
}

/// What the row asks for that bytes which arrive meet, and the key that it ends.
#[tactic(auto, using(crate::proofs::KeyLemmas::response_no_key))]
fn arrived(
    settings: &Settings,
    held: &Held,
    q: &QueuePart,
    srq: Option<&Srq>,
    bytes: &[u8],
) -> Option<PartName>
    requires step { CanStep q.now }
    requires shared { IfSome (option_copied srq) IsSharedReceives }
    ensures { (envelope : Option ℕ) → result ≡ next_of held.now
        (row_needs (configuration_in settings.now) (arrival_row bytes.now envelope (option_copied srq.entry) q.now)) }
{
    match arrival_of(q, bytes) {
        Ok(Arrival::Response(p)) => {
            let list = response_asks(q, &p);
            row(settings, held, q, list.as_slice(), None)
        }
        Ok(Arrival::Request(p, _)) => {
            let list = request_asks(q, srq, &p);
            let key = request_key(q, srq, &p);
            row(settings, held, q, list.as_slice(), key)
        }
        Err(_) => None,
    }
}

/// What bytes that arrive at a queue pair need with it.
#[tactic(auto, using(crate::proofs::HasLemmas::holds, crate::proofs::ReadyLemmas::shared_up))]
fn arrival_at(settings: &Settings, held: &Held, queue: QueueId, bytes: &[u8]) -> Option<PartName>
    requires step { IfSome (queue_in ((holding held.now).world.queue queue)) CanStep }
    requires shared { (s : Slot) → IfSome ((holding held.now).world.srq s).srq IsSharedReceives }
    ensures { (envelope : Option ℕ) → result ≡ next_of held.now
        (present_needs queue (arrival_needs (configuration_in settings.now) envelope bytes.now)) }
{
    let name = PartName::Queue(queue);
    if !held.has(&name) {
        return Some(name);
    }
    match held.queue(queue) {
        QueueSlot::Present(q) => arrival(settings, held, q, bytes),
        QueueSlot::Vacant { .. } => None,
    }
}

/// Deliver: the mailbox, and where its envelope is kept, the queue pair and what the packet needs.
#[tactic(auto, using(crate::proofs::HasLemmas::holds))]
pub(crate) fn deliver(
    settings: &Settings,
    held: &Held,
    queue: QueueId,
    index: u64,
) -> Option<PartName>
    requires step { IfSome (queue_in ((holding held.now).world.queue queue)) CanStep }
    requires shared { (s : Slot) → IfSome ((holding held.now).world.srq s).srq IsSharedReceives }
    ensures { result ≡ next_of held.now (event_needs (configuration_in settings.now) (events.Deliver queue index)) }
{
    if !settings.has_queue(queue) {
        return None;
    }
    let name = PartName::Mailbox(queue);
    if !held.has(&name) {
        return Some(name);
    }
    match held.mailbox(queue).lend(index) {
        Ok(bytes) => arrival_at(settings, held, queue, bytes),
        Err(_) => None,
    }
}

/// Inject: the queue pair, its mailbox, and what the packet needs.
#[tactic(auto, using(crate::proofs::HasLemmas::holds, crate::proofs::ReadyLemmas::shared_up))]
pub(crate) fn inject(
    settings: &Settings,
    held: &Held,
    queue: QueueId,
    bytes: &[u8],
) -> Option<PartName>
    requires step { IfSome (queue_in ((holding held.now).world.queue queue)) CanStep }
    requires shared { (s : Slot) → IfSome ((holding held.now).world.srq s).srq IsSharedReceives }
    ensures { result ≡ next_of held.now (present_needs queue
        (λ q. Part (names.Mailbox queue) (arrival_needs (configuration_in settings.now) None bytes.now q))) }
{
    let name = PartName::Queue(queue);
    if !held.has(&name) {
        return Some(name);
    }
    let QueueSlot::Present(q) = held.queue(queue) else {
        return None;
    };
    let mailbox = PartName::Mailbox(queue);
    if !held.has(&mailbox) {
        return Some(mailbox);
    }
    arrival(settings, held, q, bytes)
}
