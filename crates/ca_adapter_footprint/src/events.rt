ghost use Rattle.std.specs.Prelude.{◌≡◌, true, IfSome};
ghost use Rattle.ca_base.specs.objects.QueuePair.{queue_in};
ghost use Rattle.ca_keys.specs.declared.names.QueueId.{QueueId};
ghost use Rattle.ca_keys.specs.declared.names.Slot.{Slot};
ghost use Rattle.ca_base.specs.Configuration.{configuration_in};
ghost use Rattle.ca_adapter_parts.specs.HeldView.{holding};
ghost use Rattle.ca_model.specs.declared.part_name.PartName.TheVariants as names;
ghost use Rattle.ca_model.specs.machine.CanStep.{CanStep};
ghost use Rattle.ca_model.specs.machine.Invariants.{IsSharedReceives};
ghost use Rattle.ca_model.specs.machine.Parts as machine;
ghost use Rattle.ca_model.specs.machine.Sound.{AreLimited};
ghost use Rattle.ca_model.specs.machine.Step.{is_named};

use crate::arrivals::{deliver, inject};
use crate::missing::{missing, missing_of};
use crate::named::is_named;
use crate::turns::{request, respond, rnr_wake, timeout};
use crate::verbs::{create_qp, dealloc_mw, destroy_qp, modify_qp, poll, post_recv, post_send};
use ca_adapter_parts::Held;
use ca_base::{DomainId, QueueId, Settings};
use ca_model::{Event, PartName, Verb};

/// The next part that an event needs beside those in hand, by the machine's table of parts and what the parts in hand
/// show. None comes exactly where they suffice. It takes no memory.
///
/// The caller shows that the configuration is within its limits, and that the queue pairs and the shared receive queues
/// in hand can come up.
pub fn next_part(settings: &Settings, event: &Event, held: &Held) -> Option<PartName>
    requires limits { AreLimited (configuration_in settings.now) }
    requires queues { (q : QueueId) → IfSome (queue_in ((holding held.now).world.queue q)) CanStep }
    requires shared { (s : Slot) → IfSome ((holding held.now).world.srq s).srq IsSharedReceives }
    ensures { result ≡ machine.next_part (holding held.now).parts (holding held.now).world
        (machine.event_needs (configuration_in settings.now) event.now) }
{
    match event {
        Event::Verb { verb, .. } => {
            if is_named(settings, verb) {
                verb_part(settings, held, verb)
            } else {
                None
            }
        }
        Event::Request { queue, .. } => request(settings, held, *queue),
        Event::Deliver { queue, index } => deliver(settings, held, *queue, *index),
        Event::Respond { queue, .. } => respond(settings, held, *queue),
        Event::Timeout { queue, .. } => timeout(settings, held, *queue),
        Event::RnrWake { queue } => rnr_wake(settings, held, *queue),
    }
}

/// The next part that a verb needs whose names are configured.
#[tactic(auto, using(crate::proofs::ReadyLemmas::small_slot, crate::proofs::ReadyLemmas::small_and))]
fn verb_part(settings: &Settings, held: &Held, verb: &Verb) -> Option<PartName>
    requires limits { AreLimited (configuration_in settings.now) }
    requires named { is_named (configuration_in settings.now) verb.now ≡ true }
    requires queues { (q : QueueId) → IfSome (queue_in ((holding held.now).world.queue q)) CanStep }
    requires shared { (s : Slot) → IfSome ((holding held.now).world.srq s).srq IsSharedReceives }
    ensures { result ≡ machine.next_part (holding held.now).parts (holding held.now).world
        (machine.verb_needs (configuration_in settings.now) verb.now) }
{
    match verb {
        Verb::AllocPd { domain } => missing(held, PartName::Control(*domain)),
        Verb::DeallocPd { domain } => missing(held, PartName::Control(*domain)),
        Verb::RegMr { slot, .. } => object(held, slot.domain, PartName::Region(*slot)),
        Verb::AllocMr { slot, .. } => object(held, slot.domain, PartName::Region(*slot)),
        Verb::DeregMr { slot } => object(held, slot.domain, PartName::Region(*slot)),
        Verb::AllocMw { slot, .. } => object(held, slot.domain, PartName::Window(*slot)),
        Verb::DeallocMw { slot } => dealloc_mw(settings, held, *slot),
        Verb::CreateCq { slot, .. } => object(held, slot.domain, PartName::Cq(*slot)),
        Verb::DestroyCq { slot } => object(held, slot.domain, PartName::Cq(*slot)),
        Verb::CreateSrq { slot, .. } => object(held, slot.domain, PartName::Srq(*slot)),
        Verb::DestroySrq { slot } => object(held, slot.domain, PartName::Srq(*slot)),
        Verb::CreateQp {
            slot,
            send_cq,
            recv_cq,
            srq,
            ..
        } => create_qp(settings, held, *slot, *send_cq, *recv_cq, *srq),
        Verb::ModifyQp { slot, .. } => modify_qp(held, *slot),
        Verb::QueryQp { slot } => missing(held, PartName::Queue(QueueId::of_slot(*slot))),
        Verb::DestroyQp { slot } => destroy_qp(settings, held, *slot),
        Verb::PostSend { slot, request } => post_send(held, *slot, &request.op),
        Verb::PostRecv { slot, .. } => post_recv(held, *slot),
        Verb::PostSrq { slot, .. } => missing(held, PartName::Srq(*slot)),
        Verb::Poll { slot, n, .. } => poll(held, *slot, *n),
        Verb::Store {
            adapter,
            buffer,
            ..
        } => bytes_of(held, *adapter, *buffer),
        Verb::Load {
            adapter,
            buffer,
            ..
        } => bytes_of(held, *adapter, *buffer),
        Verb::Inject { queue, bytes } => inject(settings, held, *queue, bytes.as_slice()),
    }
}

/// A buffer's part.
fn bytes_of(held: &Held, adapter: u8, index: u16) -> Option<PartName>
    ensures { result ≡ machine.next_part (holding held.now).parts (holding held.now).world
        (machine.part (names.Buffer adapter index)) }
{
    missing(held, PartName::Buffer { adapter, index })
}

/// An object of a domain: the domain, and the object's part.
fn object(held: &Held, domain: DomainId, part: PartName) -> Option<PartName>
    ensures { result ≡ machine.next_part (holding held.now).parts (holding held.now).world
        (machine.object_needs domain part) }
{
    missing_of(held, PartName::Control(domain), part)
}
