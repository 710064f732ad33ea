ghost use Rattle.std.specs.Prelude.{◌≡◌, IfSome};
ghost use Rattle.ca_base.specs.Configuration.{configuration_in};
ghost use Rattle.ca_base.specs.objects.QueuePair.{queue_in};
ghost use Rattle.ca_verbs_machine.specs.Asks.{asked_needs, peer_mail, turn_parts};
ghost use Rattle.ca_adapter_parts.specs.HeldView.{holding};
ghost use Rattle.ca_keys.specs.declared.names.QueueId.{QueueId};
ghost use Rattle.ca_keys.specs.declared.names.Slot.{Slot};
ghost use Rattle.ca_model.specs.machine.CanStep.{CanStep};
ghost use Rattle.ca_model.specs.machine.Invariants.{IsSharedReceives};
ghost use Rattle.ca_model.specs.machine.Parts as machine;
ghost use Rattle.ca_model.specs.machine.Sound.{AreLimited};
ghost use Rattle.ca_verbs_taking.specs.Asking.{asked_of};
ghost use Rattle.ca_base.specs.declared.step.Turn.TheVariants as turns;

use crate::ask::Ask;
use ca_adapter::next_part;
use ca_adapter_parts::{Held, QueueSlot};
use ca_base::{Lot, QueueId, Settings, Turn};
use ca_model::{Event, PartName};

/// The next part that is needed for what is asked, beside those in hand. A turn also needs what tells which event it is: the
/// mailbox from which something is due, and the peer's mailbox, for the lot of what is sent.
pub fn next_asked(settings: &Settings, ask: Ask<'_>, held: &Held) -> Option<PartName>
    requires limits { AreLimited (configuration_in settings.now) }
    requires queues { (q : QueueId) → IfSome (queue_in ((holding held.now).world.queue q)) CanStep }
    requires shared { (s : Slot) → IfSome ((holding held.now).world.srq s).srq IsSharedReceives }
    ensures { result ≡ machine.next_part (holding held.now).parts (holding held.now).world
        (asked_needs (configuration_in settings.now) (asked_of ask.entry)) }
{
    match ask {
        Ask::Event(event) => next_part(settings, event, held),
        Ask::Turn(turn, _) => turn_part(settings, turn, held),
    }
}

/// The next part that a turn needs.
fn turn_part(settings: &Settings, turn: Turn, held: &Held) -> Option<PartName>
    requires limits { AreLimited (configuration_in settings.now) }
    requires queues { (q : QueueId) → IfSome (queue_in ((holding held.now).world.queue q)) CanStep }
    requires shared { (s : Slot) → IfSome ((holding held.now).world.srq s).srq IsSharedReceives }
    ensures { result ≡ machine.next_part (holding held.now).parts (holding held.now).world
        (turn_parts (configuration_in settings.now) turn) }
{
    match turn {
        Turn::Request(queue) => request_part(settings, held, queue),
        Turn::Due(queue) => due_part(settings, held, queue),
        Turn::Deliver(queue, index) => {
            let event = Event::Deliver { queue, index };
            next_part(settings, &event, held)
        }
        Turn::Respond(queue) => respond_part(settings, held, queue),
        Turn::Timeout(queue) => {
            let event = Event::Timeout {
                queue,
                hasten: false,
            };
            next_part(settings, &event, held)
        }
        Turn::RnrWake(queue) => {
            let event = Event::RnrWake { queue };
            next_part(settings, &event, held)
        }
    }
}

/// What a request needs: the parts of its event, and the peer's mailbox.
fn request_part(settings: &Settings, held: &Held, queue: QueueId) -> Option<PartName>
    requires limits { AreLimited (configuration_in settings.now) }
    requires queues { (q : QueueId) → IfSome (queue_in ((holding held.now).world.queue q)) CanStep }
    requires shared { (s : Slot) → IfSome ((holding held.now).world.srq s).srq IsSharedReceives }
    ensures { result ≡ machine.next_part (holding held.now).parts (holding held.now).world
        (turn_parts (configuration_in settings.now) (turns.Request queue)) }
{
    let event = Event::Request {
        queue,
        lot: Lot::Pass,
    };
    match next_part(settings, &event, held) {
        Some(name) => Some(name),
        None => mail_part(settings, held, queue),
    }
}

/// What a response needs: the same.
fn respond_part(settings: &Settings, held: &Held, queue: QueueId) -> Option<PartName>
    requires limits { AreLimited (configuration_in settings.now) }
    requires queues { (q : QueueId) → IfSome (queue_in ((holding held.now).world.queue q)) CanStep }
    requires shared { (s : Slot) → IfSome ((holding held.now).world.srq s).srq IsSharedReceives }
    ensures { result ≡ machine.next_part (holding held.now).parts (holding held.now).world
        (turn_parts (configuration_in settings.now) (turns.Respond queue)) }
{
    let event = Event::Respond {
        queue,
        lot: Lot::Pass,
    };
    match next_part(settings, &event, held) {
        Some(name) => Some(name),
        None => mail_part(settings, held, queue),
    }
}

/// The queue pair, and its peer's mailbox.
#[tactic(auto, using(crate::proofs::NextLemmas::holds))]
fn mail_part(settings: &Settings, held: &Held, queue: QueueId) -> Option<PartName>
    ensures { result ≡ machine.next_part (holding held.now).parts (holding held.now).world
        (machine.turn_needs (configuration_in settings.now) queue peer_mail) }
{
    if !settings.has_queue(queue) {
        return None;
    }
    let name = PartName::Queue(queue);
    if !held.has(&name) {
        return Some(name);
    }
    let QueueSlot::Present(part) = held.queue(queue) else {
        return None;
    };
    let (peer, _) = part.peer?;
    let mailbox = PartName::Mailbox(peer);
    if held.has(&mailbox) {
        None
    } else {
        Some(mailbox)
    }
}

/// What the delivery of what is due needs: the mailbox, and the parts of its event.
#[tactic(auto, using(crate::proofs::NextLemmas::holds))]
fn due_part(settings: &Settings, held: &Held, queue: QueueId) -> Option<PartName>
    requires limits { AreLimited (configuration_in settings.now) }
    requires queues { (q : QueueId) → IfSome (queue_in ((holding held.now).world.queue q)) CanStep }
    requires shared { (s : Slot) → IfSome ((holding held.now).world.srq s).srq IsSharedReceives }
    ensures { result ≡ machine.next_part (holding held.now).parts (holding held.now).world
        (turn_parts (configuration_in settings.now) (turns.Due queue)) }
{
    if !settings.has_queue(queue) {
        return None;
    }
    let name = PartName::Mailbox(queue);
    if !held.has(&name) {
        return Some(name);
    }
    let index = held.mailbox(queue).due()?;
    let event = Event::Deliver { queue, index };
    next_part(settings, &event, held)
}
