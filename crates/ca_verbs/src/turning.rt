ghost use Rattle.std.specs.Prelude.{◌≡◌};
ghost use Rattle.std.specs.Option.{option_copied};
ghost use Rattle.ca_base.specs.objects.Mailbox.{due};
ghost use Rattle.ca_base.specs.objects.QueuePair.{Present};
ghost use Rattle.ca_adapter_parts.specs.HeldView.{holding};
ghost use Rattle.ca_verbs_taking.specs.Hands.{IsMailboxIn, IsQueueIn};
ghost use Rattle.ca_model_places.specs.Turns as turns;

use ca_adapter_parts::{Held, QueueSlot};
use ca_base::{Lot, QueueId, Turn};
use ca_mailbox::{Mailbox, Weather};
use ca_model::{Event, PartName};
use ca_qpstate::QueuePart;

/// The event that a turn is by what is held, under a weather; none where nothing is due.
pub(crate) fn event_of(held: &Held, turn: Turn, weather: &Weather) -> Option<Event>
    ensures { result ≡ turns.event_of weather.now (holding held.now).world turn }
{
    match turn {
        Turn::Request(queue) => Some(Event::Request {
            queue,
            lot: lot_at(held, weather, queue),
        }),
        Turn::Due(queue) => match due_at(held, queue) {
            Some(index) => Some(Event::Deliver { queue, index }),
            None => None,
        },
        Turn::Deliver(queue, index) => Some(Event::Deliver { queue, index }),
        Turn::Respond(queue) => Some(Event::Respond {
            queue,
            lot: lot_at(held, weather, queue),
        }),
        Turn::Timeout(queue) => Some(Event::Timeout {
            queue,
            hasten: hasten_at(held, weather, queue),
        }),
        Turn::RnrWake(queue) => Some(Event::RnrWake { queue }),
    }
}

/// The slot of a queue pair, if it is held.
#[tactic(auto, using(crate::proofs::TurnLemmas::seen))]
fn queue_seen(held: &Held, queue: QueueId) -> Option<&QueueSlot>
    ensures { IsQueueIn (holding held.now).world queue (option_copied result) }
{
    if held.has(&PartName::Queue(queue)) {
        Some(held.queue(queue))
    } else {
        None
    }
}

/// The mailbox of a queue pair, if it is held.
#[tactic(auto, using(crate::proofs::TurnLemmas::seen))]
fn mailbox_seen(held: &Held, queue: QueueId) -> Option<&Mailbox>
    ensures { IsMailboxIn (holding held.now).world queue (option_copied result) }
{
    if held.has(&PartName::Mailbox(queue)) {
        Some(held.mailbox(queue))
    } else {
        None
    }
}

/// The index of the envelope that is due in a mailbox.
fn due_at(held: &Held, queue: QueueId) -> Option<u64>
    ensures { result ≡ due ((holding held.now).world.mailbox queue) }
{
    match mailbox_seen(held, queue) {
        Some(mailbox) => mailbox.due(),
        None => None,
    }
}

/// The lot of what a queue pair sends next.
fn lot_at(held: &Held, weather: &Weather, queue: QueueId) -> Lot
    ensures { result ≡ turns.lot_at weather.now (holding held.now).world queue }
{
    match queue_seen(held, queue) {
        Some(QueueSlot::Present(q)) => lot_to(held, weather, queue, q),
        _ => Lot::Pass,
    }
}

/// The lot of what this queue pair sends next: the weather's, where a path leads to its peer.
fn lot_to(held: &Held, weather: &Weather, queue: QueueId, q: &QueuePart) -> Lot
    requires { (holding held.now).world.queue queue ≡ Present q.now }
    ensures { result ≡ turns.lot_at weather.now (holding held.now).world queue }
{
    let Some((peer, incarnation)) = q.peer else {
        return Lot::Pass;
    };
    match mailbox_seen(held, peer) {
        Some(mailbox) if mailbox.passes((q.queue, q.incarnation), incarnation) => {
            weather.lot(peer, mailbox.next_index())
        }
        _ => Lot::Pass,
    }
}

/// Whether the weather hastens a queue pair's next timer.
fn hasten_at(held: &Held, weather: &Weather, queue: QueueId) -> bool
    ensures { result ≡ turns.hasten_at weather.now (holding held.now).world queue }
{
    match queue_seen(held, queue) {
        Some(QueueSlot::Present(q)) => weather.hasten(queue, q.requester.timers),
        Some(QueueSlot::Vacant { timers, .. }) => weather.hasten(queue, *timers),
        None => weather.hasten(queue, 0),
    }
}
