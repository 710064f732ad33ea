ghost use Rattle.std.specs.Option.{option_copied};
ghost use Rattle.std.specs.Prelude.{◌≡◌, true, false};
ghost use Rattle.ca_base.specs.Configuration.{Configuration};
ghost use Rattle.ca_base.specs.objects.Mailbox.{due};
ghost use Rattle.ca_base.specs.objects.QueuePair.{Present};
ghost use Rattle.ca_model.specs.machine.World.{World};
ghost use Rattle.ca_adapter_store.specs.Rows.{IsRow, IsRowOf};
ghost use Rattle.ca_script_run.specs.Vain.{CanStepSeen, HasNoQueue, HasNoRequest, IsIdle, OwesNoAnswer};
ghost use Rattle.ca_model_places.specs.Turns as turns;

use ca_adapter_store::Row;
use ca_adapter_store::ca_adapter_parts::QueueSlot;
use ca_adapter_store::ca_requester_sends::next_turn;
use ca_base::{Lot, QueueId, Turn};
use ca_mailbox::Weather;
use ca_model::Event;
use ca_qpstate::QueuePart;

/// Whether a turn is seen at once not to be possible: no queue pair is in its slot, its requester waits, or its responder
/// owes no answer. So the parts of such a turn need not be taken in hand.
pub(crate) fn is_in_vain(row: &Row, turn: Turn) -> bool
    requires { IsRow row.now }
    ensures { result ≡ true → (c : Configuration) (w : World) → IsRowOf c w row.now → IsIdle w turn }
{
    match turn {
        Turn::Request(queue) => !has_request(row.queue(queue)),
        Turn::Respond(queue) => !owes_answer(row.queue(queue)),
        Turn::Timeout(queue) | Turn::RnrWake(queue) => !is_present(row.queue(queue)),
        Turn::Due(_) | Turn::Deliver(_, _) => false,
    }
}

/// Whether a queue pair is in a slot.
fn is_present(slot: Option<&QueueSlot>) -> bool
    ensures { result ≡ false → HasNoQueue (option_copied slot.entry) }
{
    match slot {
        Some(QueueSlot::Present(_)) => true,
        Some(QueueSlot::Vacant { .. }) | None => false,
    }
}

/// Whether a queue pair is in a slot whose requester does not wait.
fn has_request(slot: Option<&QueueSlot>) -> bool
    requires { CanStepSeen (option_copied slot) }
    ensures { result ≡ false → HasNoRequest (option_copied slot.entry) }
{
    match slot {
        Some(QueueSlot::Present(q)) => next_turn(q).is_ok(),
        Some(QueueSlot::Vacant { .. }) | None => false,
    }
}

/// Whether a queue pair is in a slot whose responder owes an answer.
fn owes_answer(slot: Option<&QueueSlot>) -> bool
    ensures { result ≡ false → OwesNoAnswer (option_copied slot.entry) }
{
    match slot {
        Some(QueueSlot::Present(q)) => q.responder.answers.get(0).is_some(),
        Some(QueueSlot::Vacant { .. }) | None => false,
    }
}

/// The event that a turn is now on a row, under a weather; none where nothing is due.
pub(crate) fn event_of(row: &Row, weather: &Weather, turn: Turn) -> Option<Event>
    ensures { (c : Configuration) (w : World) → IsRowOf c w row.now → result ≡ turns.event_of weather.now w turn }
{
    match turn {
        Turn::Request(queue) => Some(Event::Request {
            queue,
            lot: lot_at(row, weather, queue),
        }),
        Turn::Due(queue) => match due_at(row, queue) {
            Some(index) => Some(Event::Deliver { queue, index }),
            None => None,
        },
        Turn::Deliver(queue, index) => Some(Event::Deliver { queue, index }),
        Turn::Respond(queue) => Some(Event::Respond {
            queue,
            lot: lot_at(row, weather, queue),
        }),
        Turn::Timeout(queue) => Some(Event::Timeout {
            queue,
            hasten: hasten_at(row, weather, queue),
        }),
        Turn::RnrWake(queue) => Some(Event::RnrWake { queue }),
    }
}

/// The index of the envelope that is due in a mailbox.
fn due_at(row: &Row, queue: QueueId) -> Option<u64>
    ensures { (c : Configuration) (w : World) → IsRowOf c w row.now → result ≡ due (w.mailbox queue) }
{
    match row.mailbox(queue) {
        Some(mailbox) => mailbox.due(),
        None => None,
    }
}

/// The lot of what a queue pair sends next.
fn lot_at(row: &Row, weather: &Weather, queue: QueueId) -> Lot
    ensures { (c : Configuration) (w : World) → IsRowOf c w row.now → result ≡ turns.lot_at weather.now w queue }
{
    match row.queue(queue) {
        Some(QueueSlot::Present(q)) => lot_to(row, weather, queue, q),
        _ => Lot::Pass,
    }
}

/// The lot of what this queue pair sends next: the weather's, where a path leads to its peer.
fn lot_to(row: &Row, weather: &Weather, queue: QueueId, q: &QueuePart) -> Lot
    ensures { (c : Configuration) (w : World) → IsRowOf c w row.now → w.queue queue ≡ Present q.now
        → result ≡ turns.lot_at weather.now w queue }
{
    let Some((peer, incarnation)) = q.peer else {
        return Lot::Pass;
    };
    match row.mailbox(peer) {
        Some(mailbox) if mailbox.passes((q.queue, q.incarnation), incarnation) => {
            weather.lot(peer, mailbox.next_index())
        }
        _ => Lot::Pass,
    }
}

/// Whether the weather hastens a queue pair's next timer.
fn hasten_at(row: &Row, weather: &Weather, queue: QueueId) -> bool
    ensures { (c : Configuration) (w : World) → IsRowOf c w row.now → result ≡ turns.hasten_at weather.now w queue }
{
    match row.queue(queue) {
        Some(QueueSlot::Present(q)) => weather.hasten(queue, q.requester.timers),
        Some(QueueSlot::Vacant { timers, .. }) => weather.hasten(queue, *timers),
        None => weather.hasten(queue, 0),
    }
}
