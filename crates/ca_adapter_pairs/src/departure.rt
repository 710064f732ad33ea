ghost use Rattle.std.specs.Prelude.{◌≡◌, ◌++◌, ◌≤◌, true, IfSome, length, []};
ghost use Rattle.std.specs.Option.{option_map, option_map_or};
ghost use Rattle.ca_adapter_acts.specs.Binders.{changed_by};
ghost use Rattle.ca_base.specs.declared.limits.TheConstants.{MAX_DEPTH};
ghost use Rattle.ca_base.specs.objects.CompletionQueue.{receives_of};
ghost use Rattle.ca_base.specs.objects.SharedReceives.{after_receives_retire};
ghost use Rattle.ca_adapter_parts.specs.HeldView.{hold, holding};
ghost use Rattle.ca_model.specs.machine.World.{Cq_of};
ghost use Rattle.ca_adapter_pairs.specs.Departures.{CanDepart, StandOnce, cq_updates, after_departure, departure_updates, is_around_held, places_left, without_reservations_at, shared_after, users_after};

use crate::around::Around;
use arrayvec::ArrayVec;
use ca_adapter_parts::{Held, SrqSlot};
use ca_base::limits::MAX_DEPTH;
use ca_base::{QueueId, Reserve, Slot};
use ca_cq::Cq;
use ca_srq::Srq;

/// Why what a queue pair has around it is given back.
#[derive(Clone, Copy)]
pub(crate) enum Departure {
    /// It is emptied, and stays a user of its queues.
    Reset,
    /// It is gone.
    Destruction,
}

/// A queue pair leaves what stands around it: its completions are removed, the places that it holds in a shared receive
/// queue are free, and where it is gone, so are its reservations, and there is one user fewer.
pub(crate) fn depart(held: &mut Held, around: &Around, departure: Departure)
    requires held { is_around_held around.now (holding held.old) ≡ true }
    requires can { CanDepart around.now (holding held.old).world }
    ensures { holding held.new
        ≡ changed_by (departure_updates departure around.now (holding held.old).world) (holding held.old) }
{
    let places = leave_both(held, around, departure);
    if let Some(srq) = around.srq {
        leave_shared(
            held.srq_mut(srq),
            places.as_slice(),
            around.in_use,
            departure,
        );
    }
}

/// It leaves both completion queues, which may be one. Gives the places of its receives that completed, in order.
#[tactic(auto, using(crate::proofs::DepartureLemmas::again, crate::proofs::DepartureLemmas::elsewhere, crate::proofs::DepartureLemmas::few_again))]
fn leave_both(held: &mut Held, around: &Around, departure: Departure) -> ArrayVec<u64, MAX_DEPTH>
    requires held { is_around_held around.now (holding held.old) ≡ true }
    requires can { CanDepart around.now (holding held.old).world }
    ensures places { result.items
        ≡ option_map_or (receives_of around.now.queue) ((holding held.old).world.cq around.now.recv) [] }
    ensures held { holding held.new
        ≡ changed_by (cq_updates departure around.now (holding held.old).world) (holding held.old) }
{
    let first = leave_one(held, around.send, around.queue, departure);
    let second = leave_one(held, around.recv, around.queue, departure);
    if around.send == around.recv {
        first
    } else {
        second
    }
}

/// It leaves one completion queue. Gives the places of its receives that completed there, in order.
#[tactic(auto, using(ca_adapter_parts::proofs::HoldLemmas::put_cq))]
fn leave_one(
    held: &mut Held,
    slot: Slot,
    queue: QueueId,
    departure: Departure,
) -> ArrayVec<u64, MAX_DEPTH>
    requires held { (holding held.old).has (Cq_of slot) ≡ true }
    requires few { IfSome ((holding held.old).world.cq slot) (λ q. length (receives_of queue q) ≤ MAX_DEPTH) }
    ensures places { result.items ≡ option_map_or (receives_of queue) ((holding held.old).world.cq slot) [] }
    ensures held { holding held.new
        ≡ hold (holding held.old) (Cq_of slot)
        (option_map (after_departure departure queue) ((holding held.old).world.cq slot)) }
{
    let cq = held.cq_mut(slot);
    match cq {
        Some(cq) => {
            let places = cq.drop_queue(queue);
            release(cq, queue, departure);
            places
        }
        None => ArrayVec::new(),
    }
}

/// Its reservations end, where it is gone.
#[tactic(auto, using(crate::proofs::DepartureLemmas::both_released))]
fn release(cq: &mut Cq, queue: QueueId, departure: Departure)
    ensures { cq.new ≡ without_reservations_at departure queue cq.old }
{
    if let Departure::Destruction = departure {
        cq.release(Reserve::Sends(queue));
        cq.release(Reserve::Receives(queue));
    }
}

/// The places that it holds in a shared receive queue are free, and where it is gone, there is one user fewer.
fn leave_shared(slot: &mut SrqSlot, places: &[u64], in_use: Option<u64>, departure: Departure)
    requires { IfSome slot.old.srq (λ s. StandOnce (places.now ++ places_left in_use) s.taken) }
    ensures { slot.new ≡ shared_after departure (places.now ++ places_left in_use) slot.old }
{
    slot.users = users_after(departure, slot.users);
    if let Some(srq) = &mut slot.srq {
        retire_held(srq, places, in_use);
    }
}

/// How many queue pairs use a shared receive queue that one has left.
fn users_after(departure: Departure, users: u32) -> u32
    ensures { result ≡ users_after departure users }
{
    match departure {
        Departure::Reset => users,
        Departure::Destruction => users.saturating_sub(1),
    }
}

/// Frees these places and that of the message in progress, of which each stands once.
#[tactic(auto, using(crate::proofs::DepartureLemmas::first_once, crate::proofs::DepartureLemmas::last_once, crate::proofs::DepartureLemmas::retired_both))]
fn retire_held(srq: &mut Srq, places: &[u64], in_use: Option<u64>)
    requires { StandOnce (places.now ++ places_left in_use) srq.old.taken }
    ensures { srq.new ≡ after_receives_retire (places.now ++ places_left in_use) srq.old }
{
    retire_all(srq, places);
    if let Some(place) = in_use {
        srq.retire(place);
    }
}

/// Frees these places, of which each stands once.
fn retire_all(srq: &mut Srq, places: &[u64])
    requires { StandOnce places.now srq.old.taken }
    ensures { srq.new ≡ after_receives_retire places.now srq.old }
{
    for place in places {
        srq.retire(*place);
    }
}
