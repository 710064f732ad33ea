ghost use Rattle.std.specs.Prelude.{◌≡◌, ◌==◌, ℕ, ◌+◌, ◌≤◌, ◌<◌, true, List, ◌∷◌, ◌++◌, Some};
ghost use Rattle.std.specs.Prelude.{filter, is_some, length, map};
ghost use Rattle.std.specs.List.{AllByRecursion, IsDistinct};
ghost use Rattle.std.specs.Option.{option_eq};
ghost use Rattle.ca_base.specs.Configuration.{Configuration};
ghost use Rattle.ca_base.specs.declared.completion.Completion.{Completion};
ghost use Rattle.ca_base.specs.declared.limits.TheConstants.{MAX_DEPTH};
ghost use Rattle.ca_keys.specs.Memory.{ByteMap};
ghost use Rattle.ca_keys.specs.declared.names.QueueId.{QueueId};
ghost use Rattle.ca_keys.specs.declared.names.Slot.{Slot};
ghost use Rattle.ca_base.specs.objects.CompletionQueue.{CompletionQueue, after_puts, receives_of, source_in, user_of};
ghost use Rattle.ca_base.specs.objects.SharedReceives.{SharedReceives};
ghost use Rattle.ca_srq.specs.Taken.{stands_once};
ghost use Rattle.ca_base.specs.objects.QueuePair.{NoQueue, Present, QueuePair, recv_cq_of, send_cq_of, srq_of};
ghost use Rattle.ca_base.specs.declared.reserve.Reserve.{Reserve};
ghost use Rattle.ca_base.specs.declared.reserve.Reserve.TheVariants.{Receives, Sends};
ghost use Rattle.ca_cq.specs.Room.{is_new_side};
ghost use Rattle.ca_law_parts.specs.Room.{HasRoom, HasSide, rooms_of};
ghost use Rattle.ca_model.specs.declared.event.Event.{Event};
ghost use Rattle.ca_model.specs.declared.mark.Mark.{Mark};
ghost use Rattle.ca_model.specs.machine.CompletionVerbs.{source_of_completion};
ghost use Rattle.ca_model.specs.machine.Frame.{Afterwards};
ghost use Rattle.ca_model.specs.machine.Plan.{Did};
ghost use Rattle.ca_model.specs.machine.Sound.{AreLimited, CanBeMade, IsSoundWorld};
ghost use Rattle.ca_model.specs.machine.Step.{step};
ghost use Rattle.ca_model.specs.machine.World.{World, opening_world};

/// In the world before the first event no completion waits and nothing is reserved.
pub fn opening_world_has_room()
    ensures { (byte : ByteMap) → HasRoom (opening_world byte) }
{}

/// Every event that can be made leaves room: what each queue pair reserved stays reserved, and what waits stands for
/// requests and receives that occupy its queues, or for places that it took of a shared receive queue.
pub fn event_keeps_room()
    ensures { (c : Configuration) (event : Event) (w : World) → IsSoundWorld c w → HasRoom w → CanBeMade event
        → Afterwards HasRoom (step c w event) }
{}

/// In a sound world that has room no more completions wait in a completion queue than its capacity, and of the receives
/// of one queue pair no more than a queue may be deep, so that `Cq::drop_queue` may remove them.
pub fn completion_queues_hold_what_waits()
    ensures waiting { (c : Configuration) (w : World) (s : Slot) (q : CompletionQueue) → IsSoundWorld c w → HasRoom w
        → w.cq s ≡ Some q → length q.waiting ≤ q.capacity }
    ensures receives { (c : Configuration) (w : World) (s : Slot) (q : CompletionQueue) (queue : QueueId)
        → IsSoundWorld c w → HasRoom w → w.cq s ≡ Some q → length (receives_of queue q) ≤ MAX_DEPTH }
{}

/// Where an event puts completions into a completion queue, they fit, together with what waits there already; and before
/// each of them is put, fewer wait than the capacity, which is what `Cq::put` asks.
pub fn completions_of_an_event_fit()
    ensures together { (c : Configuration) (event : Event) (w v : World) (ms : List Mark) (s : Slot)
        (q : CompletionQueue) (put : List Completion) → AreLimited c → IsSoundWorld c w → HasRoom w → CanBeMade event
        → step c w event ≡ Did v ms → v.cq s ≡ Some (after_puts put q)
        → length q.waiting + length put ≤ q.capacity }
    ensures each { (c : Configuration) (event : Event) (w v : World) (ms : List Mark) (s : Slot) (q : CompletionQueue)
        (first : List Completion) (next : Completion) (others : List Completion) → AreLimited c → IsSoundWorld c w
        → HasRoom w → CanBeMade event → step c w event ≡ Did v ms
        → v.cq s ≡ Some (after_puts (first ++ next ∷ others) q)
        → length (after_puts first q).waiting < (after_puts first q).capacity }
{}

/// Where the completion of a receive waits that was taken of a shared receive queue, its place stands once among those that
/// this queue has taken, so that `Srq::retire` frees it and no other.
pub fn waiting_receives_stand_once()
    ensures { (c : Configuration) (w : World) (s : Slot) (v : CompletionQueue) (srq : ℕ) (z : SharedReceives)
        → IsSoundWorld c w → HasRoom w → w.cq s ≡ Some v → (w.srq (record s { slot = srq })).srq ≡ Some z
        → AllByRecursion (λ x. x.receive ≡ true → source_in v.reservations x.queue ≡ Some srq
        → stands_once x.place z.taken ≡ true) v.waiting }
{}

/// Where completions of receives wait that were taken of one shared receive queue, no two stand for one place of it, so
/// that `Srq::retire` frees the places one after another.
pub fn waiting_receives_stand_apart()
    ensures { (c : Configuration) (w : World) (s : Slot) (v : CompletionQueue) (srq : ℕ) → IsSoundWorld c w → HasRoom w
        → w.cq s ≡ Some v → IsDistinct (λ a b. a == b) (map (λ x. x.place)
        (filter (λ x. option_eq (λ a b. a == b) (Some srq) (source_of_completion v x)) v.waiting)) }
{}

/// A queue pair that reserved in a completion queue for a shared receive queue has no receives of its own. So what
/// completes there of its receives frees places of the shared receive queue alone.
pub fn sharing_queues_have_no_receives()
    ensures { (c : Configuration) (w : World) (s : Slot) (v : CompletionQueue) (queue : QueueId) (q : QueuePair)
        → IsSoundWorld c w → HasRoom w → w.cq s ≡ Some v → w.queue queue ≡ Present q
        → is_some (source_in v.reservations queue) ≡ true → q.receives ≡ None }
{}

/// Where a slot has no queue pair, neither of its sides has a reservation in any completion queue. So the sides of a new
/// queue pair are new, and what it reserves may be given back (`ca_cq`, `release_undoes_reserve`).
pub fn vacant_slots_reserve_nothing()
    ensures { (w : World) (s : Slot) (q : CompletionQueue) (who : Reserve) (incarnation timers : ℕ) → HasRoom w
        → w.queue (user_of who) ≡ NoQueue incarnation timers → w.cq s ≡ Some q → is_new_side who q ≡ true }
{}

/// Where a queue pair is there, so are its completion queues, each with the reservation of its side; and so is the shared
/// receive queue that it uses.
pub fn queues_in_use_are_there()
    ensures sends { (w : World) (queue : QueueId) (q : QueuePair) → HasRoom w → w.queue queue ≡ Present q
        → HasSide (Sends queue) (rooms_of (w.cq (send_cq_of q))) }
    ensures receives { (w : World) (queue : QueueId) (q : QueuePair) → HasRoom w → w.queue queue ≡ Present q
        → HasSide (Receives queue) (rooms_of (w.cq (recv_cq_of q))) }
    ensures shared { (w : World) (queue : QueueId) (q : QueuePair) (srq : ℕ) → HasRoom w → w.queue queue ≡ Present q
        → q.srq ≡ Some srq → is_some (w.srq (srq_of q srq)).srq ≡ true }
{}
