ghost use Rattle.std.specs.Prelude.{◌≡◌, ℕ, suc, ◌-◌, ◌^◌, ◌≤◌, ◌<◌, List, Some, IfSome, IsTrue};
ghost use Rattle.std.specs.List.{AllByRecursion};
ghost use Rattle.ca_base.specs.Configuration.{Configuration};
ghost use Rattle.ca_base.specs.objects.Mailbox.{bytes_lent};
ghost use Rattle.ca_base.specs.objects.QueuePair.{QueuePair, Present, incarnation_of};
ghost use Rattle.ca_base.specs.objects.WorkQueue.{next_place};
ghost use Rattle.ca_keys.specs.Memory.{ByteMap};
ghost use Rattle.ca_keys.specs.declared.names.DomainId.{DomainId};
ghost use Rattle.ca_keys.specs.declared.names.QueueId.{QueueId};
ghost use Rattle.ca_keys.specs.declared.names.Slot.{Slot};
ghost use Rattle.ca_mailbox.specs.Counting.{is_countable};
ghost use Rattle.ca_law_parts.specs.Raised.{AreWorldsWithin, CanFree, IsWorldWithin, psn_bound};
ghost use Rattle.ca_model.specs.declared.event.Event.{Event};
ghost use Rattle.ca_model.specs.machine.CanStep.{AreNarrow, CanStep};
ghost use Rattle.ca_model.specs.machine.Frame.{Afterwards};
ghost use Rattle.ca_model.specs.machine.Sound.{AreLimited, CanBeMade, IsSoundWorld};
ghost use Rattle.ca_model.specs.machine.Step.{step};
ghost use Rattle.ca_model.specs.machine.World.{World, opening_world};

/// In the world before the first event, the numbers that only events raise are within 0 events.
pub fn opening_world_has_no_numbers()
    ensures { (byte : ByteMap) → IsWorldWithin 0 (opening_world byte) }
{}

/// Every event leaves a sound world, whose numbers are within so many events, within one event more: counts,
/// incarnations, posting places and indices rise by one at most, and whole PSNs by 4096.
pub fn event_raises_numbers_little()
    ensures { (c : Configuration) (event : Event) (n : ℕ) (w : World) → IsSoundWorld c w → IsWorldWithin n w
        → Afterwards (IsWorldWithin (suc n)) (step c w event) }
{}

/// Each world to which events that can be made lead from an opening is sound, and its numbers are within as many
/// events.
pub fn worlds_after_events_are_within()
    ensures { (c : Configuration) (byte : ByteMap) (events : List Event) → AreLimited c
        → AllByRecursion CanBeMade events → AreWorldsWithin c 0 (opening_world byte) events }
{}

/// After so many events, a queue pair's oldest unfinished request, the next one to begin and the next receive to be
/// taken stand at this place at most, and its oldest PSN is within the bound of PSNs.
pub fn places_in_use_are_within()
    ensures oldest { (c : Configuration) (n : ℕ) (w : World) (name : QueueId) (q : QueuePair) → IsSoundWorld c w
        → IsWorldWithin n w → w.queue name ≡ Present q → q.requester.oldest ≤ n }
    ensures next { (c : Configuration) (n : ℕ) (w : World) (name : QueueId) (q : QueuePair) → IsSoundWorld c w
        → IsWorldWithin n w → w.queue name ≡ Present q → q.requester.next ≤ n }
    ensures taken { (c : Configuration) (n : ℕ) (w : World) (name : QueueId) (q : QueuePair) → IsSoundWorld c w
        → IsWorldWithin n w → w.queue name ≡ Present q → IfSome q.receives (λ r. r.next_taken ≤ n) }
    ensures oldest_psn { (n : ℕ) (w : World) (name : QueueId) (q : QueuePair) → IsWorldWithin n w
        → w.queue name ≡ Present q → q.requester.oldest_psn ≤ psn_bound n }
{}

/// Before 2^32 - 1 events, an engine may take a step with every queue pair that is there: its numbers are narrow.
pub fn queue_pair_can_step()
    ensures narrow { (n : ℕ) (w : World) (name : QueueId) (q : QueuePair) → n < 2 ^ 32 - 1 → IsWorldWithin n w
        → w.queue name ≡ Present q → AreNarrow q }
    ensures step { (c : Configuration) (n : ℕ) (w : World) (name : QueueId) (q : QueuePair) → n < 2 ^ 32 - 1
        → IsSoundWorld c w → IsWorldWithin n w → w.queue name ≡ Present q → CanStep q }
{}

/// Before 2^32 - 1 events, no incarnation is the last of its type, so that the next one can begin.
pub fn incarnation_can_rise()
    ensures slot { (n : ℕ) (w : World) (name : QueueId) → n < 2 ^ 32 - 1 → IsWorldWithin n w
        → incarnation_of (w.queue name) < 2 ^ 32 - 1 }
    ensures queue_pair { (n : ℕ) (w : World) (name : QueueId) (q : QueuePair) → n < 2 ^ 32 - 1 → IsWorldWithin n w
        → w.queue name ≡ Present q → q.incarnation < 2 ^ 32 - 1 }
{}

/// Before 2^32 - 1 events, a region counts fewer bound windows than its type holds, and so does a queue pair.
pub fn bound_windows_can_rise()
    ensures region { (n : ℕ) (w : World) (s : Slot) → n < 2 ^ 32 - 1 → IsWorldWithin n w
        → (w.region s).bound < u32.MAX }
    ensures queue_pair { (n : ℕ) (w : World) (name : QueueId) (q : QueuePair) → n < 2 ^ 32 - 1 → IsWorldWithin n w
        → w.queue name ≡ Present q → q.windows < u32.MAX }
{}

/// Before 2^32 - 1 events, one more request can be posted by the posting places of a queue pair and of a shared receive
/// queue.
pub fn posting_places_can_rise()
    ensures sends { (n : ℕ) (w : World) (name : QueueId) (q : QueuePair) → n < 2 ^ 32 - 1 → IsWorldWithin n w
        → w.queue name ≡ Present q → suc (next_place q.sends) < 2 ^ 64 }
    ensures receives { (n : ℕ) (w : World) (name : QueueId) (q : QueuePair) → n < 2 ^ 32 - 1 → IsWorldWithin n w
        → w.queue name ≡ Present q → IfSome q.receives (λ r. suc (next_place r) < 2 ^ 64) }
    ensures shared { (n : ℕ) (w : World) (s : Slot) → n < 2 ^ 32 - 1 → IsWorldWithin n w
        → IfSome (w.srq s).srq (λ r. suc r.next < 2 ^ 64) }
{}

/// Before 2^32 - 1 events, the place of every completion that waits can be freed, but for a receive of a shared receive
/// queue, whose place is freed there.
pub fn completed_places_can_be_freed()
    ensures { (c : Configuration) (n : ℕ) (w : World) (s : Slot) → n < 2 ^ 32 - 1 → IsSoundWorld c w → IsWorldWithin n w
        → IfSome (w.cq s) (λ v. AllByRecursion (λ x. CanFree (w.queue x.queue) x) v.waiting) }
{}

/// Before 2^32 - 1 events, a domain counts fewer objects than its type holds, and a shared receive queue fewer queue
/// pairs.
pub fn users_can_rise()
    ensures objects { (n : ℕ) (w : World) (d : DomainId) → n < 2 ^ 32 - 1 → IsWorldWithin n w
        → (w.domain d).objects < u32.MAX }
    ensures users { (n : ℕ) (w : World) (s : Slot) → n < 2 ^ 32 - 1 → IsWorldWithin n w → (w.srq s).users < u32.MAX }
{}

/// Before 2^32 - 1 events, a mailbox has an index for one more envelope, and a delivery of each that it lends can be
/// counted.
pub fn mailbox_can_count()
    ensures next { (n : ℕ) (w : World) (name : QueueId) → n < 2 ^ 32 - 1 → IsWorldWithin n w
        → suc (w.mailbox name).next < 2 ^ 64 }
    ensures deliveries { (n : ℕ) (w : World) (name : QueueId) (index : ℕ) (bytes : List ℕ) → n < 2 ^ 32 - 1
        → IsWorldWithin n w → bytes_lent index (w.mailbox name) ≡ Some bytes
        → IsTrue (is_countable index (w.mailbox name)) }
{}
