ghost use Rattle.std.specs.Prelude.{◌≡◌, ℕ, IfSome};
ghost use Rattle.ca_base.specs.Configuration.{Configuration};
ghost use Rattle.ca_base.specs.declared.change.Change.{Change};
ghost use Rattle.ca_base.specs.objects.QueuePair.{Present, QueuePair, queue_in};
ghost use Rattle.ca_keys.specs.declared.names.QueueId.{QueueId};
ghost use Rattle.ca_keys.specs.declared.names.Slot.{Slot};
ghost use Rattle.ca_keys.specs.Numbers.{queue_of};
ghost use Rattle.ca_model.specs.machine.Frame.{AllPass};
ghost use Rattle.ca_model.specs.machine.Plan.{touches};
ghost use Rattle.ca_model.specs.machine.QueuePairVerbs.{destroy_qp_plan, modify_qp_plan};
ghost use Rattle.ca_model.specs.machine.VerbAnswers.{Call};
ghost use Rattle.ca_model.specs.machine.World.{World};
ghost use Rattle.ca_adapter_parts.specs.HeldView.{Holding};
ghost use Rattle.ca_adapter_acts.specs.Steps.{Shows};
ghost use Rattle.ca_adapter_pairs.specs.Changed.{CanChange};
ghost use Rattle.ca_adapter_pairs.specs.Departures.{CanDepart};
ghost use Rattle.ca_adapter_pairs.specs.Names.{names_around};
ghost use Rattle.ca_law_parts.specs.Worlds.{IsWorldAfter};

/// In a world that comes up a queue pair can leave what stands around it. Few of its receives wait in its completion
/// queues; and each place that it holds of a shared receive queue, of completions that wait and of its message in
/// progress, stands there once, so that freeing them frees these and no others.
pub fn queue_pairs_can_depart()
    ensures { (c : Configuration) (events : ℕ) (w : World) (queue : QueueId) (q : QueuePair) → IsWorldAfter c events w
        → w.queue queue ≡ Present q → CanDepart (names_around q) w }
{}

/// In a world that comes up a change of a queue pair's state can be made: what an accepted Error completes fits in its
/// completion queues, and what a Reset leaves can be left.
pub fn queue_pairs_can_change()
    ensures { (c : Configuration) (events : ℕ) (w : World) (queue : QueueId) (q : QueuePair) (change : Change)
        → IsWorldAfter c events w → w.queue queue ≡ Present q → CanChange c change q w }
{}

/// Where a world that comes up shows what is held, and all that DestroyQp touches is held, the queue pair can leave what
/// is held around it.
pub fn held_queue_pairs_can_depart()
    ensures { (c : Configuration) (events : ℕ) (w : World) (h : Holding) (call : Call) (s : Slot)
        → IsWorldAfter c events w → Shows w h → AllPass h.has (touches h.world (destroy_qp_plan call s))
        → IfSome (queue_in (h.world.queue (queue_of s))) (λ q. CanDepart (names_around q) h.world) }
{}

/// Where a world that comes up shows what is held, and all that ModifyQp touches is held, the change can be made of what
/// is held.
pub fn held_queue_pairs_can_change()
    ensures { (c : Configuration) (events : ℕ) (w : World) (h : Holding) (call : Call) (s : Slot) (change : Change)
        → IsWorldAfter c events w → Shows w h → AllPass h.has (touches h.world (modify_qp_plan c call s change))
        → IfSome (queue_in (h.world.queue (queue_of s))) (λ q. CanChange c change q h.world) }
{}
