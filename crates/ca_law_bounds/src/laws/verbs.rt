ghost use Rattle.std.specs.Prelude.{◌≡◌, ◌+◌, ◌*◌, ◌<◌, ◌≤◌, List, ℕ, true};
ghost use Rattle.ca_law_endings.specs.Runs.{Comes};
ghost use Rattle.ca_base.specs.Configuration.{Configuration};
ghost use Rattle.ca_base.specs.declared.lot.Lot.{Lot};
ghost use Rattle.ca_base.specs.objects.QueuePair.{Present, QueuePair};
ghost use Rattle.ca_keys.specs.declared.names.QueueId.{QueueId};
ghost use Rattle.ca_model.specs.declared.event.Event.TheVariants as events;
ghost use Rattle.ca_model.specs.declared.verb.Verb.{Verb};
ghost use Rattle.ca_model.specs.machine.Numbering.{Numbered};
ghost use Rattle.ca_model.specs.machine.Requester.{Performs, turn_of};
ghost use Rattle.ca_model.specs.machine.Sound.{IsSoundWorld};
ghost use Rattle.ca_model.specs.machine.Step.{step};
ghost use Rattle.ca_model.specs.machine.World.{World};
ghost use Rattle.ca_law_once.specs.Beginnings.{AllBeginEmpty};
ghost use Rattle.ca_law_bounds.specs.WorldWeights.{AreApart, is_among_names, world_weight};
ghost use Rattle.ca_law_bounds.specs.PostWeights.{InjectsNothing, packets_posted};

/// A turn of a requester that performs a local operation, which succeeds or fails, lowers the weight of a sound world,
/// over names that stand once and of which the queue pair's is one.
pub fn operation_lowers_weight()
    ensures { (c : Configuration) (w : World) (names : List QueueId) (name : QueueId) (lot : Lot) (q : QueuePair)
        (n : Numbered) → IsSoundWorld c w → AreApart names → is_among_names name names ≡ true
        → w.queue name ≡ Present q → turn_of q ≡ Performs n
        → Comes (λ v ms. world_weight names v < world_weight names w) (step c w (events.Request name lot)) }
{}

/// A verb that injects nothing raises the weight of a sound world whose queue pairs begin empty by four for each packet
/// of the request that it posts at most, counted at the smallest path MTU; one that posts none does not raise it.
pub fn verb_raises_weight_by_posts()
    ensures { (c : Configuration) (w : World) (names : List QueueId) (by : ℕ) (verb : Verb) → IsSoundWorld c w
        → AllBeginEmpty w → AreApart names → InjectsNothing verb
        → Comes (λ v ms. world_weight names v ≤ world_weight names w + 4 * packets_posted verb)
        (step c w (events.Verb by verb)) }
{}
