ghost use Rattle.std.specs.Prelude.{◌≡◌, ◌<◌, ◌≤◌, List, ℕ, true};
ghost use Rattle.ca_law_endings.specs.Runs.{Comes};
ghost use Rattle.ca_base.specs.Configuration.{Configuration};
ghost use Rattle.ca_base.specs.declared.lot.Lot.{Lot};
ghost use Rattle.ca_base.specs.objects.QueuePair.{Present, QueuePair};
ghost use Rattle.ca_connection.specs.Layout.{Direction};
ghost use Rattle.ca_keys.specs.declared.names.QueueId.{QueueId};
ghost use Rattle.ca_model.specs.declared.event.Event.TheVariants as events;
ghost use Rattle.ca_model.specs.machine.Invariants.{is_sending};
ghost use Rattle.ca_model.specs.machine.Numbering.{Numbered};
ghost use Rattle.ca_model.specs.machine.Requester.{Sends, turn_of};
ghost use Rattle.ca_model.specs.machine.Sound.{IsSoundWorld};
ghost use Rattle.ca_model.specs.machine.Step.{step};
ghost use Rattle.ca_model.specs.machine.World.{World};
ghost use Rattle.ca_law_once.specs.Sides.{IsLaid};
ghost use Rattle.ca_law_bounds.specs.WorldWeights.{AreApart, IsFreshAt, SharesWidth};
ghost use Rattle.ca_law_bounds.specs.WorldWeights.{cursor_of, is_among_names, world_weight};

/// A delivery of an envelope that wants one and had none lowers the weight of a sound world, over names that stand once
/// and of which the queue pair's is one, unless it lowers the cursor of the queue pair.
pub fn delivery_lowers_weight()
    ensures { (c : Configuration) (w : World) (names : List QueueId) (name : QueueId) (index : ℕ) → IsSoundWorld c w
        → AreApart names → is_among_names name names ≡ true → IsFreshAt index (w.mailbox name)
        → Comes (λ v ms. cursor_of (w.queue name) ≤ cursor_of (v.queue name)
        → world_weight names v < world_weight names w)
        (step c w (events.Deliver name index)) }
{}

/// A turn of a responder lowers it: the response under way weighs less than what waited.
pub fn respond_lowers_weight()
    ensures { (c : Configuration) (w : World) (names : List QueueId) (name : QueueId) (lot : Lot) → IsSoundWorld c w
        → AreApart names → is_among_names name names ≡ true
        → Comes (λ v ms. world_weight names v < world_weight names w) (step c w (events.Respond name lot)) }
{}

/// A turn of a requester that sends a packet lowers it, where its requests lie as those of a direction do, and its peer
/// has the same path MTU, as in every clean connection.
pub fn request_lowers_weight()
    ensures { (d : Direction) (c : Configuration) (w : World) (names : List QueueId) (name : QueueId) (lot : Lot)
        (q : QueuePair) (n : Numbered) → IsSoundWorld c w → AreApart names → is_among_names name names ≡ true
        → w.queue name ≡ Present q → turn_of q ≡ Sends n → (is_sending q.state ≡ true → IsLaid d q) → SharesWidth w q
        → Comes (λ v ms. world_weight names v < world_weight names w) (step c w (events.Request name lot)) }
{}
