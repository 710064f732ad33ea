ghost use Rattle.std.specs.Prelude.{◌≡◌, ℕ, List, Ok, true};
ghost use Rattle.ca_base.specs.objects.QueuePair.{Present, QueuePair};
ghost use Rattle.ca_keys.specs.declared.names.QueueId.{QueueId};
ghost use Rattle.ca_law_parts.specs.Placed.{IsPlacedWorld};
ghost use Rattle.ca_model.specs.machine.Sound.{AreLimited, IsSoundWorld};
ghost use Rattle.ca_model.specs.machine.World.{World};
ghost use Rattle.ca_script_order.specs.OfScript.{is_quiet, status_of};
ghost use Rattle.ca_script_order.specs.Order.{ending};
ghost use Rattle.ca_law_world.specs.Steady.{IsSteadyWorld};
ghost use Rattle.ca_law_scripts.specs.Rest.{AcceptsPeers, AreCallable, IsAtRest, IsQuietStatus};
ghost use Rattle.ca_script.specs.Script.{ScriptValue, script_of};

/// Where a world is sound, what it names is configured, its queue pairs are steady, and each mailbox accepts the
/// peer that its queue pair named: if it is quiet, each queue pair is at rest. No request of it is unfinished; or
/// it is drained; or it waits, without a limit, for a receive that its connected peer does not have.
pub fn quiet_queue_pairs_are_at_rest()
    ensures { (s : ScriptValue) (w : World) → IsSoundWorld s.config w → IsPlacedWorld s.config w → IsSteadyWorld w
        → AcceptsPeers w → is_quiet s w ≡ true
        → (name : QueueId) (q : QueuePair) → w.queue name ≡ Present q → IsAtRest w q }
{}

/// A text that means a script gives a configuration within the limits, and lines whose verbs can be made.
pub fn texts_mean_limited_scripts()
    ensures limits { (text : List ℕ) (s : ScriptValue) → script_of text ≡ Ok s → AreLimited s.config }
    ensures verbs { (text : List ℕ) (s : ScriptValue) → script_of text ≡ Ok s → AreCallable s.consumers }
{}

/// Where a script's order ends and its status is Fine or Stalled, each queue pair is at rest. Of a script that a text
/// means nothing more is asked; of another, that its configuration is within the limits, and that the list of each
/// request that it posts has as few pieces as its type allows.
pub fn scripts_come_to_rest()
    ensures texts { (text : List ℕ) (s : ScriptValue) → script_of text ≡ Ok s → IsQuietStatus (status_of s (ending s))
        → (name : QueueId) (q : QueuePair) → (ending s).world.queue name ≡ Present q → IsAtRest (ending s).world q }
    ensures scripts { (s : ScriptValue) → AreLimited s.config → AreCallable s.consumers
        → IsQuietStatus (status_of s (ending s))
        → (name : QueueId) (q : QueuePair) → (ending s).world.queue name ≡ Present q → IsAtRest (ending s).world q }
{}
