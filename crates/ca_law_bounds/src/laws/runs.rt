ghost use Rattle.std.specs.List.{AllByRecursion, sum_by};
ghost use Rattle.std.specs.Prelude.{◌≡◌, ◌+◌, ◌*◌, ◌≤◌, List, length};
ghost use Rattle.ca_law_endings.specs.Runs.{Comes};
ghost use Rattle.ca_base.specs.Configuration.{Configuration};
ghost use Rattle.ca_keys.specs.Memory.{ByteMap};
ghost use Rattle.ca_keys.specs.declared.names.QueueId.{QueueId};
ghost use Rattle.ca_model.specs.Entries.{EntryValue};
ghost use Rattle.ca_model.specs.declared.event.Event.{Event};
ghost use Rattle.ca_model.specs.machine.Run.{Follows};
ghost use Rattle.ca_model.specs.machine.Sound.{AreLimited, CanBeMade};
ghost use Rattle.ca_model.specs.machine.Step.{step};
ghost use Rattle.ca_model.specs.machine.World.{World, opening_world};
ghost use Rattle.ca_law_bounds.specs.Forward.{AllGoForward, GoesForward, IsOrderlyWorld, TurnIsAmong};
ghost use Rattle.ca_law_bounds.specs.Forward.{packets_in, turns_in, verbs_in};
ghost use Rattle.ca_law_bounds.specs.WorldWeights.{AreApart, world_weight};

/// Before the first event nothing is to be done.
pub fn opening_weighs_nothing()
    ensures { (bytes : ByteMap) (names : List QueueId) → world_weight names (opening_world bytes) ≡ 0 }
{}

/// An event of an orderly world, over names that stand once and of which that of the turn is one, lowers the weight by
/// the one turn that it is, if it goes forward; a verb raises it by four for each packet of the request that it posts
/// at most.
pub fn event_lowers_weight()
    ensures { (c : Configuration) (w : World) (names : List QueueId) (event : Event) → IsOrderlyWorld c w
        → AreApart names → TurnIsAmong names event
        → Comes (λ v ms. GoesForward w event v
        → world_weight names v + turns_in event ≤ world_weight names w + 4 * packets_in event) (step c w event) }
{}

/// A history that follows the machine and in which everything goes forward has at most four turns for each packet of
/// the requests that were posted, counted at the smallest path MTU.
pub fn turns_are_bounded_by_posts()
    ensures { (c : Configuration) (bytes : ByteMap) (es : List EntryValue) → AreLimited c
        → AllByRecursion (λ e. CanBeMade e.event) es → Follows c bytes es → AllGoForward c (opening_world bytes) es
        → sum_by (λ e. turns_in e.event) es ≤ 4 * sum_by (λ e. packets_in e.event) es }
{}

/// So it has at most as many entries as verbs, and four for each of these packets.
pub fn histories_are_bounded()
    ensures { (c : Configuration) (bytes : ByteMap) (es : List EntryValue) → AreLimited c
        → AllByRecursion (λ e. CanBeMade e.event) es → Follows c bytes es → AllGoForward c (opening_world bytes) es
        → length es ≤ sum_by (λ e. verbs_in e.event) es + 4 * sum_by (λ e. packets_in e.event) es }
{}
