ghost use Rattle.std.specs.List.{AllByRecursion};
ghost use Rattle.std.specs.Prelude.{List};
ghost use Rattle.ca_law_endings.specs.Agreement.{HoldsAlong};
ghost use Rattle.ca_law_endings.specs.Runs.{Comes};
ghost use Rattle.ca_law_keys.specs.Posts.{PostsAgree};
ghost use Rattle.ca_law_order.specs.Completed.{CompletedAgree};
ghost use Rattle.ca_law_order.specs.InOrder.{DoCompleteInOrder};
ghost use Rattle.ca_base.specs.Configuration.{Configuration};
ghost use Rattle.ca_keys.specs.Memory.{ByteMap};
ghost use Rattle.ca_law_world.specs.Steady.{IsSteadyWorld};
ghost use Rattle.ca_model.specs.Entries.{EntryValue};
ghost use Rattle.ca_model.specs.Past.{Past, after_marks, at_begin, at_end, opening_past};
ghost use Rattle.ca_model.specs.declared.event.Event.{Event};
ghost use Rattle.ca_model.specs.machine.Run.{Follows};
ghost use Rattle.ca_model.specs.machine.Sound.{AreLimited, CanBeMade, IsSoundWorld};
ghost use Rattle.ca_model.specs.machine.Step.{step};
ghost use Rattle.ca_model.specs.machine.World.{World, opening_world};

/// Before the first event, past and world agree on the sends that completed.
pub fn opening_agrees_on_completed()
    ensures { (bytes : ByteMap) → CompletedAgree (opening_past bytes) (opening_world bytes) }
{}

/// Every event in a sound world of steady queue pairs, with a past that agrees on posted requests, keeps the agreement
/// on the sends that completed: its marks leave a past that agrees with the world that the event leaves.
pub fn event_keeps_completed_agreed()
    ensures { (c : Configuration) (past : Past) (w : World) (event : Event) → IsSoundWorld c w
        → IsSteadyWorld w → PostsAgree past w → CompletedAgree past w
        → Comes (λ v ms. CompletedAgree (at_end (after_marks ms (at_begin event past))) v) (step c w event) }
{}

/// Past and world agree on the sends that completed at the beginning of a history that follows the machine, and after
/// each of its entries.
pub fn histories_agree_on_completed()
    ensures { (c : Configuration) (bytes : ByteMap) (es : List EntryValue)
        → AreLimited c → AllByRecursion (λ e. CanBeMade e.event) es → Follows c bytes es
        → HoldsAlong CompletedAgree c (opening_past bytes) (opening_world bytes) es }
{}

/// In a history that follows the machine each send that completes does so behind those that its queue pair completed
/// before it, with no signalled one left between, and with the id and the operation of the request that was posted at
/// its place; a success is one of a signalled request. This is the part of Ordered that speaks of sends.
pub fn sends_complete_in_order()
    ensures { (c : Configuration) (bytes : ByteMap) (es : List EntryValue)
        → AreLimited c
        → AllByRecursion (λ e. CanBeMade e.event) es → Follows c bytes es → DoCompleteInOrder bytes es }
{}
