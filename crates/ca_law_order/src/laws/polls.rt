ghost use Rattle.std.specs.List.{AllByRecursion};
ghost use Rattle.std.specs.Prelude.{List};
ghost use Rattle.ca_law_endings.specs.Agreement.{HoldsAlong};
ghost use Rattle.ca_law_endings.specs.Runs.{Comes};
ghost use Rattle.ca_law_order.specs.Polls.{ArePollsInOrder, PollsAgree};
ghost use Rattle.ca_base.specs.Configuration.{Configuration};
ghost use Rattle.ca_keys.specs.Memory.{ByteMap};
ghost use Rattle.ca_model.specs.Entries.{EntryValue};
ghost use Rattle.ca_model.specs.Past.{Past, after_marks, at_begin, opening_past};
ghost use Rattle.ca_model.specs.declared.event.Event.{Event};
ghost use Rattle.ca_model.specs.machine.Run.{Follows};
ghost use Rattle.ca_model.specs.machine.Sound.{AreLimited, CanBeMade, IsSoundWorld};
ghost use Rattle.ca_model.specs.machine.Step.{step};
ghost use Rattle.ca_model.specs.machine.World.{World, opening_world};

/// Before the first event, past and world agree on completions that wait.
pub fn opening_agrees_on_polls()
    ensures { (bytes : ByteMap) → PollsAgree (opening_past bytes) (opening_world bytes) }
{}

/// Every event that can be made in a sound world keeps the agreement on completions that wait: its marks leave a past
/// that agrees with the world that the event leaves.
pub fn event_keeps_polls_agreed()
    ensures { (c : Configuration) (past : Past) (w : World) (event : Event) → IsSoundWorld c w → CanBeMade event
        → PollsAgree past w
        → Comes (λ v ms. PollsAgree (after_marks ms (at_begin event past)) v) (step c w event) }
{}

/// Past and world agree on completions that wait at the beginning of a history that follows the machine, and after each
/// of its entries.
pub fn histories_agree_on_polls()
    ensures { (c : Configuration) (bytes : ByteMap) (es : List EntryValue)
        → AreLimited c → AllByRecursion (λ e. CanBeMade e.event) es → Follows c bytes es
        → HoldsAlong PollsAgree c (opening_past bytes) (opening_world bytes) es }
{}

/// In a history that follows the machine each poll gives the front of what waits in its completion queue, so many as it
/// gives. This is the part of Ordered that speaks of polls.
pub fn polls_give_in_order()
    ensures { (c : Configuration) (bytes : ByteMap) (es : List EntryValue) → AreLimited c
        → AllByRecursion (λ e. CanBeMade e.event) es
        → Follows c bytes es → ArePollsInOrder bytes es }
{}
