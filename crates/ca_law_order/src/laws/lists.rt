ghost use Rattle.std.specs.List.{AllByRecursion};
ghost use Rattle.std.specs.Prelude.{List};
ghost use Rattle.ca_law_endings.specs.Agreement.{HoldsAlong, PathsAgree};
ghost use Rattle.ca_law_endings.specs.Runs.{Comes};
ghost use Rattle.ca_law_order.specs.Lists.{ListsAgree};
ghost use Rattle.ca_base.specs.Configuration.{Configuration};
ghost use Rattle.ca_keys.specs.Memory.{ByteMap};
ghost use Rattle.ca_law_parts.specs.Room.{HasRoom};
ghost use Rattle.ca_model.specs.Entries.{EntryValue};
ghost use Rattle.ca_model.specs.Past.{Past, after_marks, at_begin, at_end, opening_past};
ghost use Rattle.ca_model.specs.declared.event.Event.{Event};
ghost use Rattle.ca_model.specs.machine.Run.{Follows};
ghost use Rattle.ca_model.specs.machine.Sound.{AreLimited, CanBeMade, IsSoundWorld};
ghost use Rattle.ca_model.specs.machine.Step.{step};
ghost use Rattle.ca_model.specs.machine.World.{World, opening_world};

/// Before the first event, past and world agree on the lists of receives.
pub fn opening_agrees_on_lists()
    ensures { (bytes : ByteMap) → ListsAgree (opening_past bytes) (opening_world bytes) }
{}

/// Every event in a sound world with room, with a past that agrees on paths, keeps the agreement on lists: the past that
/// its marks leave, as the event ends, agrees with the world that the event leaves.
pub fn event_keeps_lists_agreed()
    ensures { (c : Configuration) (past : Past) (w : World) (event : Event) → IsSoundWorld c w → HasRoom w
        → PathsAgree past w → ListsAgree past w
        → Comes (λ v ms. ListsAgree (at_end (after_marks ms (at_begin event past))) v) (step c w event) }
{}

/// Past and world agree on the lists of receives at the beginning of a history that follows the machine, and after each
/// of its entries.
pub fn histories_agree_on_lists()
    ensures { (c : Configuration) (bytes : ByteMap) (es : List EntryValue)
        → AreLimited c → AllByRecursion (λ e. CanBeMade e.event) es → Follows c bytes es
        → HoldsAlong ListsAgree c (opening_past bytes) (opening_world bytes) es }
{}
