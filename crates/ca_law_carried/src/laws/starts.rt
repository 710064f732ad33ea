ghost use Rattle.std.specs.List.{AllByRecursion};
ghost use Rattle.std.specs.Prelude.{List};
ghost use Rattle.ca_law_endings.specs.Agreement.{HoldsAlong};
ghost use Rattle.ca_law_endings.specs.Runs.{Comes};
ghost use Rattle.ca_law_keys.specs.Posts.{PostsAgree};
ghost use Rattle.ca_law_carried.specs.Starts.{StartsAgree};
ghost use Rattle.ca_base.specs.Configuration.{Configuration};
ghost use Rattle.ca_keys.specs.Memory.{ByteMap};
ghost use Rattle.ca_law_world.specs.Steady.{IsSteadyWorld};
ghost use Rattle.ca_model.specs.Entries.{EntryValue};
ghost use Rattle.ca_model.specs.Past.{Past, after_marks, at_begin, opening_past};
ghost use Rattle.ca_model.specs.declared.event.Event.{Event};
ghost use Rattle.ca_model.specs.machine.Run.{Follows};
ghost use Rattle.ca_model.specs.machine.Sound.{AreLimited, CanBeMade, IsSoundWorld};
ghost use Rattle.ca_model.specs.machine.Step.{step};
ghost use Rattle.ca_model.specs.machine.World.{World, opening_world};

/// Before the first event, past and world agree on PSNs.
pub fn opening_agrees_on_starts()
    ensures { (bytes : ByteMap) → StartsAgree (opening_past bytes) (opening_world bytes) }
{}

/// Every event in a sound world of steady queue pairs, with whose past it agrees on posted requests, keeps the agreement
/// on PSNs: its marks leave a past that agrees with the world that the event leaves.
pub fn event_keeps_starts_agreed()
    ensures { (c : Configuration) (past : Past) (w : World) (event : Event) → IsSoundWorld c w
        → IsSteadyWorld w → PostsAgree past w → StartsAgree past w
        → Comes (λ v ms. StartsAgree (after_marks ms (at_begin event past)) v) (step c w event) }
{}

/// Past and world agree on PSNs at the beginning of a history that follows the machine, and after each of its entries: a
/// queue pair that sends has begun to, and its oldest unfinished request has the PSN behind those of all that were posted
/// before it.
pub fn histories_agree_on_starts()
    ensures { (c : Configuration) (bytes : ByteMap) (es : List EntryValue)
        → AreLimited c → AllByRecursion (λ e. CanBeMade e.event) es → Follows c bytes es
        → HoldsAlong StartsAgree c (opening_past bytes) (opening_world bytes) es }
{}
