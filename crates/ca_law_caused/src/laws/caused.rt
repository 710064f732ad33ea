ghost use Rattle.std.specs.List.{AllByRecursion};
ghost use Rattle.std.specs.Prelude.{List};
ghost use Rattle.ca_law_endings.specs.Agreement.{HoldsAlong, PathsAgree};
ghost use Rattle.ca_law_endings.specs.Runs.{Comes};
ghost use Rattle.ca_law_keys.specs.Posts.{PostsAgree};
ghost use Rattle.ca_base.specs.Configuration.{Configuration};
ghost use Rattle.ca_law_caused.specs.Causes.{DoCompleteWithCauses};
ghost use Rattle.ca_law_caused.specs.Explained.{CausesAgree};
ghost use Rattle.ca_law_caused.specs.Rest.{DoHaveTheRest};
ghost use Rattle.ca_keys.specs.Memory.{ByteMap};
ghost use Rattle.ca_law_world.specs.Steady.{IsSteadyWorld};
ghost use Rattle.ca_model.specs.Caused.{Caused};
ghost use Rattle.ca_model.specs.Entries.{EntryValue};
ghost use Rattle.ca_model.specs.Past.{Past, after_marks, at_begin, at_end, opening_past};
ghost use Rattle.ca_model.specs.declared.event.Event.{Event};
ghost use Rattle.ca_model.specs.machine.Run.{Follows};
ghost use Rattle.ca_model.specs.machine.Sound.{AreLimited, CanBeMade, IsSoundWorld};
ghost use Rattle.ca_model.specs.machine.Step.{step};
ghost use Rattle.ca_model.specs.machine.World.{World, opening_world};

/// Before the first event, past and world agree on why queue pairs are as they are.
pub fn opening_agrees_on_causes()
    ensures { (bytes : ByteMap) → CausesAgree (opening_past bytes) (opening_world bytes) }
{}

/// Every event in a sound world of steady queue pairs, with a past that agrees on posted requests and on paths, keeps the
/// agreement on causes: the past that its marks leave tells why each queue pair that it leaves is as it is.
pub fn event_keeps_causes_agreed()
    ensures { (c : Configuration) (past : Past) (w : World) (event : Event) → IsSoundWorld c w
        → IsSteadyWorld w → PostsAgree past w → PathsAgree past w → CausesAgree past w
        → Comes (λ v ms. CausesAgree (at_end (after_marks ms (at_begin event past))) v) (step c w event) }
{}

/// Past and world agree on causes at the beginning of a history that follows the machine, and after each of its entries:
/// something befell each queue pair in Error, and the past knows how far the sends of each that sends are answered.
pub fn histories_agree_on_causes()
    ensures { (c : Configuration) (bytes : ByteMap) (es : List EntryValue)
        → AreLimited c → AllByRecursion (λ e. CanBeMade e.event) es → Follows c bytes es
        → HoldsAlong CausesAgree c (opening_past bytes) (opening_world bytes) es }
{}

/// In a history that follows the machine each completion that is no success has the cause of its status, as Caused has
/// it, but for what is told of clean connections and of the lists of receives.
pub fn completions_have_their_causes()
    ensures { (c : Configuration) (bytes : ByteMap) (es : List EntryValue) → AreLimited c
        → AllByRecursion (λ e. CanBeMade e.event) es → Follows c bytes es
        → DoCompleteWithCauses bytes es }
{}

/// A history is Caused where each completion has the cause that is told without the link, and the rest: of a receive its
/// list, and on a clean connection what befell the peer. It is so of any history, whatever its marks are.
pub fn causes_and_rest_are_caused()
    ensures { (bytes : ByteMap) (es : List EntryValue) → DoCompleteWithCauses bytes es → DoHaveTheRest bytes es
        → Caused bytes es }
{}
