ghost use Rattle.std.specs.List.{AllByRecursion};
ghost use Rattle.std.specs.Prelude.{List};
ghost use Rattle.ca_law_endings.specs.Agreement.{HoldsAlong};
ghost use Rattle.ca_law_endings.specs.Runs.{Comes};
ghost use Rattle.ca_law_keys.specs.Posts.{PostsAgree};
ghost use Rattle.ca_base.specs.Configuration.{Configuration};
ghost use Rattle.ca_keys.specs.Memory.{ByteMap};
ghost use Rattle.ca_law_world.specs.Steady.{IsSteadyWorld};
ghost use Rattle.ca_model.specs.Entries.{EntryValue};
ghost use Rattle.ca_model.specs.Past.{Past, after_marks, at_begin, at_end, opening_past};
ghost use Rattle.ca_model.specs.declared.event.Event.{Event};
ghost use Rattle.ca_model.specs.machine.Run.{Follows};
ghost use Rattle.ca_model.specs.machine.Sound.{AreLimited, CanBeMade, IsSoundWorld};
ghost use Rattle.ca_model.specs.machine.Step.{step};
ghost use Rattle.ca_model.specs.machine.World.{World, opening_world};

/// Before the first event, past and world agree on posted requests.
pub fn opening_agrees_on_posts()
    ensures { (bytes : ByteMap) → PostsAgree (opening_past bytes) (opening_world bytes) }
{}

/// Every event in a sound world of steady queue pairs keeps the agreement on posted requests: its marks leave a past
/// that agrees with the world that the event leaves.
pub fn event_keeps_posts_agreed()
    ensures { (c : Configuration) (past : Past) (w : World) (event : Event) → AreLimited c → IsSoundWorld c w
        → IsSteadyWorld w → PostsAgree past w
        → Comes (λ v ms. PostsAgree (at_end (after_marks ms (at_begin event past))) v) (step c w event) }
{}

/// Past and world agree on posted requests at the beginning of a history that follows the machine, and after each of
/// its entries.
pub fn histories_agree_on_posts()
    ensures { (c : Configuration) (bytes : ByteMap) (es : List EntryValue)
        → AreLimited c → AllByRecursion (λ e. CanBeMade e.event) es → Follows c bytes es
        → HoldsAlong PostsAgree c (opening_past bytes) (opening_world bytes) es }
{}
