ghost use Rattle.std.specs.List.{AllByRecursion};
ghost use Rattle.std.specs.Prelude.{◌≡◌, List};
ghost use Rattle.ca_law_endings.specs.Agreement.{HoldsAlong};
ghost use Rattle.ca_law_endings.specs.Runs.{Comes};
ghost use Rattle.ca_law_keys.specs.InForce.{KeysAgree};
ghost use Rattle.ca_base.specs.Configuration.{Configuration};
ghost use Rattle.ca_base.specs.Sight.{bytes_in, denial_in};
ghost use Rattle.ca_keys.specs.Allowed.{denial_of, grant_for};
ghost use Rattle.ca_keys.specs.Memory.{ByteMap, bytes_at, runs_for};
ghost use Rattle.ca_keys.specs.declared.access.Ask.{Ask};
ghost use Rattle.ca_law_parts.specs.Placed.{IsPlacedWorld};
ghost use Rattle.ca_law_world.specs.Bindings.{IsBoundWorld};
ghost use Rattle.ca_model.specs.Entries.{EntryValue};
ghost use Rattle.ca_model.specs.Past.{Past, after_marks, at_begin, opening_past};
ghost use Rattle.ca_model.specs.declared.event.Event.{Event};
ghost use Rattle.ca_model.specs.machine.Run.{Follows};
ghost use Rattle.ca_model.specs.machine.Seen.{grant_in, sight_in};
ghost use Rattle.ca_model.specs.machine.Sound.{AreLimited, CanBeMade, IsSoundWorld};
ghost use Rattle.ca_model.specs.machine.Step.{step};
ghost use Rattle.ca_model.specs.machine.World.{World, opening_world};

/// Before the first event, past and world agree on memory and keys.
pub fn opening_agrees_on_keys()
    ensures { (bytes : ByteMap) → KeysAgree (opening_past bytes) (opening_world bytes) }
{}

/// Every event in a world that comes up keeps the agreement on memory and keys: its marks leave a past that agrees with
/// the world that the event leaves.
pub fn event_keeps_keys_agreed()
    ensures { (c : Configuration) (past : Past) (w : World) (event : Event) → AreLimited c → IsSoundWorld c w
        → IsPlacedWorld c w → IsBoundWorld w → KeysAgree past w
        → Comes (λ v ms. KeysAgree (after_marks ms (at_begin event past)) v) (step c w event) }
{}

/// Past and world agree on memory and keys at the beginning of a history that follows the machine, and after each of its
/// entries.
pub fn histories_agree_on_keys()
    ensures { (c : Configuration) (bytes : ByteMap) (es : List EntryValue)
        → AreLimited c → AllByRecursion (λ e. CanBeMade e.event) es → Follows c bytes es
        → HoldsAlong KeysAgree c (opening_past bytes) (opening_world bytes) es }
{}

/// Where past and world agree on memory and keys, an ask goes in the world by the grant that it goes by among those in
/// force. So it is denied for the same part, or allowed, and the bytes that it touches are those that the marks tell of.
pub fn asks_meet_what_is_in_force()
    ensures grant { (c : Configuration) (past : Past) (w : World) (ask : Ask) → IsSoundWorld c w → IsPlacedWorld c w
        → KeysAgree past w → grant_in c w ask ≡ grant_for ask past.grants }
    ensures denial { (c : Configuration) (past : Past) (w : World) (ask : Ask) → IsSoundWorld c w → IsPlacedWorld c w
        → KeysAgree past w → denial_in (sight_in c w) ask ≡ denial_of ask past.grants }
    ensures bytes { (c : Configuration) (past : Past) (w : World) (ask : Ask) → IsSoundWorld c w → IsPlacedWorld c w
        → KeysAgree past w
        → bytes_in (sight_in c w) ask ≡ bytes_at past.memory (runs_for ask past.grants ask.touch) }
{}
