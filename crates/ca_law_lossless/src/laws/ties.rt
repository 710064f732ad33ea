ghost use Rattle.std.specs.Prelude.{◌≤◌};
ghost use Rattle.ca_law_endings.specs.Runs.{Comes};
ghost use Rattle.ca_base.specs.Configuration.{Configuration};
ghost use Rattle.ca_base.specs.declared.correspondent.Correspondent.{Correspondent};
ghost use Rattle.ca_base.specs.declared.limits.TheConstants.{MIN_PATH_MTU};
ghost use Rattle.ca_connection.specs.Layout.{Direction};
ghost use Rattle.ca_connection.specs.Link.{Link};
ghost use Rattle.ca_connection.specs.Calm.{CalmLink, calm_opening};
ghost use Rattle.ca_keys.specs.Memory.{ByteMap};
ghost use Rattle.ca_model.specs.declared.event.Event.{Event};
ghost use Rattle.ca_model.specs.machine.Sound.{IsSoundWorld};
ghost use Rattle.ca_model.specs.machine.Step.{step};
ghost use Rattle.ca_model.specs.machine.World.{World, opening_world};
ghost use Rattle.ca_law_once.specs.Ties.{IsTied, MailFollows};
ghost use Rattle.ca_law_lossless.specs.CalmEvents.{AreCalm, IsCalmEvent};
ghost use Rattle.ca_law_lossless.specs.CalmTies.{CalmAfter, IsCalmlyTied};
ghost use Rattle.ca_law_once.specs.Agrees.{AgreesWith};
ghost use Rattle.ca_law_once.specs.Beginnings.{AllBeginEmpty};

/// Before the first event a world is tied to the calm link before the first packet, for any two lives.
pub fn opening_is_calmly_tied()
    ensures { (d : Direction) (s r : Correspondent) (bytes : ByteMap) → MIN_PATH_MTU ≤ d.mtu
        → IsCalmlyTied d s r (opening_world bytes) (calm_opening d) }
{}

/// Every event of calm weather in a sound world that is tied to a calm link, where what it answers agrees with the
/// direction, leaves a world that is tied to a calm link; and the cursor of the life that sends is not lowered. The
/// world is tied to a link anyhow, which says how the posted requests lie.
pub fn calm_event_keeps_ties()
    ensures { (d : Direction) (s r : Correspondent) (c : Configuration) (w : World) (l : Link) (k : CalmLink)
        (event : Event) → IsSoundWorld c w → MailFollows w → AllBeginEmpty w → IsTied d s r w l
        → IsCalmlyTied d s r w k → IsCalmEvent w event
        → Comes (λ v ms. AreCalm ms → AgreesWith d s r w ms → CalmAfter d s r w v) (step c w event) }
{}
