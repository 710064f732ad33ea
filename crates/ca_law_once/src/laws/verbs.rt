ghost use Rattle.ca_law_endings.specs.Runs.{Comes};
ghost use Rattle.ca_base.specs.Configuration.{Configuration};
ghost use Rattle.ca_base.specs.declared.correspondent.Correspondent.{Correspondent};
ghost use Rattle.ca_connection.specs.Layout.{Direction};
ghost use Rattle.ca_connection.specs.Link.{Link};
ghost use Rattle.ca_keys.specs.Memory.{ByteMap};
ghost use Rattle.ca_model.specs.declared.event.Event.{Event};
ghost use Rattle.ca_model.specs.machine.Sound.{IsSoundWorld};
ghost use Rattle.ca_model.specs.machine.Step.{step};
ghost use Rattle.ca_model.specs.machine.World.{World, opening_world};
ghost use Rattle.ca_law_once.specs.Ties.{IsTied, MailFollows, TiedAfter};
ghost use Rattle.ca_law_once.specs.Agrees.{AgreesWith, acted_by, written_by};
ghost use Rattle.ca_law_once.specs.Beginnings.{AllBeginEmpty};

/// Before the first event all queue pairs begin empty: there are none.
pub fn opening_begins_empty()
    ensures { (bytes : ByteMap) → AllBeginEmpty (opening_world bytes) }
{}

/// Every event of a sound world, where each mailbox accepts the peer that its queue pair named, leaves queue pairs that
/// begin empty: until Rts nothing is posted to them, until Rtr they have no peer and no saved results, and without a
/// peer nothing is under way to them.
pub fn event_keeps_beginnings()
    ensures { (c : Configuration) (w : World) (event : Event) → IsSoundWorld c w → MailFollows w → AllBeginEmpty w
        → Comes (λ v ms. AllBeginEmpty v) (step c w event) }
{}

/// Every event of a sound world that is tied to a link, where what it answers agrees with the direction, leaves a world
/// that is tied to a link to which moves lead; the numbers that atomics found grew by those that the marks tell of, where
/// the packet of such a request was delivered; and so did the accepted packets of WRITEs.
pub fn event_keeps_ties()
    ensures { (d : Direction) (s r : Correspondent) (c : Configuration) (w : World) (l : Link) (event : Event)
        → IsSoundWorld c w → MailFollows w → AllBeginEmpty w → IsTied d s r w l
        → Comes (λ v ms. AgreesWith d s r w ms → TiedAfter d s r w l (acted_by r w l event ms) (written_by r w l event ms) v) (step c w event) }
{}
