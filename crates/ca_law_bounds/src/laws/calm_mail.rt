ghost use Rattle.std.specs.List.{AllByRecursion};
ghost use Rattle.std.specs.Prelude.{List};
ghost use Rattle.ca_law_endings.specs.Agreement.{HoldsAlong};
ghost use Rattle.ca_law_endings.specs.Runs.{Comes};
ghost use Rattle.ca_base.specs.Configuration.{Configuration};
ghost use Rattle.ca_law_bounds.specs.CalmMail.{IsCalmWorld, IsWithoutInjection, IsNoWake, SendsNoRnrNak, SendsPacket};
ghost use Rattle.ca_keys.specs.Memory.{ByteMap};
ghost use Rattle.ca_keys.specs.declared.names.QueueId.{QueueId};
ghost use Rattle.ca_model.specs.Entries.{EntryValue};
ghost use Rattle.ca_model.specs.Past.{opening_past};
ghost use Rattle.ca_model.specs.declared.event.Event.{Event};
ghost use Rattle.ca_model.specs.declared.event.Event.TheVariants.{RnrWake};
ghost use Rattle.ca_model.specs.machine.Run.{Follows};
ghost use Rattle.ca_model.specs.machine.Sound.{AreLimited, CanBeMade, IsSoundWorld};
ghost use Rattle.ca_model.specs.machine.Step.{step};
ghost use Rattle.ca_model.specs.machine.World.{opening_world, World};
ghost use Rattle.ca_law_lossless.specs.RowMail.{AreWholeDrops};

/// Before the first event no envelope is under way, and no requester waits.
pub fn opening_mail_is_calm()
    ensures { (bytes : ByteMap) → IsCalmWorld (opening_world bytes) }
{}

/// Every event in a sound world in which each envelope is addressed to the queue pair of its mailbox, and no requester
/// waits for a wake, leaves such a world, if it injects nothing, and what it sends are packets and no RNR NAKs. And no
/// packet is dropped for what it is itself: it is one, in the default partition, and for its queue pair.
pub fn calm_world_stays_calm()
    ensures { (c : Configuration) (w : World) (event : Event) → IsSoundWorld c w → IsCalmWorld w
        → IsWithoutInjection event → Comes (λ v ms. AllByRecursion SendsPacket ms → AllByRecursion SendsNoRnrNak ms
        → IsCalmWorld v × AreWholeDrops ms) (step c w event) }
{}

/// In such a world no wake is possible.
pub fn nobody_is_woken()
    ensures { (c : Configuration) (w : World) (name : QueueId) → IsCalmWorld w
        → Comes (λ v ms. ⊥) (step c w (RnrWake name)) }
{}

/// A history that follows the machine, in which nothing is injected and no RNR NAK is sent, goes through such worlds
/// alone. So nobody is woken in it, and no packet is dropped for what it is itself.
pub fn histories_stay_calm()
    ensures worlds { (c : Configuration) (bytes : ByteMap) (es : List EntryValue) → AreLimited c
        → AllByRecursion (λ e. CanBeMade e.event) es → Follows c bytes es
        → AllByRecursion (λ e. IsWithoutInjection e.event × AllByRecursion SendsNoRnrNak e.marks) es
        → HoldsAlong (λ past w. IsCalmWorld w) c (opening_past bytes) (opening_world bytes) es }
    ensures entries { (c : Configuration) (bytes : ByteMap) (es : List EntryValue) → AreLimited c
        → AllByRecursion (λ e. CanBeMade e.event) es → Follows c bytes es
        → AllByRecursion (λ e. IsWithoutInjection e.event × AllByRecursion SendsNoRnrNak e.marks) es
        → AllByRecursion (λ e. IsNoWake e.event × AreWholeDrops e.marks) es }
{}
