ghost use Rattle.std.specs.List.{AllByRecursion};
ghost use Rattle.std.specs.Prelude.{List};
ghost use Rattle.ca_law_endings.specs.Agreement.{HoldsAlong, PathsAgree};
ghost use Rattle.ca_law_endings.specs.Runs.{Comes};
ghost use Rattle.ca_law_carried.specs.Accesses.{AccessesAgree, IsEndedWorld};
ghost use Rattle.ca_law_carried.specs.Asked.{AreCarriedAccesses, HaveTheirPackets, HaveTheirRequests};
ghost use Rattle.ca_base.specs.Configuration.{Configuration};
ghost use Rattle.ca_keys.specs.Memory.{ByteMap};
ghost use Rattle.ca_law_world.specs.Bindings.{IsBoundWorld};
ghost use Rattle.ca_model.specs.Entries.{EntryValue};
ghost use Rattle.ca_model.specs.Past.{Past, after_marks, at_begin, opening_past};
ghost use Rattle.ca_model.specs.declared.event.Event.{Event};
ghost use Rattle.ca_model.specs.machine.Run.{Follows};
ghost use Rattle.ca_model.specs.machine.Sound.{AreLimited, CanBeMade, IsSoundWorld};
ghost use Rattle.ca_model.specs.machine.Step.{step};
ghost use Rattle.ca_model.specs.machine.World.{World, opening_world};

/// Before the first event, past and world agree on remote accesses in progress, and no region is valid.
pub fn opening_agrees_on_accesses()
    ensures { (bytes : ByteMap) → AccessesAgree (opening_past bytes) (opening_world bytes) × IsEndedWorld (opening_world bytes) }
{}

/// Every event in a world that comes up keeps the agreement on remote accesses in progress: its marks leave a past that
/// agrees with the world that the event leaves; and each region goes on to end where addresses end, or before.
pub fn event_keeps_accesses_agreed()
    ensures { (c : Configuration) (past : Past) (w : World) (event : Event) → AreLimited c → IsSoundWorld c w
        → IsBoundWorld w → IsEndedWorld w → PathsAgree past w → AccessesAgree past w
        → Comes (λ v ms. AccessesAgree (after_marks ms (at_begin event past)) v × IsEndedWorld v) (step c w event) }
{}

/// Past and world agree on remote accesses in progress at the beginning of a history that follows the machine, and
/// after each of its entries.
pub fn histories_agree_on_accesses()
    ensures { (c : Configuration) (bytes : ByteMap) (es : List EntryValue)
        → AreLimited c → AllByRecursion (λ e. CanBeMade e.event) es → Follows c bytes es
        → HoldsAlong AccessesAgree c (opening_past bytes) (opening_world bytes) es }
{}

/// In a history that follows the machine each remote write and each remote atomic stands in an event in which the
/// packet that it names arrived at its queue pair, and that packet asks for it: a WRITE First or Only and an atomic by
/// key, address and length, a WRITE Middle or Last where the latest one ended; and what is written is its payload. This
/// is the part of Carried that speaks of remote writes and atomics.
pub fn writes_have_their_packets()
    ensures { (c : Configuration) (bytes : ByteMap) (es : List EntryValue) → AreLimited c
        → AllByRecursion (λ e. CanBeMade e.event) es → Follows c bytes es
        → HaveTheirPackets bytes es }
{}

/// In a history that follows the machine each remote read stands in a Respond of its queue pair, asks for the rest of a
/// READ request that arrived there in its present incarnation, from a multiple of the path MTU on, where addresses count
/// modulo 2^64, and gives at most one path MTU.
pub fn reads_have_their_requests()
    ensures { (c : Configuration) (bytes : ByteMap) (es : List EntryValue) → AreLimited c
        → AllByRecursion (λ e. CanBeMade e.event) es → Follows c bytes es
        → HaveTheirRequests bytes es }
{}

/// In a history that follows the machine each remote access has its packet or its request. This is the part of Carried
/// that speaks of remote accesses, reads among them.
pub fn accesses_are_carried()
    ensures { (c : Configuration) (bytes : ByteMap) (es : List EntryValue)
        → AreLimited c → AllByRecursion (λ e. CanBeMade e.event) es
        → Follows c bytes es → AreCarriedAccesses bytes es }
{}
