ghost use Rattle.std.specs.List.{AllByRecursion};
ghost use Rattle.std.specs.Prelude.{◌≡◌, ℕ, List, Some};
ghost use Rattle.ca_law_endings.specs.Agreement.{HoldsAlong, PathsAgree, WereSent};
ghost use Rattle.ca_law_endings.specs.Arrivals.{DoArriveAsSent};
ghost use Rattle.ca_law_endings.specs.Indices.{HaveTheirIndices};
ghost use Rattle.ca_law_endings.specs.Runs.{AreStamped, Comes};
ghost use Rattle.ca_base.specs.Configuration.{Configuration};
ghost use Rattle.ca_base.specs.objects.Mailbox.{bytes_lent};
ghost use Rattle.ca_keys.specs.Memory.{ByteMap};
ghost use Rattle.ca_keys.specs.declared.names.QueueId.{QueueId};
ghost use Rattle.ca_model.specs.Entries.{EntryValue};
ghost use Rattle.ca_model.specs.History.{FitTheEvent, IsHistory};
ghost use Rattle.ca_model.specs.Past.{Past, after_marks, at_begin, opening_past};
ghost use Rattle.ca_model.specs.declared.event.Event.{Event};
ghost use Rattle.ca_model.specs.machine.Run.{Follows};
ghost use Rattle.ca_model.specs.machine.Sound.{AreLimited, CanBeMade, IsSoundWorld};
ghost use Rattle.ca_model.specs.machine.Step.{step};
ghost use Rattle.ca_model.specs.machine.World.{World, opening_world};

/// The marks of every event, in every world, fit it: a verb's first mark is its answer, with the consumer and the verb of
/// the event, no other mark is one, and each completion is of the queue pair that its mark names.
pub fn event_marks_fit()
    ensures { (c : Configuration) (event : Event) (w : World)
        → Comes (λ v ms. FitTheEvent event ms) (step c w event) }
{}

/// Entries with stamps from 0 on, whose marks are those of the machine, are a history.
pub fn machine_makes_histories()
    ensures { (c : Configuration) (bytes : ByteMap) (es : List EntryValue) → AreStamped 0 es → Follows c bytes es
        → IsHistory es }
{}

/// Before the first event, past and world agree on paths.
pub fn opening_agrees_on_paths()
    ensures { (bytes : ByteMap) → PathsAgree (opening_past bytes) (opening_world bytes) }
{}

/// Every event in a sound world keeps the agreement on paths: its marks leave a past that agrees with the world that the
/// event leaves.
pub fn event_keeps_paths_agreed()
    ensures { (c : Configuration) (past : Past) (w : World) (event : Event) → IsSoundWorld c w → PathsAgree past w
        → Comes (λ v ms. PathsAgree (after_marks ms (at_begin event past)) v) (step c w event) }
{}

/// Past and world agree on paths at the beginning of a history that follows the machine, and after each of its entries.
pub fn histories_agree_on_paths()
    ensures { (c : Configuration) (bytes : ByteMap) (es : List EntryValue)
        → AreLimited c → AllByRecursion (λ e. CanBeMade e.event) es → Follows c bytes es
        → HoldsAlong PathsAgree c (opening_past bytes) (opening_world bytes) es }
{}

/// Where past and world agree on paths, what can be delivered to a queue pair by an index was sent to it with this
/// index: by an envelope among the latest that are kept, which is not lost, and since then the queue pair was neither
/// reset nor destroyed.
pub fn deliverable_bytes_were_sent()
    ensures { (c : Configuration) (past : Past) (w : World) (q : QueueId) (index : ℕ) (arrived : List ℕ)
        → IsSoundWorld c w → PathsAgree past w → bytes_lent index (w.mailbox q) ≡ Some arrived
        → WereSent past q index arrived }
{}

/// In a history that follows the machine each packet that is sent has the next index of its target exactly where a path
/// leads there: where each of the two has named the other with the other's present incarnation. This is the part of
/// Carried that speaks of indices.
pub fn packets_have_their_indices()
    ensures { (c : Configuration) (bytes : ByteMap) (es : List EntryValue) → AreLimited c
        → AllByRecursion (λ e. CanBeMade e.event) es → Follows c bytes es
        → HaveTheirIndices bytes es }
{}

/// In a history that follows the machine each packet that arrives by an index is among the latest 256 that were sent
/// to its queue pair, is not lost, and the queue pair was neither reset nor destroyed since; one without an index is
/// injected by its event. This is the part of Carried that speaks of arrivals.
pub fn packets_arrive_as_sent()
    ensures { (c : Configuration) (bytes : ByteMap) (es : List EntryValue) → AreLimited c
        → AllByRecursion (λ e. CanBeMade e.event) es → Follows c bytes es
        → DoArriveAsSent bytes es }
{}
