ghost use Rattle.std.specs.Prelude.{◌≡◌, ◌≤◌, ℕ, Bool, true, false, List, [], None, Some, IfSome, length};
ghost use Rattle.std.specs.List.{AllByRecursion};
ghost use Rattle.ca_keys.specs.declared.names.QueueId.{QueueId};
ghost use Rattle.ca_base.specs.Configuration.{Configuration};
ghost use Rattle.ca_base.specs.declared.correspondent.Correspondent.{Correspondent};
ghost use Rattle.ca_base.specs.declared.lot.Lot.{Lot};
ghost use Rattle.ca_base.specs.objects.Mailbox.{bytes_lent};
ghost use Rattle.ca_base.specs.objects.QueuePair.{Present, QueuePair};
ghost use Rattle.ca_base.specs.objects.Slices.{has_queue};
ghost use Rattle.ca_law_parts.specs.Placed.{IsPlacedWorld};
ghost use Rattle.ca_model.specs.declared.event.Event.{Event};
ghost use Rattle.ca_model.specs.declared.event.Event.TheVariants as events;
ghost use Rattle.ca_model.specs.declared.verb.Verb.TheVariants as verbs;
ghost use Rattle.ca_model.specs.declared.part_name.PartName.{PartName};
ghost use Rattle.ca_model.specs.machine.Delivery.{arrival_row};
ghost use Rattle.ca_model.specs.machine.Held.{IsAskHeld, IsEndHeld};
ghost use Rattle.ca_model.specs.machine.Numbering.{Numbered};
ghost use Rattle.ca_model.specs.machine.Parts.{IsAmong, Needs, ShowsHeld, event_needs, event_parts, gathered, is_configured_part, is_held, listed, next_part, operation_needs, part_of, row_needs};
ghost use Rattle.ca_model.specs.machine.Plan.{touches};
ghost use Rattle.ca_model.specs.machine.Requester.{Performs, Sends, packet_row, turn_of};
ghost use Rattle.ca_model.specs.machine.Respond.{respond_row};
ghost use Rattle.ca_model.specs.machine.Row.{Row};
ghost use Rattle.ca_model.specs.machine.Seen.{shared_receives};
ghost use Rattle.ca_model.specs.machine.Sound.{AreLimited, IsSoundWorld};
ghost use Rattle.ca_model.specs.machine.Step.{plan};
ghost use Rattle.ca_model.specs.machine.World.{World};

/// The most parts that an event needs.
pub const MAX_EVENT_PARTS: usize = 32;

/// In a sound world each thing that an event looks at, reads, changes or writes stands in a part that the table of parts
/// has for this event.
pub fn event_touches_its_parts()
    ensures { (c : Configuration) (w : World) (event : Event) → IsSoundWorld c w
        → AllByRecursion (λ n. IsAmong (event_parts c w event) (part_of n)) (touches w (plan c event)) }
{}

/// In a sound and placed world only configured parts are needed, where the configuration keeps to its limits.
pub fn event_needs_configured_parts()
    ensures { (c : Configuration) (w : World) (event : Event) → AreLimited c → IsSoundWorld c w → IsPlacedWorld c w
        → AllByRecursion (λ p. is_configured_part c p ≡ true) (event_parts c w event) }
{}

/// In a sound world the table has few parts for an event.
pub fn event_needs_few_parts()
    ensures { (c : Configuration) (w : World) (event : Event) → IsSoundWorld c w
        → length (event_parts c w event) ≤ MAX_EVENT_PARTS }
{}

/// Which part is needed next follows from the parts that are held: it is the same in every world that shows them.
pub fn next_part_is_shown()
    ensures { (held : PartName → Bool) (v w : World) (needs : Needs) → ShowsHeld held v w
        → next_part held v needs ≡ next_part held w needs }
{}

/// The part that is named next is one of those that are needed, and it is not held. None is named only where all are.
pub fn next_part_is_needed()
    ensures some { (held : PartName → Bool) (w : World) (needs : Needs) (p : PartName)
        → next_part held w needs ≡ Some p → IsAmong (listed w needs) p × (held p ≡ false) }
    ensures none { (held : PartName → Bool) (w : World) (needs : Needs)
        → next_part held w needs ≡ None → AllByRecursion (λ p. held p ≡ true) (listed w needs) }
{}

/// In a sound world no more parts than `MAX_EVENT_PARTS` are named and taken, one after another, and then none is missing.
pub fn next_part_comes_to_an_end()
    ensures { (c : Configuration) (w : World) (event : Event) → IsSoundWorld c w
        → next_part (is_held (gathered MAX_EVENT_PARTS w (event_needs c event) [])) w (event_needs c event) ≡ None }
{}

/// In a sound world, where no part is missing, each thing that the event touches stands in a part that is held.
pub fn held_parts_suffice()
    ensures { (c : Configuration) (w : World) (event : Event) (held : PartName → Bool) → IsSoundWorld c w
        → next_part held w (event_needs c event) ≡ None
        → AllByRecursion (λ n. held (part_of n) ≡ true) (touches w (plan c event)) }
{}

/// In a sound world, where no part of a row is missing, the parts of the key of each of its asks are held, and the
/// buffers of all bytes that the ask touches; and so are the parts of the key that the row ends.
pub fn held_parts_serve_rows()
    ensures asks { (c : Configuration) (held : PartName → Bool) (w : World) (row : Row) → IsSoundWorld c w
        → next_part held w (row_needs c row) ≡ None → AllByRecursion (IsAskHeld c held w) row.asks }
    ensures ended { (c : Configuration) (held : PartName → Bool) (w : World) (row : Row)
        → next_part held w (row_needs c row) ≡ None → IfSome row.invalidation (IsEndHeld c held w) }
{}

/// Where no part of an engine's turn is missing, none is of its row: of a packet that a requester sends or a responder
/// sends, whether there is room or not; of a local operation; and of bytes that arrive, from a mailbox or a consumer.
pub fn held_parts_serve_turns()
    ensures packet { (c : Configuration) (held : PartName → Bool) (w : World) (name : QueueId) (lot : Lot)
        (q : QueuePair) (n : Numbered) (peer : Correspondent) (room : Bool) → IsSoundWorld c w
        → has_queue c name ≡ true → w.queue name ≡ Present q → q.peer ≡ Some peer → turn_of q ≡ Sends n
        → next_part held w (event_needs c (events.Request name lot)) ≡ None
        → AllByRecursion (IsAskHeld c held w) (packet_row q room n).asks }
    ensures operation { (c : Configuration) (held : PartName → Bool) (w : World) (name : QueueId) (lot : Lot)
        (q : QueuePair) (n : Numbered) → has_queue c name ≡ true → w.queue name ≡ Present q → turn_of q ≡ Performs n
        → next_part held w (event_needs c (events.Request name lot)) ≡ None
        → next_part held w (operation_needs c q n.request.op) ≡ None }
    ensures response { (c : Configuration) (held : PartName → Bool) (w : World) (name : QueueId) (lot : Lot)
        (q : QueuePair) (peer : Correspondent) (room : Bool) → IsSoundWorld c w
        → has_queue c name ≡ true → w.queue name ≡ Present q → q.peer ≡ Some peer
        → next_part held w (event_needs c (events.Respond name lot)) ≡ None
        → AllByRecursion (IsAskHeld c held w) (respond_row room q).asks }
    ensures delivery { (c : Configuration) (held : PartName → Bool) (w : World) (name : QueueId) (index : ℕ)
        (bytes : List ℕ) (q : QueuePair) → has_queue c name ≡ true → w.queue name ≡ Present q
        → bytes_lent index (w.mailbox name) ≡ Some bytes
        → next_part held w (event_needs c (events.Deliver name index)) ≡ None
        → next_part held w (row_needs c (arrival_row bytes (Some index) (shared_receives w q) q)) ≡ None }
    ensures injection { (c : Configuration) (held : PartName → Bool) (w : World) (by : ℕ) (name : QueueId)
        (bytes : List ℕ) (q : QueuePair) → has_queue c name ≡ true → w.queue name ≡ Present q
        → next_part held w (event_needs c (events.Verb by (verbs.Inject name bytes))) ≡ None
        → next_part held w (row_needs c (arrival_row bytes None (shared_receives w q) q)) ≡ None }
{}
