ghost use Rattle.std.specs.List.{AllByRecursion, Contains};
ghost use Rattle.std.specs.Prelude.{IsTrue, List};
ghost use Rattle.ca_base.specs.Configuration.{Configuration};
ghost use Rattle.ca_law_bounds.specs.CalmRuns.{AreAllClean, CursorGoesOnAlong, IsCalmRun, LeadsOnAlong};
ghost use Rattle.ca_keys.specs.Memory.{ByteMap};
ghost use Rattle.ca_model.specs.Entries.{EntryValue};
ghost use Rattle.ca_model.specs.Once.{is_clean_pair};
ghost use Rattle.ca_model.specs.Past.{Naming, after_entries, opening_past};
ghost use Rattle.ca_model.specs.machine.Run.{Follows};
ghost use Rattle.ca_model.specs.machine.Sound.{AreLimited, CanBeMade};
ghost use Rattle.ca_model.specs.machine.World.{opening_world};

/// Along a history in calm weather that follows the machine, no entry lowers the cursor of the requester of either end
/// of a clean connection: `a` and `b` are the two Rtr of the connection, and the requester is that of `a`.
pub fn calm_cursors_go_on()
    ensures { (c : Configuration) (bytes : ByteMap) (es : List EntryValue) (a b : Naming) → AreLimited c
        → AllByRecursion (λ e. CanBeMade e.event) es → Follows c bytes es → IsCalmRun c (opening_world bytes) es
        → Contains (after_entries es (opening_past bytes)).namings a
        → Contains (after_entries es (opening_past bytes)).namings b
        → IsTrue (is_clean_pair (after_entries es (opening_past bytes)) a b)
        → CursorGoesOnAlong a.own c (opening_world bytes) es }
{}

/// Where moreover every connection is clean, no entry lowers the cursor of a requester that sends; each delivery is of
/// an envelope that wants one and had none, and does not lower the cursor of its target; and a requester whose turn it
/// is has the path MTU of the peer to which a path leads.
pub fn calm_runs_lead_on()
    ensures { (c : Configuration) (bytes : ByteMap) (es : List EntryValue) → AreLimited c
        → AllByRecursion (λ e. CanBeMade e.event) es → Follows c bytes es → IsCalmRun c (opening_world bytes) es
        → AreAllClean (after_entries es (opening_past bytes)) → LeadsOnAlong c (opening_world bytes) es }
{}
