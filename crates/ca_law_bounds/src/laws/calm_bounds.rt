ghost use Rattle.std.specs.List.{AllByRecursion, sum_by};
ghost use Rattle.std.specs.Prelude.{◌+◌, ◌*◌, ◌≤◌, List, length};
ghost use Rattle.ca_base.specs.Configuration.{Configuration};
ghost use Rattle.ca_law_bounds.specs.CalmRuns.{AreAllClean, IsCalmRun};
ghost use Rattle.ca_keys.specs.Memory.{ByteMap};
ghost use Rattle.ca_model.specs.Entries.{EntryValue};
ghost use Rattle.ca_model.specs.Past.{after_entries, opening_past};
ghost use Rattle.ca_model.specs.machine.Run.{Follows};
ghost use Rattle.ca_model.specs.machine.Sound.{AreLimited, CanBeMade};
ghost use Rattle.ca_model.specs.machine.World.{opening_world};
ghost use Rattle.ca_law_bounds.specs.Forward.{AllGoForward, packets_in, verbs_in};

/// Along a history in calm weather that follows the machine and in which every connection is clean, everything goes
/// forward: each delivery is of an envelope that had none, no requester goes back, and each sends only to a peer with
/// its own path MTU.
pub fn calm_runs_go_forward()
    ensures { (c : Configuration) (bytes : ByteMap) (es : List EntryValue) → AreLimited c
        → AllByRecursion (λ e. CanBeMade e.event) es → Follows c bytes es → IsCalmRun c (opening_world bytes) es
        → AreAllClean (after_entries es (opening_past bytes)) → AllGoForward c (opening_world bytes) es }
{}

/// So it has at most as many entries as verbs, and four for each packet of the requests that were posted, counted at
/// the smallest path MTU.
pub fn calm_runs_are_bounded()
    ensures { (c : Configuration) (bytes : ByteMap) (es : List EntryValue) → AreLimited c
        → AllByRecursion (λ e. CanBeMade e.event) es → Follows c bytes es → IsCalmRun c (opening_world bytes) es
        → AreAllClean (after_entries es (opening_past bytes))
        → length es ≤ sum_by (λ e. verbs_in e.event) es + 4 * sum_by (λ e. packets_in e.event) es }
{}
