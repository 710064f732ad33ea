ghost use Rattle.std.specs.List.{AllByRecursion};
ghost use Rattle.std.specs.Prelude.{List};
ghost use Rattle.ca_law_endings.specs.Agreement.{HoldsAlong};
ghost use Rattle.ca_base.specs.Configuration.{Configuration};
ghost use Rattle.ca_law_caused.specs.Linked.{DoCompleteSo, has_misfit_unclean, has_peers_reason};
ghost use Rattle.ca_law_caused.specs.Refused.{ReasonsAgree};
ghost use Rattle.ca_keys.specs.Memory.{ByteMap};
ghost use Rattle.ca_model.specs.Caused.{Caused};
ghost use Rattle.ca_model.specs.Entries.{EntryValue};
ghost use Rattle.ca_model.specs.Past.{opening_past};
ghost use Rattle.ca_model.specs.machine.Run.{Follows};
ghost use Rattle.ca_model.specs.machine.Sound.{AreLimited, CanBeMade};
ghost use Rattle.ca_model.specs.machine.World.{opening_world};

/// In a history that follows the machine each NAK that waits to be sent, and each that is under way, has its reason
/// among what befell the queue pair that sends it: before the first entry and after each.
pub fn histories_agree_on_reasons()
    ensures { (c : Configuration) (bytes : ByteMap) (es : List EntryValue) → AreLimited c
        → AllByRecursion (λ e. CanBeMade e.event) es → Follows c bytes es
        → HoldsAlong ReasonsAgree c (opening_past bytes) (opening_world bytes) es }
{}

/// In a history that follows the machine each request that was refused on a connection that is clean so far has its
/// reason among what befell the peer: an invalid request or a receive too short, a denied access, or a receive that
/// failed.
pub fn refusals_have_befallen_peers()
    ensures { (c : Configuration) (bytes : ByteMap) (es : List EntryValue) → AreLimited c
        → AllByRecursion (λ e. CanBeMade e.event) es → Follows c bytes es
        → DoCompleteSo has_peers_reason bytes es }
{}

/// In a history that follows the machine no request fails by a response that does not fit it, on a connection that is
/// clean so far.
pub fn answers_fit_on_clean_connections()
    ensures { (c : Configuration) (bytes : ByteMap) (es : List EntryValue) → AreLimited c
        → AllByRecursion (λ e. CanBeMade e.event) es → Follows c bytes es
        → DoCompleteSo has_misfit_unclean bytes es }
{}

/// Every history that follows the machine is Caused: each completion that is no success has the cause of its status.
pub fn machine_is_caused()
    ensures { (c : Configuration) (bytes : ByteMap) (es : List EntryValue) → AreLimited c
        → AllByRecursion (λ e. CanBeMade e.event) es → Follows c bytes es → Caused bytes es }
{}
