ghost use Rattle.std.specs.List.{AllByRecursion};
ghost use Rattle.std.specs.Prelude.{◌≡◌, List, Ok, true, map};
ghost use Rattle.ca_run_alone.specs.Lone.{IsLoneRun};
ghost use Rattle.ca_base.specs.Configuration.{Configuration};
ghost use Rattle.ca_isolation.specs.Alone.{alone_entries, alone_events};
ghost use Rattle.ca_isolation.specs.Groups.{Group, is_closed};
ghost use Rattle.ca_keys.specs.Memory.{ByteMap, zeros};
ghost use Rattle.ca_isolation.specs.Cover.{AreInReach};
ghost use Rattle.ca_model.specs.Entries.{EntryValue};
ghost use Rattle.ca_model.specs.machine.Run.{Follows, run_over};
ghost use Rattle.ca_model.specs.machine.Sound.{AreLimited, CanBeMade};

use ca_isolation::lone_list_has_the_replies;
use ca_law_isolation::machine_is_isolated;
use ca_model::{Entry, History};
use ca_script_run::ca_adapter::lists_fit;

/// Says of a history's value that each of its events can be made. It does nothing but go over them.
pub(crate) fn events_can_be_made(h: &History)
    ensures { AllByRecursion (λ e. CanBeMade e.event) h.now }
{
    all_can_be_made(h.as_slice());
}

fn all_can_be_made(entries: &[Entry])
    ensures { AllByRecursion (λ e. CanBeMade e.event) entries.now }
{
    for entry in entries {
        lists_fit(&entry.event);
    }
}

/// Each run that a history grants ends among the bytes that places can name.
pub(crate) fn grants_are_in_reach()
    ensures { (c : Configuration) (bytes : ByteMap) (es : List EntryValue) → AreLimited c
        → AllByRecursion (λ e. CanBeMade e.event) es → Follows c bytes es → AreInReach es }
{}

/// The lone run of a closed group beside a history over buffers of zeros: from zeros its events are all possible, and a
/// history of them that follows the machine is the lone run.
pub(crate) fn lone_runs_exist()
    ensures possible { (c : Configuration) (group : Group) (es : List EntryValue) → AreLimited c
        → AllByRecursion (λ e. CanBeMade e.event) es → Follows c zeros es → is_closed group es ≡ true
        → run_over c zeros (alone_events group zeros es) ≡ Ok (map (λ e. e.marks) (alone_entries group zeros es)) }
    ensures one { (c : Configuration) (group : Group) (es lone : List EntryValue) → AreLimited c
        → AllByRecursion (λ e. CanBeMade e.event) es → Follows c zeros es → is_closed group es ≡ true
        → map (λ e. e.event) lone ≡ alone_events group zeros es → Follows c zeros lone
        → IsLoneRun c group es lone }
{
    machine_is_isolated();
    lone_list_has_the_replies();
}
