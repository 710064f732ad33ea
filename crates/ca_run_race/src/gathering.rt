ghost use Rattle.std.specs.Prelude.{◌≡◌, ℕ, IfOk, map};
ghost use Rattle.ca_base.specs.Configuration.{configuration_in};
ghost use Rattle.ca_verbs_machine.specs.Values.{value_of};
ghost use Rattle.ca_model.specs.Entries.{entry_of};
ghost use Rattle.ca_model.specs.History.{IsHistory};
ghost use Rattle.ca_run_race.specs.Raced.{IsGathered};
ghost use Rattle.ca_run_race.specs.Workers.{IsWorkOf};
ghost use Rattle.ca_script.specs.Script.{script_value};
ghost use Rattle.ca_verbs.specs.Passes.{settings_in};

use crate::work::Work;
use ca_adapter_parts::{Held, Part};
use ca_base::{Memory, Settings};
use ca_model::{Entry, History};
use ca_model_places::each_part_has_a_place;
use ca_script::Script;
use ca_script_run::Progress;
use ca_script_run::ca_adapter_store::Row;
use ca_verbs::{Fabric, Remains};
use ca_verbs_machine::{SharedPart, entries_follow_the_machine};
use ca_verbs_scripts::{worked_histories_are_of_their_scripts, works_are_in_their_history};
use std::alloc::Global;

/// How far a script is worked that workers worked so far: the fabric is closed, its parts are taken as a row, and the entries
/// as one history. Want of memory is the only refusal.
pub(crate) fn gather(
    alloc: Global,
    script: &Script,
    fabric: Fabric,
    work: Work,
) -> Result<Progress, Memory>
    requires settings { configuration_in (settings_in fabric) ≡ (script_value script.now).config }
    requires work { (end : ℕ) × (workers : ℕ) × IsWorkOf fabric (script_value script.now) 0 end workers work }
    ensures { IfOk result (λ progress. IsGathered (script_value script.now) progress) }
{
    let Work { pass, done } = work;
    let Ok(Remains { entries, parts }) = fabric.into_parts(pass) else {
        return Err(Memory);
    };
    entries_follow_the_machine();
    each_part_has_a_place();
    works_are_in_their_history();
    worked_histories_are_of_their_scripts();
    let row = Row {
        settings: Settings::of(&script.config),
        parts: parts_of(alloc, parts)?,
        held: Held::empty(alloc),
        taken: Vec::new(alloc),
        count: entries.len() as u32,
    };
    let history = history_of(alloc, entries)?;
    Ok(Progress { row, done, history })
}

/// The parts that were shared.
fn parts_of(alloc: Global, mut shared: Vec<SharedPart>) -> Result<Vec<Part>, Memory>
    ensures { IfOk result (λ parts. map value_of parts.items ≡ shared.items) }
{
    let mut parts = Vec::with_capacity(alloc, shared.len())?;
    while let Some(part) = shared.pop() {
        parts.push_reserved(part.into_part());
    }
    parts.reverse();
    Ok(parts)
}

/// The history of these entries.
fn history_of(alloc: Global, mut entries: Vec<Entry>) -> Result<History, Memory>
    requires { IsHistory (map entry_of entries.items) }
    ensures { IfOk result (λ history. history ≡ map entry_of entries.items) }
{
    let mut history = History::empty(alloc);
    entries.reverse();
    while let Some(entry) = entries.pop() {
        history.push(entry)?;
    }
    Ok(history)
}
