ghost use Rattle.std.specs.Prelude.{◌≡◌, ◌<◌, ℕ, List, Ok, IfOk};
ghost use Rattle.ca_run_alone.specs.Lone.{IsOutcome};
ghost use Rattle.ca_isolation.specs.Groups.{group_of};
ghost use Rattle.ca_script_seed.specs.Made.{made_script};
ghost use Rattle.ca_model.specs.History.{IsHistory};
ghost use Rattle.ca_script_order.specs.Order.{order};
ghost use Rattle.ca_script_order.specs.Summary.{summary};
ghost use Rattle.ca_run.specs.Run.{IsRaced, IsTextOf, IsWorked};
ghost use Rattle.ca_script.specs.Script.{ScriptValue, script_of, script_value};
ghost use Rattle.ca_run_race.specs.ca_script_run.Statuses.{status_value};
ghost use Rattle.ca_run_race.specs.ca_script_run.Working.{IsWorkable};
ghost use Rattle.ca_script_seed.specs.Text.{summary_text};
ghost use Rattle.ca_trace.specs.Trace.{text};

use ca_base::{DomainId, Memory};
use ca_law_scripts::{
    histories_of_scripts_are_lawful, orders_of_texts_are_lawful, texts_mean_limited_scripts,
    texts_mean_workable_scripts,
};
use ca_model::History;
use ca_outside::Gate;
use ca_run_alone::{Lone, work_alone};
use ca_run_race::ca_script_run::{Worked, work_script};
use ca_run_race::race_script;
use ca_run_seed::{Made, make};
use ca_script::Script;
use ca_script_order::{
    orders_have_their_status, rounds_are_of_their_scripts, rounds_end, rounds_follow_the_machine,
    stages_have_their_status,
};
use ca_trace_read::ca_trace_read_fits::history_fits;
use ca_trace_read::one_text;
use std::alloc::Global;
use std::sync::Wait;
use std::thread::Threads;

/// Works a script that a text means, in its order.
pub(crate) fn work(alloc: Global, script: Script) -> Result<Worked, Memory>
    requires { (bytes : List ℕ) × (script_of bytes ≡ Ok (script_value script)) }
    ensures worked { IfOk result (λ worked. IsWorked (script_value script) (status_value worked.status)) }
    ensures text { IfOk result (λ worked. IsTextOf (text worked.history) (order (script_value script))) }
{
    can_be_worked();
    orders_of_texts_are_lawful();
    orders_have_their_status();
    let worked = work_script(alloc, script)?;
    has_one_text(&worked.history);
    Ok(worked)
}

/// Races a script that a text means, with so many workers. It may wait.
pub(crate) fn race<R: Threads + Wait + Sync, G: Gate + Sync>(
    rt: &R,
    alloc: Global,
    script: Script,
    workers: u32,
    gate: &G,
) -> Result<Worked, Memory>
    requires means { (bytes : List ℕ) × (script_of bytes ≡ Ok (script_value script)) }
    requires workers { 0 < workers }
    ensures raced { IfOk result (λ worked. IsRaced (script_value script) worked.history (status_value worked.status)) }
    ensures text { IfOk result (λ worked. IsTextOf (text worked.history) worked.history) }
{
    can_be_worked();
    texts_mean_limited_scripts();
    rounds_follow_the_machine();
    rounds_are_of_their_scripts();
    rounds_end();
    stages_have_their_status();
    histories_of_scripts_are_lawful();
    let worked = race_script(rt, alloc, &script, workers, gate)?;
    is_history(&worked.history);
    has_one_text(&worked.history);
    Ok(worked)
}

/// Works a script in its order as `work` does, and then the group's lone run beside it.
pub(crate) fn work_beside(alloc: Global, script: Script, group: &[DomainId]) -> Result<Lone, Memory>
    requires { (bytes : List ℕ) × (script_of bytes ≡ Ok (script_value script)) }
    ensures worked { IfOk result (λ lone. IsWorked (script_value script) (status_value lone.status)) }
    ensures text { IfOk result (λ lone. IsTextOf (text lone.history) (order (script_value script))) }
    ensures outcome { IfOk result (λ lone. IsOutcome (script_value script).config (group_of group.now)
        (order (script_value script)) lone.outcome) }
{
    can_be_worked();
    orders_of_texts_are_lawful();
    orders_have_their_status();
    let lone = work_alone(alloc, script, group)?;
    has_one_text(&lone.history);
    Ok(lone)
}

/// Works the script that is made of a seed.
pub(crate) fn work_made(alloc: Global, seed: u64) -> Result<Made, Memory>
    ensures worked { IfOk result (λ made. IsWorked (made_script seed) (status_value made.ended)) }
    ensures text { IfOk result (λ made. made.text.items
        ≡ summary_text (summary (made_script seed).config (order (made_script seed)))) }
{
    orders_have_their_status();
    make(alloc, seed)
}

/// A history is well formed.
fn is_history(h: &History)
    ensures { IsHistory h.now }
{
    h.as_slice();
}

/// The text of a history is that of no other that fits.
fn has_one_text(h: &History)
    ensures { IsTextOf (text h.now) h.now }
{
    history_fits(h);
    one_text();
}

/// A script that a text means can be worked.
fn can_be_worked()
    ensures { (text : List ℕ) (s : ScriptValue) → script_of text ≡ Ok s → IsWorkable s }
{
    texts_mean_limited_scripts();
    texts_mean_workable_scripts();
}
