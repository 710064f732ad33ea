ghost use Rattle.std.specs.Prelude.{◌≡◌, IfOk, true};
ghost use Rattle.ca_trace_output.specs.Text.{alone_text};
ghost use Rattle.ca_run_alone.specs.Lone.{IsLoneRun, IsOutcome};
ghost use Rattle.ca_base.specs.Configuration.{configuration_of};
ghost use Rattle.ca_isolation.specs.Groups.{group_of, is_closed, replies_of};
ghost use Rattle.ca_keys.specs.Memory.{zeros};
ghost use Rattle.ca_model.specs.machine.Run.{Follows};
ghost use Rattle.ca_model.specs.machine.Sound.{AreLimited};
ghost use Rattle.ca_script_order.specs.OfScript as machine;
ghost use Rattle.ca_script_order.specs.Order.{ending, order};
ghost use Rattle.ca_script.specs.Script.{script_value};
ghost use Rattle.ca_script_run.specs.Statuses.{status_value};
ghost use Rattle.ca_script_run.specs.Working.{IsWorkable};

use crate::collecting::history_of;
use crate::laws::{events_can_be_made, grants_are_in_reach, lone_runs_exist};
use crate::lone::{Lone, Outcome};
use ca_adapter_opening::zero_contents;
use ca_base::{Bytes, Config, DomainId, Memory};
use ca_isolation::{alone, closed, replies};
use ca_model::{History, Opening};
use ca_script::Script;
use ca_script_order::orders_follow_the_machine;
use ca_script_run::ca_adapter_store::{ReplayError, replay};
use ca_script_run::work_script;
use ca_trace_output::print_replies;
use std::alloc::Global;

/// Works a script in its order from buffers of zeros, and then, where the group is closed in its history, replays the
/// events that the group makes alone from the same opening. `Memory` is its only refusal; it comes too where the lone run
/// would have as many events as a replay cannot count, 2^32 - 1.
pub fn work_alone(alloc: Global, script: Script, group: &[DomainId]) -> Result<Lone, Memory>
    requires { IsWorkable (script_value script) }
    ensures history { IfOk result (λ lone. lone.history ≡ order (script_value script)) }
    ensures status { IfOk result (λ lone. status_value lone.status
        ≡ machine.status_of (script_value script) (ending (script_value script))) }
    ensures outcome { IfOk result (λ lone. IsOutcome (script_value script).config (group_of group.now)
        (order (script_value script)) lone.outcome) }
{
    orders_follow_the_machine();
    let config = copy_of(&script.config)?;
    let worked = work_script(alloc, script)?;
    let outcome = outcome_of(alloc, config, group, &worked.history)?;
    Ok(Lone {
        history: worked.history,
        status: worked.status,
        outcome,
    })
}

/// A copy of a configuration.
fn copy_of(config: &Config) -> Result<Config, Memory>
    ensures { IfOk result (λ copy. configuration_of copy ≡ configuration_of config.now) }
{
    let copy = config.clone()?;
    Ok(copy)
}

/// What comes of a group beside a history.
fn outcome_of(
    alloc: Global,
    config: Config,
    group: &[DomainId],
    history: &History,
) -> Result<Outcome, Memory>
    requires limited { AreLimited (configuration_of config) }
    requires follows { Follows (configuration_of config) zeros history.now }
    ensures { IfOk result (IsOutcome (configuration_of config) (group_of group.now) history.now) }
{
    match closed(group, history) {
        Some(queue) => Ok(Outcome::NotClosed(queue)),
        None => {
            let lone = lone_run(alloc, config, group, history)?;
            Ok(Outcome::Replies(text_of(alloc, group, &lone)?))
        }
    }
}

/// The text of the replies to a group in a history.
fn text_of(alloc: Global, group: &[DomainId], lone: &History) -> Result<Bytes, Memory>
    ensures { IfOk result (λ text. text ≡ alone_text (replies_of (group_of group.now) lone.now)) }
{
    let replies = replies(alloc, group, lone)?;
    let mut text = Vec::new(alloc);
    print_replies(replies.as_slice(), &mut text)?;
    Ok(Bytes::from(text))
}

/// The history of a closed group's lone run.
fn lone_run(
    alloc: Global,
    config: Config,
    group: &[DomainId],
    history: &History,
) -> Result<History, Memory>
    requires limited { AreLimited (configuration_of config) }
    requires follows { Follows (configuration_of config) zeros history.now }
    requires closed { is_closed (group_of group.now) history.now ≡ true }
    ensures { IfOk result (IsLoneRun (configuration_of config) (group_of group.now) history.now) }
{
    events_can_be_made(history);
    grants_are_in_reach();
    lone_runs_exist();
    let events = alone(alloc, group, history)?;
    let contents = zero_contents(alloc, &config)?;
    let opening = Opening { config, contents };
    if events.len() >= u32::MAX as usize {
        return Err(Memory);
    }
    match replay(alloc, &opening, events.as_slice()) {
        Ok(all) => history_of(alloc, events, all),
        Err(ReplayError::Memory) => Err(Memory),
        Err(ReplayError::NotReady(_, _)) => unreachable!(),
    }
}
