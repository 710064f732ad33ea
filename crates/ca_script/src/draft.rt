ghost use Rattle.std.specs.Prelude.{◌≡◌, ◌<◌, [], length, OnOk};
ghost use Rattle.ca_base.specs.declared.limits.TheConstants.{MAX_EVENTS};
ghost use Rattle.ca_script.specs.Script as script;
ghost use Rattle.ca_script.specs.Setup as setup;
ghost use Rattle.ca_script_lines.specs.declared.what.Line.{Line};

use crate::script::{Consumers, Lines, Script};
use crate::setup::{SetupSoFar, plain_adapters};
use ca_base::limits::MAX_EVENTS;
use ca_base::{Config, Memory};
use ca_mailbox::Weather;
use ca_script_lines::Line;
use std::alloc::Global;

/// What the lines so far say.
#[derive(Drop)]
pub(crate) struct ScriptSoFar {
    pub setup: SetupSoFar,
    pub consumers: Vec<Lines>,
}

/// What a script says before its first line.
pub(crate) fn opening(alloc: Global) -> ScriptSoFar
    ensures setup { script.setup_of result.setup ≡ setup.opening }
    ensures consumers { result.consumers.items ≡ [] }
{
    ScriptSoFar {
        setup: SetupSoFar {
            begun: false,
            config: Config {
                adapters: plain_adapters(1),
                events: MAX_EVENTS,
            },
            slotted: Vec::new(alloc),
            limited: false,
            weather: Weather::Calm,
        },
        consumers: Vec::new(alloc),
    }
}

/// The script that all lines say.
pub(crate) fn script_of(draft: ScriptSoFar) -> Script
    ensures { script.script_value result ≡ script.value_of_draft (script.draft_of draft) }
{
    let ScriptSoFar { setup, consumers } = draft;
    Script {
        config: setup.config,
        weather: setup.weather,
        consumers: Consumers::from(consumers),
    }
}

/// Adds consumers without lines up to this one.
#[tactic(auto, using(crate::proofs::LineLemmas::padding))]
fn pad(alloc: Global, consumers: &mut Vec<Lines>, consumer: usize) -> Result<(), Memory>
    ensures lines { OnOk result ((line : Line) →
        script.with_line consumer line consumers.new.items ≡ script.with_line consumer line consumers.old.items) }
    ensures there { OnOk result (consumer < length consumers.new.items) }
{
    while consumers.len() <= consumer {
        consumers.push(Lines::empty(alloc))?;
    }
    Ok(())
}

/// Adds a line behind those of a consumer that is there.
#[tactic(auto, using(crate::proofs::LineLemmas::adding))]
fn push_line(consumers: &mut [Lines], consumer: usize, line: Line) -> Result<(), Memory>
    requires { consumer < length consumers.old }
    ensures { OnOk result (consumers.new ≡ script.with_line consumer line consumers.old) }
{
    consumers[consumer].push(line)
}

/// Adds a line behind those of its consumer.
pub(crate) fn add_line(
    alloc: Global,
    consumers: &mut Vec<Lines>,
    consumer: usize,
    line: Line,
) -> Result<(), Memory>
    ensures { OnOk result (consumers.new.items ≡ script.with_line consumer line consumers.old.items) }
{
    pad(alloc, consumers, consumer)?;
    push_line(consumers.as_mut_slice(), consumer, line)
}
