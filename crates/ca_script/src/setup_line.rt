ghost use Rattle.std.specs.Prelude.{◌≡◌, ◌==◌, ◌∷◌, true, IfOk, OnOk};
ghost use Rattle.std.specs.List.{list_any};
ghost use Rattle.ca_script.specs.Script as script;
ghost use Rattle.ca_script.specs.Script.{Leaves};
ghost use Rattle.ca_script.specs.Setup as setup;
ghost use Rattle.ca_script_lines.specs.Rows.{read_table};
ghost use Rattle.ca_script_lines.specs.ca_script_lex.Reading.{Answers, field};
ghost use Rattle.ca_script_lines.specs.ca_script_lex.Words.{words_of, number};

use crate::room::fits;
use crate::setting::{Setting, take_setting};
use crate::setup::{SetupSoFar, add_buffer, plain_adapters, set_slots};
use ca_base::limits::{MAX_ADAPTERS, MAX_PARTS, MAX_TOTAL_BYTES};
use ca_base::{Memory, part_count};
use ca_mailbox::{Weather, WeatherLine, WeatherList};
use ca_script_lines::ca_script_lex::{LineError, LineWords, ScriptCause, take_u8};
use ca_script_lines::ca_trace_lex::is_name;
use std::alloc::Global;

/// Whether an adapter is among those that have their slots.
fn is_among(adapter: u8, slotted: &[u8]) -> bool
    ensures { result ≡ list_any (λ a. a == adapter) slotted.now }
{
    for a in slotted {
        if *a == adapter {
            return true;
        }
    }
    false
}

/// Whether the first word is the number of an adapter that has its slots.
fn is_slotted(slotted: &[u8], words: &mut LineWords) -> Result<bool, Memory>
    ensures { IfOk result (λ late. late ≡ setup.is_slotted slotted.now (field (number 0 255) words.old)) }
{
    match take_u8(words) {
        Ok(adapter) => Ok(is_among(adapter, slotted)),
        Err(LineError::Refused(_)) => Ok(false),
        Err(LineError::Memory) => Err(Memory),
    }
}

/// Whether the first word is `seed`.
fn is_seed(words: &mut LineWords) -> Result<bool, Memory>
    ensures { IfOk result (λ late. late ≡ setup.is_seed words.old) }
{
    match words.take_word() {
        Ok(word) => Ok(is_name(word, "seed")),
        Err(LineError::Refused(_)) => Ok(false),
        Err(LineError::Memory) => Err(Memory),
    }
}

/// Whether a weather line stands beside seeded weather.
fn is_other_weather(weather: &Weather, words: &mut LineWords) -> Result<bool, Memory>
    ensures { IfOk result (λ late. late ≡ setup.is_other_weather weather.now words.old) }
{
    match weather {
        Weather::Calm => Ok(false),
        Weather::Listed(_) => is_seed(words),
        Weather::Seeded(_) => Ok(true),
    }
}

/// Whether a setup line of this name, with these words behind it, comes too late among the setup lines.
#[tactic(auto, unfolding(crate::specs::Setup::is_late))]
fn is_named_late(so_far: &SetupSoFar, name: &[u8], words: &mut LineWords) -> Result<bool, Memory>
    ensures { IfOk result (λ late. late ≡ setup.is_late (script.setup_of so_far.now) (name.now ∷ words.old)) }
{
    if is_name(name, "adapters") {
        Ok(so_far.begun)
    } else if is_name(name, "slots") {
        is_slotted(so_far.slotted.as_slice(), words)
    } else if is_name(name, "events") {
        Ok(so_far.limited)
    } else if is_name(name, "weather") {
        is_other_weather(&so_far.weather, words)
    } else {
        Ok(false)
    }
}

/// Whether a setup line comes too late among the setup lines.
#[tactic(auto, unfolding(crate::specs::Setup::is_late))]
fn is_late(so_far: &SetupSoFar, line: &[u8]) -> Result<bool, Memory>
    ensures { IfOk result (λ late. late ≡ setup.is_late (script.setup_of so_far.now) (words_of line.now)) }
{
    let mut words = LineWords::of(line);
    match words.take_word() {
        Ok(name) => is_named_late(so_far, name, &mut words),
        Err(LineError::Refused(_)) => Ok(false),
        Err(LineError::Memory) => Err(Memory),
    }
}

/// The setting of a line that says nothing more.
fn whole_setting(last_adapter: u8, line: &[u8]) -> Result<Setting, LineError>
    ensures { Answers (λ x. x) result (script.whole (read_table (setup.setup_lines last_adapter) (words_of line.now))) }
{
    let mut words = LineWords::of(line);
    let setting = take_setting(last_adapter, &mut words)?;
    words.expect_end()?;
    Ok(setting)
}

/// Adds a line of listed weather.
fn add_weather(alloc: Global, weather: &mut Weather, line: WeatherLine) -> Result<(), Memory>
    ensures { OnOk result (weather.new ≡ setup.with_weather line weather.old) }
{
    if let Weather::Listed(list) = weather {
        return list.push(line);
    }
    let mut list = WeatherList::empty(alloc);
    list.push(line)?;
    *weather = Weather::Listed(list);
    Ok(())
}

/// Does what a setup line says, where there is room for it.
fn apply(alloc: Global, setting: Setting, so_far: &mut SetupSoFar) -> Result<bool, Memory>
    ensures room { IfOk result (λ room. room ≡ setup.has_room_for setting (script.setup_of so_far.old)) }
    ensures after { OnOk result (setup.has_room_for setting (script.setup_of so_far.old) ≡ true →
        script.setup_of so_far.new ≡ setup.after_setting setting (script.setup_of so_far.old)) }
{
    so_far.begun = true;
    match setting {
        Setting::Adapters(count) => {
            if usize::from(count) > MAX_ADAPTERS {
                return Ok(false);
            }
            so_far.config.adapters = plain_adapters(count);
        }
        Setting::Buffer(adapter, bytes) => {
            return Ok(add_buffer(so_far.config.adapters.as_mut_slice(), adapter, bytes));
        }
        Setting::Slots(adapter, counts) => {
            set_slots(so_far.config.adapters.as_mut_slice(), adapter, counts);
            so_far.slotted.push(adapter)?;
        }
        Setting::Events(count) => {
            so_far.limited = true;
            so_far.config.events = count;
        }
        Setting::Seed(seed) => so_far.weather = Weather::Seeded(seed),
        Setting::Listed(line) => add_weather(alloc, &mut so_far.weather, line)?,
    }
    Ok(true)
}

/// Whether the setup is within the limits of the whole.
#[tactic(auto, unfolding(crate::specs::Setup::is_within_limits))]
fn is_within_limits(so_far: &SetupSoFar) -> bool
    ensures { result ≡ setup.is_within_limits (script.setup_of so_far.now) }
{
    fits(
        u64::from(MAX_TOTAL_BYTES),
        so_far.config.adapters.as_slice(),
    ) && part_count(&so_far.config) <= u64::from(MAX_PARTS)
}

/// Reads a setup line.
#[tactic(auto, unfolding(crate::specs::Script::after_setup_line))]
pub(crate) fn read_setup_line(
    alloc: Global,
    so_far: &mut SetupSoFar,
    line: &[u8],
) -> Result<(), LineError>
    ensures { Leaves result (script.setup_of so_far.new)
        (script.after_setup_line (script.setup_of so_far.old) (words_of line.now)) }
{
    if is_late(so_far, line)? {
        return Err(LineError::Refused(ScriptCause::SetupLate));
    }
    let last_adapter = (so_far.config.adapters.len() as u8).saturating_sub(1);
    let setting = whole_setting(last_adapter, line)?;
    let room = apply(alloc, setting, so_far)?;
    if room && is_within_limits(so_far) {
        Ok(())
    } else {
        Err(LineError::Refused(ScriptCause::OutOfLimit))
    }
}
