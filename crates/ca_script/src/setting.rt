ghost use Rattle.std.specs.Prelude.{◌≡◌};
ghost use Rattle.ca_script.specs.Setup as setup;
ghost use Rattle.ca_script_lines.specs.Rows.{read_row, read_table};
ghost use Rattle.ca_script_lines.specs.ca_script_lex.Reading.{AnswersFrom};

use ca_base::Lot;
use ca_base::limits::{
    MAX_ADAPTERS, MAX_BUFFER_BYTES, MAX_CQS, MAX_DOMAINS, MAX_EVENTS, MAX_QPS, MAX_REGIONS,
    MAX_SRQS, MAX_WINDOWS,
};
use ca_mailbox::WeatherLine;
use ca_script_lines::ca_script_lex::{
    LineError, LineWords, ScriptCause, take_number, take_queue, take_u64,
};
use ca_script_lines::ca_trace_lex::is_name;

/// How many domains an adapter has, and how many slots of each kind a domain has.
#[derive(Clone, Copy)]
pub struct SlotCounts {
    pub domains: u8,
    pub regions: u16,
    pub windows: u16,
    pub cqs: u16,
    pub srqs: u16,
    pub qps: u16,
}

/// What a setup line says.
#[derive(Clone, Copy)]
pub enum Setting {
    /// How many adapters there are.
    Adapters(u8),
    /// The next buffer of an adapter, by its bytes.
    Buffer(u8, u32),
    Slots(u8, SlotCounts),
    /// How many events may be made.
    Events(u32),
    /// Seeded weather.
    Seed(u64),
    /// A line of listed weather.
    Listed(WeatherLine),
}

/// How many adapters there are.
#[tactic(auto, unfolding(crate::specs::Setup::adapters_row))]
fn adapters(words: &mut LineWords) -> Result<Setting, LineError>
    ensures { AnswersFrom (λ x. x) result words.new (read_row setup.adapters_row words.old) }
{
    let count = take_number(1, MAX_ADAPTERS as u64, words)? as u8;
    Ok(Setting::Adapters(count))
}

/// The next buffer of an adapter.
#[tactic(auto, unfolding(crate::specs::Setup::buffer_row))]
fn buffer(last_adapter: u8, words: &mut LineWords) -> Result<Setting, LineError>
    ensures { AnswersFrom (λ x. x) result words.new (read_row (setup.buffer_row last_adapter) words.old) }
{
    let adapter = take_number(0, u64::from(last_adapter), words)? as u8;
    let length = take_number(1, u64::from(MAX_BUFFER_BYTES), words)? as u32;
    Ok(Setting::Buffer(adapter, length))
}

/// The domains of an adapter, and the slots of each domain.
#[tactic(auto, unfolding(crate::specs::Setup::slots_row))]
fn slots(last_adapter: u8, words: &mut LineWords) -> Result<Setting, LineError>
    ensures { AnswersFrom (λ x. x) result words.new (read_row (setup.slots_row last_adapter) words.old) }
{
    let adapter = take_number(0, u64::from(last_adapter), words)? as u8;
    let domains = take_number(1, u64::from(MAX_DOMAINS), words)? as u8;
    let regions = take_number(0, u64::from(MAX_REGIONS), words)? as u16;
    let windows = take_number(0, u64::from(MAX_WINDOWS), words)? as u16;
    let cqs = take_number(0, u64::from(MAX_CQS), words)? as u16;
    let srqs = take_number(0, u64::from(MAX_SRQS), words)? as u16;
    let qps = take_number(0, u64::from(MAX_QPS), words)? as u16;
    let counts = SlotCounts {
        domains,
        regions,
        windows,
        cqs,
        srqs,
        qps,
    };
    Ok(Setting::Slots(adapter, counts))
}

/// How many events may be made.
#[tactic(auto, unfolding(crate::specs::Setup::events_row))]
fn events(words: &mut LineWords) -> Result<Setting, LineError>
    ensures { AnswersFrom (λ x. x) result words.new (read_row setup.events_row words.old) }
{
    let count = take_number(1, u64::from(MAX_EVENTS), words)? as u32;
    Ok(Setting::Events(count))
}

/// Seeded weather.
#[tactic(auto, unfolding(crate::specs::Setup::seed_row))]
fn seed(words: &mut LineWords) -> Result<Setting, LineError>
    ensures { AnswersFrom (λ x. x) result words.new (read_row setup.seed_row words.old) }
{
    let seed = take_u64(words)?;
    Ok(Setting::Seed(seed))
}

/// A packet that is lost.
#[tactic(auto, unfolding(crate::specs::Setup::lose_row))]
fn lose(last_adapter: u8, words: &mut LineWords) -> Result<Setting, LineError>
    ensures { AnswersFrom (λ x. x) result words.new (read_row (setup.lose_row last_adapter) words.old) }
{
    let queue = take_queue(last_adapter, words)?;
    let index = take_u64(words)?;
    let lot = Lot::Lose;
    Ok(Setting::Listed(WeatherLine::Lot { queue, index, lot }))
}

/// A packet that is repeated.
#[tactic(auto, unfolding(crate::specs::Setup::repeat_row))]
fn repeat(last_adapter: u8, words: &mut LineWords) -> Result<Setting, LineError>
    ensures { AnswersFrom (λ x. x) result words.new (read_row (setup.repeat_row last_adapter) words.old) }
{
    let queue = take_queue(last_adapter, words)?;
    let index = take_u64(words)?;
    let lot = Lot::Repeat(take_number(1, u64::from(u8::MAX), words)? as u8);
    Ok(Setting::Listed(WeatherLine::Lot { queue, index, lot }))
}

/// A packet that is held.
#[tactic(auto, unfolding(crate::specs::Setup::hold_row))]
fn hold(last_adapter: u8, words: &mut LineWords) -> Result<Setting, LineError>
    ensures { AnswersFrom (λ x. x) result words.new (read_row (setup.hold_row last_adapter) words.old) }
{
    let queue = take_queue(last_adapter, words)?;
    let index = take_u64(words)?;
    let lot = Lot::Hold(take_number(1, u64::from(u8::MAX), words)? as u8);
    Ok(Setting::Listed(WeatherLine::Lot { queue, index, lot }))
}

/// A timer that is hastened.
#[tactic(auto, unfolding(crate::specs::Setup::hasten_row))]
fn hasten(last_adapter: u8, words: &mut LineWords) -> Result<Setting, LineError>
    ensures { AnswersFrom (λ x. x) result words.new (read_row (setup.hasten_row last_adapter) words.old) }
{
    let queue = take_queue(last_adapter, words)?;
    let nth = take_u64(words)?;
    Ok(Setting::Listed(WeatherLine::Hasten { queue, nth }))
}

/// A weather line, by its second word.
#[tactic(auto, unfolding(crate::specs::Setup::weather_lines))]
fn weather(last_adapter: u8, words: &mut LineWords) -> Result<Setting, LineError>
    ensures { AnswersFrom (λ x. x) result words.new (read_table (setup.weather_lines last_adapter) words.old) }
{
    let name = words.take_word()?;
    if is_name(name, "seed") {
        seed(words)
    } else if is_name(name, "lose") {
        lose(last_adapter, words)
    } else if is_name(name, "repeat") {
        repeat(last_adapter, words)
    } else if is_name(name, "hold") {
        hold(last_adapter, words)
    } else if is_name(name, "hasten") {
        hasten(last_adapter, words)
    } else {
        Err(LineError::Refused(ScriptCause::UnknownWord))
    }
}

/// A setup line, by its first word.
#[tactic(auto, unfolding(crate::specs::Setup::setup_lines))]
pub(crate) fn take_setting(last_adapter: u8, words: &mut LineWords) -> Result<Setting, LineError>
    ensures { AnswersFrom (λ x. x) result words.new (read_table (setup.setup_lines last_adapter) words.old) }
{
    let name = words.take_word()?;
    if is_name(name, "adapters") {
        adapters(words)
    } else if is_name(name, "buffer") {
        buffer(last_adapter, words)
    } else if is_name(name, "slots") {
        slots(last_adapter, words)
    } else if is_name(name, "events") {
        events(words)
    } else if is_name(name, "weather") {
        weather(last_adapter, words)
    } else {
        Err(LineError::Refused(ScriptCause::UnknownWord))
    }
}

/// Whether a word begins a setup line.
#[tactic(auto, unfolding(crate::specs::Setup::is_setup_word))]
pub(crate) fn is_setup_word(name: &[u8]) -> bool
    ensures { result ≡ setup.is_setup_word name.now }
{
    is_name(name, "adapters")
        || is_name(name, "buffer")
        || is_name(name, "slots")
        || is_name(name, "events")
        || is_name(name, "weather")
}
