ghost use Rattle.std.specs.Prelude.{◌≡◌, ◌<◌, ◌++◌, ◌∷◌, [], map, OnOk, IfOk};
ghost use Rattle.ca_base.specs.Configuration.{adapter_of};
ghost use Rattle.ca_script_seed.specs.Made as made;
ghost use Rattle.ca_script.specs.Script.{script_value};

use crate::pair::pair;
use crate::requests::add_requests;
use arrayvec::ArrayVec;
use ca_base::limits::{MAX_ADAPTERS, MAX_EVENTS};
use ca_base::{AdapterConfig, Config, Memory};
use ca_script::{Consumers, Lines, Script, Weather, plain_adapter};
use std::alloc::Global;

/// How many pairs there are.
const PAIRS: u8 = 4;

/// The lines of a consumer that posts requests.
fn active(alloc: Global, seed: u64, domain: u8) -> Result<Lines, Memory>
    requires { domain < 4 }
    ensures { IfOk result (λ lines. lines ≡ made.active seed domain) }
{
    let number = 5 + 407 * u32::from(domain);
    let mut lines = pair(alloc, number, 0, domain)?;
    add_requests(&mut lines, number + 7, seed, domain)?;
    Ok(Lines::from(lines))
}

/// The lines of a consumer that posts none.
fn passive(alloc: Global, domain: u8) -> Result<Lines, Memory>
    requires { domain < 4 }
    ensures { IfOk result (λ lines. lines ≡ made.passive domain) }
{
    Ok(Lines::from(pair(alloc, 1633 + 7 * u32::from(domain), 1, domain)?))
}

/// Adds the consumers that post requests.
#[tactic(auto, using(crate::proofs::MadeLemmas::steps))]
fn add_active(alloc: Global, seed: u64, consumers: &mut Vec<Lines>) -> Result<(), Memory>
    ensures { OnOk result (consumers.new.items ≡ consumers.old.items ++ made.each_from (made.active seed) 0 4) }
{
    for d in 0..PAIRS {
        consumers.push(active(alloc, seed, d)?)?;
    }
    Ok(())
}

/// Adds the consumers that post none.
#[tactic(auto, using(crate::proofs::MadeLemmas::steps))]
fn add_passive(alloc: Global, consumers: &mut Vec<Lines>) -> Result<(), Memory>
    ensures { OnOk result (consumers.new.items ≡ consumers.old.items ++ made.each_from made.passive 0 4) }
{
    for d in 0..PAIRS {
        consumers.push(passive(alloc, d)?)?;
    }
    Ok(())
}

/// An adapter with one buffer.
fn adapter() -> AdapterConfig
    ensures { adapter_of result ≡ made.made_adapter }
{
    let mut adapter = plain_adapter();
    adapter.buffers = ArrayVec::new();
    adapter.buffers.push(65536);
    adapter
}

/// The two adapters.
fn adapters() -> ArrayVec<AdapterConfig, MAX_ADAPTERS>
    ensures { map adapter_of result.items ≡ made.made_adapter ∷ made.made_adapter ∷ [] }
{
    let mut adapters = ArrayVec::new();
    adapters.push(adapter());
    adapters.push(adapter());
    adapters
}

/// The made script of a seed. Its lines have the numbers that they have in its text.
#[tactic(auto, unfolding(crate::specs::Made::made_script))]
pub fn generate(alloc: Global, seed: u64) -> Result<Script, Memory>
    ensures { IfOk result (λ script. script_value script ≡ made.made_script seed) }
{
    let mut consumers = Vec::new(alloc);
    add_active(alloc, seed, &mut consumers)?;
    add_passive(alloc, &mut consumers)?;
    Ok(Script {
        config: Config {
            adapters: adapters(),
            events: MAX_EVENTS,
        },
        weather: Weather::Seeded(seed),
        consumers: Consumers::from(consumers),
    })
}
