ghost use Rattle.std.specs.Prelude.{◌≡◌, ◌*◌, ◌<◌, ◌≤◌, ◌^◌, IsTrue, length, map, sum_by};
ghost use Rattle.std.specs.List.{AllByRecursion};
ghost use Rattle.ca_base.specs.Configuration.{adapter_of, configuration_of};
ghost use Rattle.ca_base.specs.declared.limits.TheConstants.{MAX_ADAPTERS};
ghost use Rattle.ca_engine.specs.Loop.{most_offers};
ghost use Rattle.ca_model.specs.machine.Sound.{AreLimited};
ghost use Rattle.ca_script.specs.Script.{script_value};
ghost use Rattle.ca_script_run.specs.Working.{IsWorkable};

use ca_adapter_store::ca_adapter_opening::is_limited;
use ca_base::AdapterConfig;
use ca_script::{Lines, Script};

/// Whether a script can be worked: its configuration keeps to the limits of this profile, and its consumers and the offers
/// that it may need can be counted. Whoever made a script by hand asks it before it is worked; what a text means, and what
/// a seed makes, can always be worked.
pub fn is_workable(script: &Script) -> bool
    ensures yes { IsTrue result → IsWorkable (script_value script.now) }
    ensures no { IsWorkable (script_value script.now) → IsTrue result }
{
    is_limited(&script.config)
        && u32::try_from(script.consumers.as_slice().len()).is_ok()
        && are_countable_offers(script)
}

/// Whether the offers that a script may need are fewer than 2^64.
fn are_countable_offers(script: &Script) -> bool
    requires limited { AreLimited (configuration_of script.now.config) }
    requires consumers { length script.now.consumers < 2 ^ 32 }
    ensures yes { IsTrue result → most_offers (script_value script.now) < 2 ^ 64 }
    ensures no { most_offers (script_value script.now) < 2 ^ 64 → IsTrue result }
{
    let consumers = script.consumers.as_slice();
    let rounds = line_count(consumers) + u128::from(script.config.events) + 1;
    let offers = consumers.len() as u128
        + 5 * u128::from(slot_count(script.config.adapters.as_slice()));
    let most = u128::from(u64::MAX);
    rounds <= most && rounds * offers <= most
}

/// How many lines the consumers have together.
fn line_count(consumers: &[Lines]) -> u128
    requires { length consumers.now < 2 ^ 32 }
    ensures value { result ≡ sum_by (λ lines. length lines) consumers.now }
    ensures most { result < 2 ^ 96 }
{
    let mut count = 0;
    for lines in consumers {
        count += lines.as_slice().len() as u128;
    }
    count
}

/// How many slots of queue pairs these adapters have together.
fn slot_count(adapters: &[AdapterConfig]) -> u64
    requires { length adapters.now ≤ MAX_ADAPTERS }
    ensures value { result ≡ sum_by (λ a. a.domains * a.qps) (map adapter_of adapters.now) }
    ensures most { result < 2 ^ 40 }
{
    let mut count = 0;
    for adapter in adapters {
        count += u64::from(adapter.domains) * u64::from(adapter.qps);
    }
    count
}
