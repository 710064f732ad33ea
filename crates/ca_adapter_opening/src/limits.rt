ghost use Rattle.std.specs.Prelude.{◌≡◌, ◌≤◌, ◌<◌, ◌^◌, IsTrue, length, map, sum_by, take};
ghost use Rattle.std.specs.List.{AllByRecursion};
ghost use Rattle.ca_base.specs.Configuration.{adapter_of, configuration_of};
ghost use Rattle.ca_base.specs.declared.limits.TheConstants.{MAX_ADAPTERS, MAX_BUFFERS, MAX_BUFFER_BYTES};
ghost use Rattle.ca_model.specs.machine.Sound.{AreLimited, IsLimitedAdapter};
ghost use Rattle.ca_adapter_opening.specs.Limits.{IsWithin};
ghost use Rattle.ca_adapter_opening.specs.Opening as machine;

use ca_base::limits::{
    MAX_BUFFER_BYTES, MAX_CQS, MAX_DOMAINS, MAX_EVENTS, MAX_PARTS, MAX_QPS, MAX_REGIONS, MAX_SRQS,
    MAX_TOTAL_BYTES, MAX_WINDOWS,
};
use ca_base::{AdapterConfig, Bytes, Config, part_count};
use ca_model::Opening;

/// Whether a configuration keeps to the limits of this profile: each of its numbers, and the parts. A caller asks it before
/// it opens a fabric.
pub fn is_limited(config: &Config) -> bool
    ensures yes { IsTrue result → AreLimited (configuration_of config.now) }
    ensures no { AreLimited (configuration_of config.now) → IsTrue result }
{
    let within = is_within(config);
    let parts = part_count(config);
    within && parts <= u64::from(MAX_PARTS)
}

/// Whether each number of a configuration is within its limits: there is an adapter, each keeps to its own limits, and so do
/// the bytes of all buffers together and the events. Of the number of parts it says nothing.
pub fn is_within(config: &Config) -> bool
    ensures yes { IsTrue result → IsWithin (configuration_of config.now) }
    ensures no { IsWithin (configuration_of config.now) → IsTrue result }
{
    let adapters = config.adapters.as_slice();
    let each = are_limited_adapters(adapters);
    let bytes = byte_count(adapters);
    !adapters.is_empty()
        && each
        && bytes <= u64::from(MAX_TOTAL_BYTES)
        && config.events >= 1
        && config.events <= MAX_EVENTS
}

/// Whether each adapter keeps to its limits.
fn are_limited_adapters(adapters: &[AdapterConfig]) -> bool
    ensures yes { IsTrue result → AllByRecursion IsLimitedAdapter (map adapter_of adapters.now) }
    ensures no { AllByRecursion IsLimitedAdapter (map adapter_of adapters.now) → IsTrue result }
{
    for adapter in adapters {
        if !is_limited_adapter(adapter) {
            return false;
        }
    }
    true
}

/// Whether an adapter keeps to its limits.
fn is_limited_adapter(adapter: &AdapterConfig) -> bool
    ensures yes { IsTrue result → IsLimitedAdapter (adapter_of adapter.now) }
    ensures no { IsLimitedAdapter (adapter_of adapter.now) → IsTrue result }
{
    let sizes = are_limited_sizes(adapter.buffers.as_slice());
    sizes
        && adapter.domains >= 1
        && adapter.domains <= MAX_DOMAINS
        && adapter.regions <= MAX_REGIONS
        && adapter.windows <= MAX_WINDOWS
        && adapter.cqs <= MAX_CQS
        && adapter.srqs <= MAX_SRQS
        && adapter.qps <= MAX_QPS
}

/// Whether each buffer has a byte at least, and few enough.
fn are_limited_sizes(sizes: &[u32]) -> bool
    ensures least { IsTrue result → AllByRecursion (λ bytes. 1 ≤ bytes) sizes.now }
    ensures most { IsTrue result → AllByRecursion (λ bytes. bytes ≤ MAX_BUFFER_BYTES) sizes.now }
    ensures no { AllByRecursion (λ bytes. 1 ≤ bytes) sizes.now → AllByRecursion (λ bytes. bytes ≤ MAX_BUFFER_BYTES) sizes.now
        → IsTrue result }
{
    for size in sizes {
        if *size == 0 || *size > MAX_BUFFER_BYTES {
            return false;
        }
    }
    true
}

/// The bytes of all buffers of these adapters.
fn byte_count(adapters: &[AdapterConfig]) -> u64
    requires { length adapters.now ≤ MAX_ADAPTERS }
    ensures { result ≡ sum_by (λ a. sum_by (λ bytes. bytes) a.buffers) (map adapter_of adapters.now) }
{
    let mut count = 0;
    for adapter in adapters {
        count += size_sum(adapter.buffers.as_slice());
    }
    count
}

/// The bytes of buffers of these sizes.
fn size_sum(sizes: &[u32]) -> u64
    requires { length sizes.now ≤ MAX_BUFFERS }
    ensures value { result ≡ sum_by (λ bytes. bytes) sizes.now }
    ensures most { result < 2 ^ 37 }
{
    let mut count = 0;
    for size in sizes {
        count += u64::from(*size);
    }
    count
}

/// Whether the contents of an opening are those of its configured buffers, each of the configured length. A caller asks
/// it before it opens a fabric.
pub fn fit_contents(opening: &Opening) -> bool
    ensures yes { IsTrue result → machine.FitContents (configuration_of opening.now.config) opening.now.contents }
    ensures no { machine.FitContents (configuration_of opening.now.config) opening.now.contents → IsTrue result }
{
    fit_adapters(
        opening.config.adapters.as_slice(),
        opening.contents.as_slice(),
    )
}

/// Whether contents are those of the buffers of these adapters.
fn fit_adapters(adapters: &[AdapterConfig], contents: &[Bytes]) -> bool
    ensures yes { IsTrue result → map length contents.now ≡ machine.buffer_lengths (map adapter_of adapters.now) }
    ensures no { map length contents.now ≡ machine.buffer_lengths (map adapter_of adapters.now) → IsTrue result }
{
    let mut rest = contents;
    for adapter in adapters {
        let sizes = adapter.buffers.as_slice();
        if !begin_with(rest, sizes) {
            return false;
        }
        rest = &rest[sizes.len()..];
    }
    rest.is_empty()
}

/// Whether contents begin with those of buffers of these sizes.
fn begin_with(contents: &[Bytes], sizes: &[u32]) -> bool
    ensures enough { IsTrue result → length sizes.now ≤ length contents.now }
    ensures yes { IsTrue result → take (length sizes.now) (map length contents.now) ≡ sizes.now }
    ensures no { take (length sizes.now) (map length contents.now) ≡ sizes.now → IsTrue result }
{
    if contents.len() < sizes.len() {
        return false;
    }
    for index in 0..sizes.len() {
        if contents[index].as_slice().len() as u64 != u64::from(sizes[index]) {
            return false;
        }
    }
    true
}
