ghost use Rattle.std.specs.Prelude.{◌≡◌, ◌≤◌, nat_lt, true, length, map, replicate};
ghost use Rattle.ca_base.specs.Configuration.{adapter_of};
ghost use Rattle.ca_base.specs.declared.limits.TheConstants.{MAX_ADAPTERS, MAX_BUFFERS};
ghost use Rattle.ca_script.specs.Setup as setup;

use crate::setting::SlotCounts;
use arrayvec::ArrayVec;
use ca_base::limits::{MAX_ADAPTERS, MAX_BUFFERS};
use ca_base::{AdapterConfig, Config};
use ca_mailbox::Weather;

/// What the setup lines so far say.
#[derive(Drop)]
pub(crate) struct SetupSoFar {
    /// A setup line was there.
    pub begun: bool,
    pub config: Config,
    /// The adapters that a `slots` line named.
    pub slotted: Vec<u8>,
    /// An `events` line was there.
    pub limited: bool,
    pub weather: Weather,
}

/// An adapter that no line of a script speaks of.
pub fn plain_adapter() -> AdapterConfig
    ensures { adapter_of result ≡ setup.plain_adapter }
{
    AdapterConfig {
        buffers: ArrayVec::new(),
        domains: 4,
        regions: 8,
        windows: 8,
        cqs: 4,
        srqs: 2,
        qps: 4,
    }
}

/// So many adapters that no line speaks of.
#[tactic(auto, using(crate::proofs::SetupLemmas::making))]
pub(crate) fn plain_adapters(count: u8) -> ArrayVec<AdapterConfig, MAX_ADAPTERS>
    requires { count ≤ MAX_ADAPTERS }
    ensures { map adapter_of result.items ≡ replicate count setup.plain_adapter }
{
    let mut adapters = ArrayVec::new();
    for _i in 0..count {
        adapters.push(plain_adapter());
    }
    adapters
}

/// Adds a buffer, where there may be one more.
fn push_buffer(adapter: &mut AdapterConfig, bytes: u32) -> bool
    ensures room { result ≡ nat_lt (length adapter.old.buffers.items) MAX_BUFFERS }
    ensures added { result ≡ true → adapter_of adapter.new ≡ setup.with_buffer bytes (adapter_of adapter.old) }
{
    if adapter.buffers.as_slice().len() < MAX_BUFFERS {
        adapter.buffers.push(bytes);
        true
    } else {
        false
    }
}

/// Sets domains and slots.
fn set_counts(adapter: &mut AdapterConfig, counts: SlotCounts)
    ensures { adapter_of adapter.new ≡ setup.with_slots counts (adapter_of adapter.old) }
{
    adapter.domains = counts.domains;
    adapter.regions = counts.regions;
    adapter.windows = counts.windows;
    adapter.cqs = counts.cqs;
    adapter.srqs = counts.srqs;
    adapter.qps = counts.qps;
}

/// Adds a buffer to an adapter, where it may have one more.
#[tactic(auto, using(crate::proofs::SetupLemmas::changing))]
pub(crate) fn add_buffer(adapters: &mut [AdapterConfig], adapter: u8, bytes: u32) -> bool
    ensures room { result ≡ setup.has_buffer_left adapter (map adapter_of adapters.old) }
    ensures added { result ≡ true → map adapter_of adapters.new
        ≡ setup.with_adapter adapter (setup.with_buffer bytes) (map adapter_of adapters.old) }
{
    let adapter = usize::from(adapter);
    if adapter < adapters.len() {
        push_buffer(&mut adapters[adapter], bytes)
    } else {
        false
    }
}

/// Sets the domains and the slots of an adapter.
#[tactic(auto, using(crate::proofs::SetupLemmas::changing))]
pub(crate) fn set_slots(adapters: &mut [AdapterConfig], adapter: u8, counts: SlotCounts)
    ensures { map adapter_of adapters.new
        ≡ setup.with_adapter adapter (setup.with_slots counts) (map adapter_of adapters.old) }
{
    let adapter = usize::from(adapter);
    if adapter < adapters.len() {
        set_counts(&mut adapters[adapter], counts);
    }
}
