ghost use Rattle.std.specs.Prelude.{◌≡◌, ◌+◌, ◌*◌, ◌^◌, ◌<◌};
ghost use Rattle.ca_base.specs.Configuration as configuration;

use crate::limits::{MAX_ADAPTERS, MAX_BUFFERS};
use arrayvec::ArrayVec;

/// How many of each thing an adapter has: the bytes of each buffer, its domains, and in each domain the slots of
/// regions, windows, completion queues, shared receive queues and queue pairs.
#[derive(Clone, Default, Drop)]
pub struct AdapterConfig {
    pub buffers: ArrayVec<u32, MAX_BUFFERS>,
    pub domains: u8,
    pub regions: u16,
    pub windows: u16,
    pub cqs: u16,
    pub srqs: u16,
    pub qps: u16,
}

/// The adapters of a fabric, and how many events it may make.
#[derive(Clone, Drop)]
pub struct Config {
    pub adapters: ArrayVec<AdapterConfig, MAX_ADAPTERS>,
    pub events: u32,
}

/// The parts of one domain: its control part, one part for each region, window, completion queue and shared receive
/// queue, and two for each queue pair.
fn parts_of_domain(regions: u16, windows: u16, cqs: u16, srqs: u16, qps: u16) -> u64
    ensures value { result ≡ 1 + regions + windows + cqs + srqs + 2 * qps }
    ensures most { result < 2 ^ 19 }
{
    1 + u64::from(regions)
        + u64::from(windows)
        + u64::from(cqs)
        + u64::from(srqs)
        + 2 * u64::from(qps)
}

impl AdapterConfig {
    /// How many parts the adapter has: those of its domains, and one for each buffer.
    fn part_count(&self) -> u64
        ensures value { result ≡ configuration.parts_of_adapter (configuration.adapter_of self.now) }
        ensures most { result < 2 ^ 28 }
    {
        let domains = self.domains;
        let parts = parts_of_domain(self.regions, self.windows, self.cqs, self.srqs, self.qps);
        u64::from(domains) * parts + self.buffers.len() as u64
    }
}

/// How many parts a fabric of this configuration has, summed over its adapters.
pub fn part_count(config: &Config) -> u64
    ensures { result ≡ configuration.part_count (configuration.configuration_of config.now) }
{
    let mut count = 0;
    for adapter in config.adapters.as_slice() {
        count += adapter.part_count();
    }
    count
}
