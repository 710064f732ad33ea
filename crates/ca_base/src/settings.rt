ghost use Rattle.std.specs.Prelude.{◌≡◌};
ghost use Rattle.ca_base.specs.Configuration as configuration;

use crate::config::{AdapterConfig, Config};
use crate::limits::{MAX_ADAPTERS, MAX_BUFFERS};
use crate::slots::{is_key_of, names_qp, slot_of_key};
use ca_keys::{DomainId, Key, QueueId, Slot};

/// An [`AdapterConfig`] in plain numbers, so that it can be copied: the first `buffer_count` of `buffers` are there.
#[derive(Clone, Copy, Default)]
pub struct AdapterSettings {
    pub buffers: [u32; MAX_BUFFERS],
    pub buffer_count: u8,
    pub domains: u8,
    pub regions: u16,
    pub windows: u16,
    pub cqs: u16,
    pub srqs: u16,
    pub qps: u16,
}

/// A [`Config`] in plain numbers, so that it can be copied: the first `adapter_count` of `adapters` are there.
#[derive(Clone, Copy)]
pub struct Settings {
    pub adapters: [AdapterSettings; MAX_ADAPTERS],
    pub adapter_count: u8,
    pub events: u32,
}

impl AdapterSettings {
    ghost use Rattle.std.specs.Prelude.{slice_get};

    fn of(adapter: &AdapterConfig) -> AdapterSettings
        ensures { configuration.adapter_in result ≡ configuration.adapter_of adapter.now }
    {
        let there = adapter.buffers.as_slice();
        let mut buffers = [0; MAX_BUFFERS];
        buffers[..there.len()].copy_from_slice(there);
        AdapterSettings {
            buffers,
            buffer_count: there.len() as u8,
            domains: adapter.domains,
            regions: adapter.regions,
            windows: adapter.windows,
            cqs: adapter.cqs,
            srqs: adapter.srqs,
            qps: adapter.qps,
        }
    }

    // The bytes of a buffer, if the adapter has it.
    fn buffer_length(&self, buffer: u16) -> Option<u32>
        ensures { result ≡ slice_get (configuration.adapter_in self.now).buffers buffer }
    {
        if buffer >= u16::from(self.buffer_count) {
            return None;
        }
        self.buffers.get(usize::from(buffer)).copied()
    }
}

impl Settings {
    ghost use Rattle.std.specs.Prelude.{◌<◌, if◌then◌else◌, IsTrue, None, option_copied};
    ghost use Rattle.std.specs.Option.{option_map};
    ghost use Rattle.ca_base.specs.objects.Slices as slices;

    /// The copy of a configuration.
    pub fn of(config: &Config) -> Settings
        ensures { configuration.configuration_in result ≡ configuration.configuration_of config.now }
    {
        let there = config.adapters.as_slice();
        let mut adapters = [AdapterSettings::default(); MAX_ADAPTERS];
        for i in 0..there.len() {
            adapters[i] = AdapterSettings::of(&there[i]);
        }
        Settings {
            adapters,
            adapter_count: there.len() as u8,
            events: config.events,
        }
    }

    // An adapter, if it is configured.
    fn adapter(&self, adapter: u8) -> Option<&AdapterSettings>
        ensures { option_map configuration.adapter_in (option_copied result)
            ≡ slices.adapter_at (configuration.configuration_in self.now) adapter }
    {
        if adapter >= self.adapter_count {
            return None;
        }
        self.adapters.get(usize::from(adapter))
    }

    // The adapter of a domain, if the domain is configured.
    fn adapter_of(&self, domain: DomainId) -> Option<&AdapterSettings>
        ensures { option_map configuration.adapter_in (option_copied result)
            ≡ (if slices.has_domain (configuration.configuration_in self.now) domain
            then slices.adapter_at (configuration.configuration_in self.now) domain.adapter else None) }
    {
        let adapter = self.adapter(domain.adapter)?;
        if domain.domain < adapter.domains {
            Some(adapter)
        } else {
            None
        }
    }

    /// Whether a domain is configured.
    pub fn has_domain(&self, domain: DomainId) -> bool
        ensures { result ≡ slices.has_domain (configuration.configuration_in self.now) domain }
    {
        match self.adapter(domain.adapter) {
            Some(adapter) => domain.domain < adapter.domains,
            None => false,
        }
    }

    /// Whether the slot of a memory region is configured.
    pub fn has_region(&self, slot: Slot) -> bool
        ensures { result ≡ slices.has_slot (configuration.configuration_in self.now) (λ a. a.regions) slot }
    {
        match self.adapter_of(slot.domain) {
            Some(adapter) => slot.slot < adapter.regions,
            None => false,
        }
    }

    /// Whether the slot of a memory window is configured.
    pub fn has_window(&self, slot: Slot) -> bool
        ensures { result ≡ slices.has_slot (configuration.configuration_in self.now) (λ a. a.windows) slot }
    {
        match self.adapter_of(slot.domain) {
            Some(adapter) => slot.slot < adapter.windows,
            None => false,
        }
    }

    /// Whether the slot of a completion queue is configured.
    pub fn has_cq(&self, slot: Slot) -> bool
        ensures { result ≡ slices.has_slot (configuration.configuration_in self.now) (λ a. a.cqs) slot }
    {
        match self.adapter_of(slot.domain) {
            Some(adapter) => slot.slot < adapter.cqs,
            None => false,
        }
    }

    /// Whether the slot of a shared receive queue is configured.
    pub fn has_srq(&self, slot: Slot) -> bool
        ensures { result ≡ slices.has_slot (configuration.configuration_in self.now) (λ a. a.srqs) slot }
    {
        match self.adapter_of(slot.domain) {
            Some(adapter) => slot.slot < adapter.srqs,
            None => false,
        }
    }

    /// Whether the slot of a queue pair is configured.
    pub fn has_qp(&self, slot: Slot) -> bool
        ensures { result ≡ slices.has_slot (configuration.configuration_in self.now) (λ a. a.qps) slot }
    {
        match self.adapter_of(slot.domain) {
            Some(adapter) => slot.slot < adapter.qps,
            None => false,
        }
    }

    /// Whether a queue pair's number is that of a configured slot. The domain of such a number has 8 bits.
    pub fn has_queue(&self, queue: QueueId) -> bool
        ensures value { result ≡ slices.has_queue (configuration.configuration_in self.now) queue }
        ensures narrow { IsTrue result → queue.number < 65792 }
    {
        if queue.number < 256 {
            return false;
        }
        match self.adapter(queue.adapter) {
            Some(adapter) => names_qp(queue.number, adapter.domains, adapter.qps),
            None => false,
        }
    }

    /// The bytes of a buffer. None comes exactly where it is not configured.
    pub fn buffer_length(&self, adapter: u8, buffer: u16) -> Option<u32>
        ensures { result ≡ slices.buffer_length (configuration.configuration_in self.now) adapter buffer }
    {
        self.adapter(adapter)?.buffer_length(buffer)
    }

    /// Whether a key names a configured region of a domain.
    pub fn names_region(&self, domain: DomainId, key: Key) -> bool
        ensures { result ≡ slices.names_region (configuration.configuration_in self.now) domain key }
    {
        !key.names_window() && is_key_of(domain, key) && self.has_region(slot_of_key(domain, key))
    }

    /// Whether a key names a configured window of a domain.
    pub fn names_window(&self, domain: DomainId, key: Key) -> bool
        ensures { result ≡ slices.names_window (configuration.configuration_in self.now) domain key }
    {
        key.names_window() && is_key_of(domain, key) && self.has_window(slot_of_key(domain, key))
    }
}
