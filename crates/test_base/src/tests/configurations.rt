use super::{copy_of, holds};
use arrayvec::ArrayVec;
use ca_base::{
    AdapterConfig, AdapterSettings, Config, DomainId, Key, QueueId, Settings, Slot, part_count,
    slot_of_key, slot_of_queue,
};

// An adapter with as many buffers as there may be.
fn adapter() -> AdapterConfig {
    AdapterConfig {
        buffers: ArrayVec::from(BUFFERS),
        domains: 16,
        regions: 8,
        windows: 8,
        cqs: 4,
        srqs: 2,
        qps: 4,
    }
}

// As many adapters as there may be.
fn configuration() -> Option<Config> {
    let adapter = adapter();
    let mut adapters = ArrayVec::new();
    for _ in 0..8 {
        adapters.try_push(adapter.clone().ok()?).ok()?;
    }
    Some(Config {
        adapters,
        events: 131_072,
    })
}

const BUFFERS: [u32; 16] = [1, 2, 3, 4, 5, 6, 7, 8, 9, 10, 11, 12, 13, 14, 15, 16];

/// The slots of regions, windows, completion queues, shared receive queues and queue pairs.
const SLOTS: [u16; 5] = [8, 8, 4, 2, 4];

fn is_full(buffers: &[u32], domains: u8, slots: &[u16]) -> bool {
    buffers == BUFFERS.as_slice() && domains == 16 && slots == SLOTS.as_slice()
}

fn is_the_adapter(adapter: &AdapterConfig) -> bool {
    let slots = [
        adapter.regions,
        adapter.windows,
        adapter.cqs,
        adapter.srqs,
        adapter.qps,
    ];
    is_full(
        adapter.buffers.as_slice(),
        adapter.domains,
        slots.as_slice(),
    )
}

fn is_the_adapter_in_numbers(adapter: &AdapterSettings) -> bool {
    let slots = [
        adapter.regions,
        adapter.windows,
        adapter.cqs,
        adapter.srqs,
        adapter.qps,
    ];
    let buffers = adapter.buffers.as_slice();
    is_full(buffers, adapter.domains, slots.as_slice()) && adapter.buffer_count == 16
}

fn is_the_greatest(config: &Config) -> bool {
    let mut all = config.events == 131_072 && config.adapters.len() == 8;
    for adapter in config.adapters.as_slice() {
        all = all && is_the_adapter(adapter);
    }
    all
}

// 16 domains of 31 parts and 16 buffers, eight times.
#[test]
fn the_greatest_configuration_has_4096_parts(rt: HostRuntime) {
    let config = configuration().and_then(copy_of);
    holds(
        &rt,
        matches!(&config, Some(config) if is_the_greatest(config) && part_count(config) == 4096),
        "the same configuration, and its parts",
    );
}

fn are_the_greatest(settings: &Settings) -> bool {
    let mut all = settings.events == 131_072 && settings.adapter_count == 8;
    for adapter in settings.adapters.as_slice() {
        all = all && is_the_adapter_in_numbers(adapter);
    }
    all
}

#[test]
fn settings_are_the_configuration_in_plain_numbers(rt: HostRuntime) {
    let config = configuration();
    holds(
        &rt,
        matches!(&config, Some(config) if are_the_greatest(&Settings::of(config))),
        "the settings",
    );
}

/// The last domain of the last adapter.
const LAST: DomainId = DomainId {
    adapter: 7,
    domain: 15,
};

fn slot(slot: u16) -> Slot {
    Slot { domain: LAST, slot }
}

fn queue(number: u32) -> QueueId {
    QueueId { adapter: 7, number }
}

// Whether these slots of regions, windows, completion queues, shared receive queues and queue pairs are configured.
fn has_slots(settings: &Settings, slots: [u16; 5]) -> [bool; 5] {
    [
        settings.has_region(slot(slots[0])),
        settings.has_window(slot(slots[1])),
        settings.has_cq(slot(slots[2])),
        settings.has_srq(slot(slots[3])),
        settings.has_qp(slot(slots[4])),
    ]
}

fn has_the_slots(settings: &Settings) -> bool {
    let other = DomainId {
        adapter: 7,
        domain: 16,
    };
    has_slots(settings, [7, 7, 3, 1, 3]) == [true; 5]
        && has_slots(settings, SLOTS) == [false; 5]
        && settings.has_domain(LAST)
        && !settings.has_domain(other)
}

/// The queue pair in slot 3 of domain 15.
const QUEUE: QueueId = QueueId {
    adapter: 7,
    number: 4099,
};

fn has_the_queues(settings: &Settings) -> bool {
    settings.has_queue(QUEUE)
        && !settings.has_queue(queue(4100))
        && !settings.has_queue(queue(3))
        && slot_of_queue(QUEUE) == slot(3)
}

// The index of the region in slot 7 of domain 15 is 0x0f0007, and that of the window is 0x0f8007.
fn has_the_keys(settings: &Settings) -> bool {
    settings.names_region(LAST, Key(0x0f00_0701))
        && !settings.names_region(LAST, Key(0x0e00_0701))
        && !settings.names_region(LAST, Key(0x0f80_0701))
        && settings.names_window(LAST, Key(0x0f80_0701))
        && !settings.names_window(LAST, Key(0x0f80_0801))
        && slot_of_key(LAST, Key(0x0f80_0701)) == slot(7)
}

fn has_the_buffers(settings: &Settings) -> bool {
    settings.buffer_length(7, 15) == Some(16)
        && settings.buffer_length(7, 16).is_none()
        && settings.buffer_length(8, 0).is_none()
}

#[test]
fn settings_know_which_names_are_configured(rt: HostRuntime) {
    let config = configuration();
    let settings = config.map(|config| Settings::of(&config));
    holds(
        &rt,
        matches!(&settings, Some(settings) if has_the_slots(settings) && has_the_queues(settings)),
        "slots and queue pairs",
    );
    holds(
        &rt,
        matches!(&settings, Some(settings) if has_the_keys(settings) && has_the_buffers(settings)),
        "keys and buffers",
    );
}
