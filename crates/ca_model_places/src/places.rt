ghost use Rattle.std.specs.Prelude.{◌≡◌, ◌≤◌, ◌<◌, ◌+◌, ◌*◌, ◌^◌, IsTrue, is_some, length, map, option_copied, sum_by};
ghost use Rattle.std.specs.Option.{option_map};
ghost use Rattle.ca_base.specs.declared.limits.TheConstants.{MAX_ADAPTERS};
ghost use Rattle.ca_base.specs.Configuration.{adapter_in, configuration_in, parts_of_adapter};
ghost use Rattle.ca_base.specs.objects.Slices as slices;
ghost use Rattle.ca_model.specs.machine.Parts.{is_configured_part};
ghost use Rattle.ca_model_places.specs.Places as row;

use ca_base::limits::{MAX_ADAPTERS, MAX_BUFFERS};
use ca_base::{AdapterSettings, DomainId, Settings, slot_of_queue};
use ca_model::PartName;

/// The place of a part in the row of all parts, from 0 on: adapter by adapter, in each the parts of its domains, then
/// its buffers; in each domain the control part, then queue pairs, mailboxes, completion queues, shared receive queues,
/// windows and regions, by slot. None comes exactly where the name lies outside the configured slices. It takes no
/// memory.
#[tactic(auto, using(crate::proofs::PlaceLemmas::adapters_before))]
pub fn place(settings: &Settings, name: &PartName) -> Option<u32>
    ensures { result ≡ row.place_of (configuration_in settings.now) name.now }
{
    let name = *name;
    if !is_part(settings, name) {
        return None;
    }
    let number = domain_of(name).adapter;
    let adapter = adapter_at(settings, number)?;
    let before = part_sum(&settings.adapters[..usize::from(number)]);
    Some(before + place_at(adapter, name))
}

/// Whether a part is configured. It takes no memory.
pub fn is_configured(settings: &Settings, name: &PartName) -> bool
    ensures { result ≡ is_configured_part (configuration_in settings.now) name.now }
{
    is_part(settings, *name)
}

/// Whether a part is configured. The domain of one that is has 8 bits.
fn is_part(settings: &Settings, name: PartName) -> bool
    ensures value { result ≡ is_configured_part (configuration_in settings.now) name }
    ensures narrow { IsTrue result → (row.domain_of_part name).domain < 256 }
{
    match name {
        PartName::Control(domain) => settings.has_domain(domain),
        PartName::Queue(queue) => settings.has_queue(queue),
        PartName::Mailbox(queue) => settings.has_queue(queue),
        PartName::Cq(slot) => settings.has_cq(slot),
        PartName::Srq(slot) => settings.has_srq(slot),
        PartName::Window(slot) => settings.has_window(slot),
        PartName::Region(slot) => settings.has_region(slot),
        PartName::Buffer { adapter, index } => settings.buffer_length(adapter, index).is_some(),
    }
}

/// The domain of a part. That of a buffer is its adapter's first.
fn domain_of(name: PartName) -> DomainId
    requires { (row.domain_of_part name).domain < 256 }
    ensures { result ≡ row.domain_of_part name }
{
    match name {
        PartName::Control(domain) => domain,
        PartName::Queue(queue) => slot_of_queue(queue).domain,
        PartName::Mailbox(queue) => slot_of_queue(queue).domain,
        PartName::Cq(slot) => slot.domain,
        PartName::Srq(slot) => slot.domain,
        PartName::Window(slot) => slot.domain,
        PartName::Region(slot) => slot.domain,
        PartName::Buffer { adapter, .. } => DomainId { adapter, domain: 0 },
    }
}

/// An adapter, if it is configured.
fn adapter_at(settings: &Settings, adapter: u8) -> Option<&AdapterSettings>
    ensures value { option_map adapter_in (option_copied result)
        ≡ slices.adapter_at (configuration_in settings.now) adapter }
    ensures within { IsTrue (is_some result) → (adapter < settings.now.adapter_count) × (adapter < MAX_ADAPTERS) }
{
    if adapter >= settings.adapter_count {
        return None;
    }
    settings.adapters.get(usize::from(adapter))
}

/// How many parts these adapters have.
fn part_sum(adapters: &[AdapterSettings]) -> u32
    requires { length adapters.now ≤ MAX_ADAPTERS }
    ensures value { result ≡ sum_by parts_of_adapter (map adapter_in adapters.now) }
    ensures most { result ≤ length adapters.now * 2 ^ 28 }
{
    let mut sum = 0;
    for adapter in adapters {
        sum += parts_at(adapter);
    }
    sum
}

/// How many parts an adapter has: those of its domains, and its buffers.
fn parts_at(adapter: &AdapterSettings) -> u32
    ensures value { result ≡ parts_of_adapter (adapter_in adapter.now) }
    ensures most { result ≤ 2 ^ 28 }
{
    let buffers = u32::from(adapter.buffer_count).min(MAX_BUFFERS as u32);
    u32::from(adapter.domains) * domain_parts(adapter) + buffers
}

/// How many parts each domain of an adapter has.
fn domain_parts(adapter: &AdapterSettings) -> u32
    ensures value { result ≡ row.domain_parts (adapter_in adapter.now) }
    ensures most { result < 2 ^ 19 }
{
    1 + u32::from(adapter.regions)
        + u32::from(adapter.windows)
        + u32::from(adapter.cqs)
        + u32::from(adapter.srqs)
        + 2 * u32::from(adapter.qps)
}

/// How many parts stand before this one at its adapter.
fn place_at(adapter: &AdapterSettings, name: PartName) -> u32
    requires { (row.domain_of_part name).domain < 256 }
    ensures value { result ≡ row.place_at name (adapter_in adapter.now) }
    ensures most { result < 2 ^ 28 }
{
    u32::from(domain_of(name).domain) * domain_parts(adapter) + place_in_domain(adapter, name)
}

/// How many parts stand before this one in its domain; a buffer stands behind all domains.
fn place_in_domain(adapter: &AdapterSettings, name: PartName) -> u32
    ensures value { result ≡ row.place_in_domain (adapter_in adapter.now) name }
    ensures most { result < 2 ^ 27 + 2 ^ 20 }
{
    let qps = u32::from(adapter.qps);
    let cqs = 1 + 2 * qps;
    let srqs = cqs + u32::from(adapter.cqs);
    let windows = srqs + u32::from(adapter.srqs);
    let regions = windows + u32::from(adapter.windows);
    match name {
        PartName::Control(_) => 0,
        PartName::Queue(queue) => 1 + queue.number % 256,
        PartName::Mailbox(queue) => 1 + qps + queue.number % 256,
        PartName::Cq(slot) => cqs + u32::from(slot.slot),
        PartName::Srq(slot) => srqs + u32::from(slot.slot),
        PartName::Window(slot) => windows + u32::from(slot.slot),
        PartName::Region(slot) => regions + u32::from(slot.slot),
        PartName::Buffer { index, .. } => {
            u32::from(adapter.domains) * domain_parts(adapter) + u32::from(index)
        }
    }
}
