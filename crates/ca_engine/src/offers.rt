ghost use Rattle.std.specs.Prelude.{◌≡◌, ◌++◌, ◌<◌, map, IfOk, OnOk};
ghost use Rattle.std.specs.List.{flat_map};
ghost use Rattle.ca_base.specs.Configuration.{adapter_of, configuration_of};
ghost use Rattle.ca_keys.specs.Numbers.{queue_of};
ghost use Rattle.ca_script_order.specs.Visits.{all_queues, numbers_below, queues_of_adapter};
ghost use Rattle.ca_engine.specs.Offers.{timers_of_queue, turns_of_queue};
ghost use Rattle.ca_engine.specs.declared.offer.Offer.TheVariants as variants;

use crate::offer::Offer;
use ca_base::{AdapterConfig, Config, DomainId, Memory, QueueId, Slot, Turn};
use std::alloc::Global;

/// Adds the queue pairs of a domain with so many slots.
fn add_queues_of_domain(
    queues: &mut Vec<QueueId>,
    domain: DomainId,
    slots: u16,
) -> Result<(), Memory>
    ensures { OnOk result (queues.new.items ≡ queues.old.items
        ++ map (λ s. queue_of (record { domain = domain; slot = s })) (numbers_below slots)) }
{
    for slot in 0..slots {
        queues.push(QueueId::of_slot(Slot { domain, slot }))?;
    }
    Ok(())
}

/// Adds the queue pairs of an adapter.
fn add_queues_of_adapter(
    queues: &mut Vec<QueueId>,
    adapter: u8,
    config: &AdapterConfig,
) -> Result<(), Memory>
    ensures { OnOk result (queues.new.items ≡ queues.old.items
        ++ queues_of_adapter adapter (adapter_of config.now)) }
{
    for domain in 0..config.domains {
        add_queues_of_domain(queues, DomainId { adapter, domain }, config.qps)?;
    }
    Ok(())
}

/// All queue pairs of a configuration, in rising adapter and number.
pub(crate) fn queues_of(alloc: Global, config: &Config) -> Result<Vec<QueueId>, Memory>
    ensures { IfOk result (λ queues. queues.items ≡ all_queues (configuration_of config.now)) }
{
    let mut queues = Vec::new(alloc);
    let mut number: u8 = 0;
    for adapter in config.adapters.as_slice() {
        add_queues_of_adapter(&mut queues, number, adapter)?;
        number += 1;
    }
    Ok(queues)
}

/// Adds the consumers, by their numbers.
fn add_consumers(offers: &mut Vec<Offer>, consumers: u32) -> Result<(), Memory>
    ensures { OnOk result (offers.new.items ≡ offers.old.items
        ++ map variants.Consumer (numbers_below consumers)) }
{
    for consumer in 0..consumers {
        offers.push(Offer::Consumer(consumer))?;
    }
    Ok(())
}

/// Adds what a round tries at a queue pair.
fn add_turns(offers: &mut Vec<Offer>, queue: QueueId) -> Result<(), Memory>
    ensures { OnOk result (offers.new.items ≡ offers.old.items ++ turns_of_queue queue) }
{
    offers.push(Offer::Turn(Turn::Due(queue)))?;
    offers.push(Offer::Turn(Turn::Respond(queue)))?;
    offers.push(Offer::Turn(Turn::Request(queue)))?;
    Ok(())
}

/// Adds what a timer pass tries at a queue pair.
fn add_timers(offers: &mut Vec<Offer>, queue: QueueId) -> Result<(), Memory>
    ensures { OnOk result (offers.new.items ≡ offers.old.items ++ timers_of_queue queue) }
{
    offers.push(Offer::Turn(Turn::RnrWake(queue)))?;
    offers.push(Offer::Turn(Turn::Timeout(queue)))?;
    Ok(())
}

/// What a round offers.
pub(crate) fn round_of(
    alloc: Global,
    consumers: u32,
    queues: &[QueueId],
) -> Result<Vec<Offer>, Memory>
    ensures { IfOk result (λ offers. offers.items ≡ map variants.Consumer (numbers_below consumers)
        ++ flat_map turns_of_queue queues.now) }
{
    let mut offers = Vec::new(alloc);
    add_consumers(&mut offers, consumers)?;
    for queue in queues {
        add_turns(&mut offers, *queue)?;
    }
    Ok(offers)
}

/// What a timer pass offers.
pub(crate) fn timers_of(alloc: Global, queues: &[QueueId]) -> Result<Vec<Offer>, Memory>
    ensures { IfOk result (λ offers. offers.items ≡ flat_map timers_of_queue queues.now) }
{
    let mut offers = Vec::new(alloc);
    for queue in queues {
        add_timers(&mut offers, *queue)?;
    }
    Ok(offers)
}
