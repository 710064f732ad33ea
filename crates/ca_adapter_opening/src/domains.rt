ghost use Rattle.std.specs.Prelude.{OnOk};
ghost use Rattle.std.specs.List.{flat_map, range_with_len};
ghost use Rattle.ca_base.specs.Configuration.{adapter_of};
ghost use Rattle.ca_model.specs.machine.Sound.{IsLimitedAdapter};
ghost use Rattle.ca_adapter_opening.specs.Added.{AddsParts};
ghost use Rattle.ca_adapter_opening.specs.Opening.{IsVacantPart};
ghost use Rattle.ca_model_places.specs.Places.{parts_of_domain};

use crate::slots::{SlotKind, push_slots};
use ca_adapter_parts::{ControlPart, Part};
use ca_base::{AdapterConfig, DomainId, Memory};
use std::alloc::Global;

/// Adds the parts of the domains of an adapter, all vacant.
pub(crate) fn push_domains(
    alloc: Global,
    adapter: &AdapterConfig,
    number: u8,
    row: &mut Vec<Part>,
) -> Result<(), Memory>
    requires { IsLimitedAdapter (adapter_of adapter.now) }
    ensures { OnOk result (AddsParts IsVacantPart
        (flat_map (λ domain. parts_of_domain (adapter_of adapter.now) (record { adapter = number; domain = domain }))
        (range_with_len 0 adapter.now.domains)) row.old.items row.new.items) }
{
    for domain in 0..adapter.domains {
        push_domain(
            alloc,
            adapter,
            DomainId {
                adapter: number,
                domain,
            },
            row,
        )?;
    }
    Ok(())
}

/// Adds the parts of a domain, all vacant: its control part, and those of its slots by kind.
fn push_domain(
    alloc: Global,
    adapter: &AdapterConfig,
    domain: DomainId,
    row: &mut Vec<Part>,
) -> Result<(), Memory>
    requires { IsLimitedAdapter (adapter_of adapter.now) }
    ensures { OnOk result (AddsParts IsVacantPart (parts_of_domain (adapter_of adapter.now) domain)
        row.old.items row.new.items) }
{
    row.push(Part::Control(ControlPart {
        allocated: false,
        objects: 0,
    }))?;
    push_slots(alloc, SlotKind::Queue, domain, adapter.qps, row)?;
    push_slots(alloc, SlotKind::Mailbox, domain, adapter.qps, row)?;
    push_slots(alloc, SlotKind::Cq, domain, adapter.cqs, row)?;
    push_slots(alloc, SlotKind::Srq, domain, adapter.srqs, row)?;
    push_slots(alloc, SlotKind::Window, domain, adapter.windows, row)?;
    push_slots(alloc, SlotKind::Region, domain, adapter.regions, row)?;
    Ok(())
}
