ghost use Rattle.std.specs.Prelude.{◌≤◌, ◌<◌, IfOk, OnOk};
ghost use Rattle.ca_adapter_opening.specs.Added.{AddsParts, name_in};
ghost use Rattle.ca_adapter_opening.specs.Opening.{IsVacantPart};
ghost use Rattle.ca_model_places.specs.Places.{parts_of_kind};

use ca_adapter_parts::{Part, QueueSlot, SrqSlot};
use ca_base::{DomainId, Memory, Slot};
use ca_mailbox::Mailbox;
use ca_region::Region;
use ca_window::Window;
use std::alloc::Global;

/// The kinds of part of which a domain has one for each slot.
#[derive(Clone, Copy)]
pub(crate) enum SlotKind {
    Queue,
    Mailbox,
    Cq,
    Srq,
    Window,
    Region,
}

/// Adds the parts of one kind in a domain, by slot, all vacant.
pub(crate) fn push_slots(
    alloc: Global,
    kind: SlotKind,
    domain: DomainId,
    count: u16,
    row: &mut Vec<Part>,
) -> Result<(), Memory>
    requires { count ≤ 32768 }
    ensures { OnOk result (AddsParts IsVacantPart (parts_of_kind (name_in kind) domain count)
        row.old.items row.new.items) }
{
    for slot in 0..count {
        let part = vacant_part(alloc, kind, Slot { domain, slot })?;
        row.push(part)?;
    }
    Ok(())
}

/// A vacant part of a kind.
fn vacant_part(alloc: Global, kind: SlotKind, slot: Slot) -> Result<Part, Memory>
    requires { slot.slot < 32768 }
    ensures { IfOk result (λ part. IsVacantPart (name_in kind slot) part) }
{
    Ok(match kind {
        SlotKind::Queue => Part::Queue(Box::new(
            alloc,
            QueueSlot::Vacant {
                incarnation: 0,
                timers: 0,
            },
        )?),
        SlotKind::Mailbox => Part::Mailbox(Mailbox::create(alloc)?),
        SlotKind::Cq => Part::Cq(None),
        SlotKind::Srq => Part::Srq(SrqSlot {
            srq: None,
            users: 0,
        }),
        SlotKind::Window => Part::Window(Window::vacant(slot)),
        SlotKind::Region => Part::Region(Region::vacant()),
    })
}
