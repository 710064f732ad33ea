ghost use Rattle.std.specs.Prelude.{◌≡◌, ◌<◌, true, IfSome};
ghost use Rattle.ca_model.specs.machine.Row.{region_under};
ghost use Rattle.ca_model.specs.machine.WindowVerbs.{alloc_mw_plan, dealloc_mw_plan};
ghost use Rattle.ca_adapter_parts.specs.HeldView.{holding};
ghost use Rattle.ca_adapter_acts.specs.Act.{Acts, Suffices};
ghost use Rattle.ca_adapter_acts.specs.Binders.{binder_updates, changed_by, is_binder_held};
ghost use Rattle.ca_adapter_acts.specs.Calls.{call_of};

use ca_adapter_acts::Call;
use ca_adapter_parts::{Held, QueueSlot};
use ca_base::{ActError, Field, QueueId, Slot};
use ca_model::{Answer, Mark, Marks, Refusal};

/// AllocMw: a memory window of type 1 or 2, which is bound to no region. Refused, in this order: NoDomain, SlotTaken,
/// OutOfRange where `kind` is neither 1 nor 2. `Memory` leaves all as it was.
/// Source: InfiniBand Architecture Specification Volume 1, the chapter on the verbs, Allocate Memory Window.
#[tactic(auto, using(ca_adapter_parts::proofs::HoldLemmas::put_window, ca_adapter_parts::proofs::HoldLemmas::put_control))]
pub fn alloc_mw(call: &Call<'_>, held: &mut Held, slot: Slot, kind: u8) -> Result<Marks, ActError>
    requires suffices { Suffices held.old (alloc_mw_plan (call_of call.now) slot kind) }
    requires few { ((holding held.old).world.domain slot.domain).objects < u32.MAX }
    ensures act { Acts result (alloc_mw_plan (call_of call.now) slot kind) held.old held.new }
{
    let domain = *held.control(slot.domain);
    if !domain.allocated {
        return Ok(call.refuse(Refusal::NoDomain)?);
    }
    if held.window(slot).kind() != 0 {
        return Ok(call.refuse(Refusal::SlotTaken)?);
    }
    if kind != 1 && kind != 2 {
        return Ok(call.refuse(Refusal::OutOfRange(Field::Kind))?);
    }
    let ready = call.ready(0)?;
    *held.control_mut(slot.domain) = domain.with_object();
    held.window_mut(slot).allocate(kind);
    Ok(ready.answer(Answer::Fine))
}

/// DeallocMw: the slot is vacant again, and a key that was in force is revoked; the region and the queue pair of its bind
/// have one window fewer. Refused: NoSuch where the slot is vacant. `Memory` leaves all as it was.
/// Source: InfiniBand Architecture Specification Volume 1, the chapter on the verbs, Deallocate Memory Window.
#[tactic(auto, using(ca_adapter_parts::proofs::HoldLemmas::put_window, ca_adapter_parts::proofs::HoldLemmas::put_control, ca_adapter_parts::proofs::HoldLemmas::put_region))]
pub fn dealloc_mw(call: &Call<'_>, held: &mut Held, slot: Slot) -> Result<Marks, ActError>
    requires suffices { Suffices held.old (dealloc_mw_plan (call_of call.now) slot) }
    requires counted { IfSome ((holding held.old).world.window slot).binding
        (λ b. 0 < ((holding held.old).world.region (region_under ((holding held.old).world.window slot) b)).bound) }
    ensures act { Acts result (dealloc_mw_plan (call_of call.now) slot) held.old held.new }
{
    let domain = *held.control(slot.domain);
    let window = held.window(slot);
    if window.kind() == 0 {
        return Ok(call.refuse(Refusal::NoSuch)?);
    }
    let home = window.slot().domain;
    let Some(view) = window.view() else {
        let ready = call.ready(0)?;
        *held.control_mut(slot.domain) = domain.without_object();
        held.window_mut(slot).deallocate();
        return Ok(ready.answer(Answer::Fine));
    };
    let ready = call.ready(1)?;
    if let Some(region) = window.region() {
        let region = Slot {
            domain: home,
            slot: region,
        };
        held.region_mut(region).note_unbind();
    }
    *held.control_mut(slot.domain) = domain.without_object();
    held.window_mut(slot).deallocate();
    unbind_from(held, view.queue);
    let mut marks = ready.answer(Answer::Fine);
    marks.push(Mark::Revoked {
        adapter: slot.domain.adapter,
        key: view.key,
    });
    Ok(marks)
}

/// The queue pair through which a window was bound has one window fewer.
#[tactic(auto, using(ca_adapter_parts::proofs::HoldLemmas::put_queue))]
fn unbind_from(held: &mut Held, queue: Option<QueueId>)
    requires { is_binder_held held.old queue ≡ true }
    ensures { holding held.new ≡ changed_by (binder_updates (holding held.old).world queue) (holding held.old) }
{
    if let Some(queue) = queue {
        if let QueueSlot::Present(part) = held.queue_mut(queue) {
            part.windows.count = part.windows.count.saturating_sub(1);
        }
    }
}
