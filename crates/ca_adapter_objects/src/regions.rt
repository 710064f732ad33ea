ghost use Rattle.std.specs.Prelude.{◌<◌};
ghost use Rattle.ca_model.specs.machine.RegionVerbs.{alloc_mr_plan, dereg_mr_plan, reg_mr_plan};
ghost use Rattle.ca_adapter_parts.specs.HeldView.{holding};
ghost use Rattle.ca_adapter_acts.specs.Act.{Acts, Suffices};
ghost use Rattle.ca_adapter_acts.specs.Calls.{call_of};

use ca_adapter_acts::Call;
use ca_adapter_parts::Held;
use ca_base::limits::MAX_PAGES;
use ca_base::{ActError, Field, RegistrationError, Rights, Run, Slot};
use ca_model::{Answer, Mark, Marks, Refusal};

/// RegMr: registers the bytes of `at`, which lie in a buffer of `buffer_length` bytes, as a memory region with these rights,
/// and answers its key. Refused, in this order: NoDomain, SlotTaken, and then as `Region::register` says. `Memory` leaves
/// all as it was.
/// Source: InfiniBand Architecture Specification Volume 1, the chapter on the verbs, Register Memory Region.
#[tactic(auto, using(ca_adapter_parts::proofs::HoldLemmas::put_region, ca_adapter_parts::proofs::HoldLemmas::put_control, ca_adapter_parts::proofs::HoldLemmas::kept_region, crate::proofs::RegionLemmas::reg_refused))]
pub fn reg_mr(
    call: &Call<'_>,
    held: &mut Held,
    slot: Slot,
    at: Run,
    buffer_length: u32,
    rights: Rights,
) -> Result<Marks, ActError>
    requires suffices { Suffices held.old (reg_mr_plan (call_of call.now) slot at buffer_length rights) }
    requires few { ((holding held.old).world.domain slot.domain).objects < u32.MAX }
    ensures act { Acts result (reg_mr_plan (call_of call.now) slot at buffer_length rights) held.old held.new }
{
    let domain = *held.control(slot.domain);
    if !domain.allocated {
        return Ok(call.refuse(Refusal::NoDomain)?);
    }
    if !held.region(slot).is_vacant() {
        return Ok(call.refuse(Refusal::SlotTaken)?);
    }
    let ready = call.ready(1)?;
    match held
        .region_mut(slot)
        .register(call.alloc, slot, at, buffer_length, rights)
    {
        Ok(grant) => {
            *held.control_mut(slot.domain) = domain.with_object();
            let mut marks = ready.answer(Answer::Key(grant.key));
            marks.push(Mark::Granted(grant));
            Ok(marks)
        }
        Err(RegistrationError::Refused(error)) => {
            Ok(ready.answer(Answer::Refused(Refusal::from(error))))
        }
        Err(RegistrationError::Memory) => Err(ActError::Memory),
    }
}

/// AllocMr: a region of so many pages, free for fast registration. Refused, in this order: NoDomain, SlotTaken, OutOfRange
/// where it has no pages or more than `MAX_PAGES`. `Memory` leaves all as it was.
/// Source: InfiniBand Architecture Specification Volume 1, the chapter on the verbs, Allocate L_Key.
#[tactic(auto, using(ca_adapter_parts::proofs::HoldLemmas::put_region, ca_adapter_parts::proofs::HoldLemmas::put_control))]
pub fn alloc_mr(call: &Call<'_>, held: &mut Held, slot: Slot, pages: u16) -> Result<Marks, ActError>
    requires suffices { Suffices held.old (alloc_mr_plan (call_of call.now) slot pages) }
    requires few { ((holding held.old).world.domain slot.domain).objects < u32.MAX }
    ensures act { Acts result (alloc_mr_plan (call_of call.now) slot pages) held.old held.new }
{
    let domain = *held.control(slot.domain);
    if !domain.allocated {
        return Ok(call.refuse(Refusal::NoDomain)?);
    }
    if !held.region(slot).is_vacant() {
        return Ok(call.refuse(Refusal::SlotTaken)?);
    }
    if pages == 0 || pages > MAX_PAGES {
        return Ok(call.refuse(Refusal::OutOfRange(Field::Pages))?);
    }
    let ready = call.ready(0)?;
    *held.control_mut(slot.domain) = domain.with_object();
    held.region_mut(slot).allocate(pages);
    Ok(ready.answer(Answer::Fine))
}

/// DeregMr: the slot is vacant again, and a key that was valid is revoked. Refused, in this order, as
/// `Region::deregister` says: NoSuch, WindowsBound. `Memory` leaves all as it was.
/// Source: InfiniBand Architecture Specification Volume 1, the chapter on the verbs, Deregister Memory Region.
#[tactic(auto, using(ca_adapter_parts::proofs::HoldLemmas::put_region, ca_adapter_parts::proofs::HoldLemmas::put_control, ca_adapter_parts::proofs::HoldLemmas::kept_region, crate::proofs::RegionLemmas::dereg_refused))]
pub fn dereg_mr(call: &Call<'_>, held: &mut Held, slot: Slot) -> Result<Marks, ActError>
    requires suffices { Suffices held.old (dereg_mr_plan (call_of call.now) slot) }
    ensures act { Acts result (dereg_mr_plan (call_of call.now) slot) held.old held.new }
{
    let domain = *held.control(slot.domain);
    let ready = call.ready(1)?;
    match held.region_mut(slot).deregister() {
        Ok(key) => {
            *held.control_mut(slot.domain) = domain.without_object();
            let mut marks = ready.answer(Answer::Fine);
            if let Some(key) = key {
                marks.push(Mark::Revoked {
                    adapter: slot.domain.adapter,
                    key,
                });
            }
            Ok(marks)
        }
        Err(error) => Ok(ready.answer(Answer::Refused(Refusal::from(error)))),
    }
}
