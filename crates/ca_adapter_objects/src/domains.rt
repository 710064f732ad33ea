ghost use Rattle.ca_model.specs.machine.DomainVerbs.{alloc_pd_plan, dealloc_pd_plan};
ghost use Rattle.ca_adapter_acts.specs.Calls.{call_of};
ghost use Rattle.ca_adapter_acts.specs.Act.{Acts, Suffices};

use ca_adapter_acts::Call;
use ca_adapter_parts::Held;
use ca_base::{ActError, DomainId};
use ca_model::{Answer, Marks, Refusal};

/// AllocPd: the protection domain is allocated, with no objects. Refused, in this order: DomainTaken where it is allocated.
/// `Memory` leaves all as it was.
/// Source: InfiniBand Architecture Specification Volume 1, the chapter on the verbs, Allocate Protection Domain.
#[tactic(auto, using(ca_adapter_parts::proofs::HoldLemmas::put_control))]
pub fn alloc_pd(call: &Call<'_>, held: &mut Held, domain: DomainId) -> Result<Marks, ActError>
    requires suffices { Suffices held.old (alloc_pd_plan (call_of call.now) domain) }
    ensures act { Acts result (alloc_pd_plan (call_of call.now) domain) held.old held.new }
{
    let control = *held.control(domain);
    if control.allocated {
        return Ok(call.refuse(Refusal::DomainTaken)?);
    }
    let ready = call.ready(0)?;
    *held.control_mut(domain) = control.with_allocation(true);
    Ok(ready.answer(Answer::Fine))
}

/// DeallocPd: the protection domain is free again. Refused, in this order: NoDomain where it is not allocated, DomainInUse
/// where it has an object. `Memory` leaves all as it was.
/// Source: InfiniBand Architecture Specification Volume 1, the chapter on the verbs, Deallocate Protection Domain.
#[tactic(auto, using(ca_adapter_parts::proofs::HoldLemmas::put_control))]
pub fn dealloc_pd(call: &Call<'_>, held: &mut Held, domain: DomainId) -> Result<Marks, ActError>
    requires suffices { Suffices held.old (dealloc_pd_plan (call_of call.now) domain) }
    ensures act { Acts result (dealloc_pd_plan (call_of call.now) domain) held.old held.new }
{
    let control = *held.control(domain);
    if !control.allocated {
        return Ok(call.refuse(Refusal::NoDomain)?);
    }
    if control.objects > 0 {
        return Ok(call.refuse(Refusal::DomainInUse)?);
    }
    let ready = call.ready(0)?;
    *held.control_mut(domain) = control.with_allocation(false);
    Ok(ready.answer(Answer::Fine))
}
