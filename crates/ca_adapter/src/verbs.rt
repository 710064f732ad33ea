ghost use Rattle.std.specs.Prelude.{◌≡◌, true};
ghost use Rattle.ca_adapter_acts.specs.Act.{Acts, Suffices};
ghost use Rattle.ca_adapter_acts.specs.Calls.{call_of};
ghost use Rattle.ca_adapter.specs.Ready.{IsReady, stored_plan};
ghost use Rattle.ca_base.specs.Configuration.{configuration_in};
ghost use Rattle.ca_model.specs.declared.event.Event.TheVariants as events;
ghost use Rattle.ca_model.specs.machine.Sound.{CanBeMade};
ghost use Rattle.ca_model.specs.machine.Step as machine;

use ca_adapter_acts::Call;
use ca_adapter_arrivals::inject;
use ca_adapter_creation::{Creation, create_qp};
use ca_adapter_objects::{
    alloc_mr, alloc_mw, alloc_pd, create_cq, create_srq, dealloc_mw, dealloc_pd, dereg_mr,
    destroy_cq, destroy_srq, load, reg_mr, store,
};
use ca_adapter_pairs::{destroy_qp, modify_qp, query_qp};
use ca_adapter_parts::Held;
use ca_adapter_polls::poll;
use ca_adapter_posts::{post_recv, post_send, post_srq};
use ca_base::{ActError, Bytes, Field, Place, Run, Settings};
use ca_model::{Marks, Refusal, Verb};

/// A verb whose names are configured: the act of each.
#[inline(always)]
pub(crate) fn act_verb(
    call: &Call<'_>,
    settings: &Settings,
    held: &mut Held,
) -> Result<Marks, ActError>
    requires ready { IsReady (configuration_in settings.now) (events.Verb call.now.by call.now.verb.now) held.old }
    requires made { CanBeMade (events.Verb call.now.by call.now.verb.now) }
    requires named { machine.is_named (configuration_in settings.now) call.now.verb.now ≡ true }
    ensures { Acts result (machine.verb_plan (configuration_in settings.now) (call_of call.now) call.now.verb.now)
        held.old held.new }
{
    match call.verb {
        Verb::AllocPd { domain } => alloc_pd(call, held, *domain),
        Verb::DeallocPd { domain } => dealloc_pd(call, held, *domain),
        Verb::RegMr {
            slot,
            buffer,
            offset,
            length,
            rights,
        } => {
            let at = Run {
                adapter: slot.domain.adapter,
                buffer: *buffer,
                offset: *offset,
                length: *length,
            };
            reg_mr(call, held, *slot, at, length_of(settings, &at), *rights)
        }
        Verb::AllocMr { slot, pages } => alloc_mr(call, held, *slot, *pages),
        Verb::DeregMr { slot } => dereg_mr(call, held, *slot),
        Verb::AllocMw { slot, kind } => alloc_mw(call, held, *slot, *kind),
        Verb::DeallocMw { slot } => dealloc_mw(call, held, *slot),
        Verb::CreateCq { slot, capacity } => create_cq(call, held, *slot, *capacity),
        Verb::DestroyCq { slot } => destroy_cq(call, held, *slot),
        Verb::CreateSrq { slot, depth } => create_srq(call, held, *slot, *depth),
        Verb::DestroySrq { slot } => destroy_srq(call, held, *slot),
        Verb::CreateQp {
            slot,
            send_cq,
            recv_cq,
            send_depth,
            recv_depth,
            srq,
        } => {
            let creation = Creation {
                slot: *slot,
                send_cq: *send_cq,
                recv_cq: *recv_cq,
                send_depth: *send_depth,
                recv_depth: *recv_depth,
                srq: *srq,
            };
            create_qp(call, settings, held, &creation)
        }
        Verb::ModifyQp { slot, change } => modify_qp(call, settings, held, *slot, change),
        Verb::QueryQp { slot } => query_qp(call, held, *slot),
        Verb::DestroyQp { slot } => destroy_qp(call, held, *slot),
        Verb::PostSend { slot, request } => post_send(call, held, *slot, request),
        Verb::PostRecv { slot, request } => post_recv(call, held, *slot, request),
        Verb::PostSrq { slot, request } => post_srq(call, held, *slot, request),
        Verb::Poll { slot, n, least } => poll(call, held, *slot, *n, *least),
        Verb::Store {
            adapter,
            buffer,
            offset,
            bytes,
        } => {
            let place = Place {
                adapter: *adapter,
                buffer: *buffer,
                offset: *offset,
            };
            store_at(call, settings, held, place, bytes)
        }
        Verb::Load {
            adapter,
            buffer,
            offset,
            length,
        } => {
            let at = Run {
                adapter: *adapter,
                buffer: *buffer,
                offset: *offset,
                length: *length,
            };
            load(call, held, at, length_of(settings, &at))
        }
        Verb::Inject { queue, bytes } => inject(call, settings, held, *queue, bytes),
    }
}

/// Store: what has more bytes than a run may have is out of range.
fn store_at(
    call: &Call<'_>,
    settings: &Settings,
    held: &mut Held,
    place: Place,
    bytes: &Bytes,
) -> Result<Marks, ActError>
    requires suffices { Suffices held.old (stored_plan settings.now call.now place bytes.now) }
    ensures { Acts result (stored_plan settings.now call.now place bytes.now) held.old held.new }
{
    let Ok(length) = u32::try_from(bytes.as_slice().len()) else {
        return Ok(call.refuse(Refusal::OutOfRange(Field::Length))?);
    };
    let at = Run {
        adapter: place.adapter,
        buffer: place.buffer,
        offset: place.offset,
        length,
    };
    store(call, held, at, length_of(settings, &at), bytes)
}

/// The bytes of the buffer of a run, none where it is not configured.
fn length_of(settings: &Settings, at: &Run) -> u32
    ensures { result ≡ machine.bytes_of_buffer (configuration_in settings.now) at.now.adapter at.now.buffer }
{
    settings.buffer_length(at.adapter, at.buffer).unwrap_or(0)
}
