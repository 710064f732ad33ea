ghost use Rattle.std.specs.Prelude.{◌≡◌};
ghost use Rattle.ca_base.specs.Configuration.{configuration_in};
ghost use Rattle.ca_model.specs.machine.Step as machine;

use ca_base::{DomainId, SendOp, Settings, Slot};
use ca_model::Verb;

/// Whether each name of a verb lies in the configured slices, but for the queues of a queue pair that is made. A verb
/// of which this does not hold answers NoSuch, and looks at nothing. Source: this profile's choice.
pub fn is_named(settings: &Settings, verb: &Verb) -> bool
    ensures { result ≡ machine.is_named (configuration_in settings.now) verb.now }
{
    match verb {
        Verb::AllocPd { domain } => settings.has_domain(*domain),
        Verb::DeallocPd { domain } => settings.has_domain(*domain),
        Verb::RegMr { slot, buffer, .. } => {
            settings.has_region(*slot) && has_buffer(settings, slot.domain.adapter, *buffer)
        }
        Verb::AllocMr { slot, .. } => settings.has_region(*slot),
        Verb::DeregMr { slot } => settings.has_region(*slot),
        Verb::AllocMw { slot, .. } => settings.has_window(*slot),
        Verb::DeallocMw { slot } => settings.has_window(*slot),
        Verb::CreateCq { slot, .. } => settings.has_cq(*slot),
        Verb::DestroyCq { slot } => settings.has_cq(*slot),
        Verb::CreateSrq { slot, .. } => settings.has_srq(*slot),
        Verb::DestroySrq { slot } => settings.has_srq(*slot),
        Verb::CreateQp { slot, .. } => settings.has_qp(*slot),
        Verb::ModifyQp { slot, .. } => settings.has_qp(*slot),
        Verb::QueryQp { slot } => settings.has_qp(*slot),
        Verb::DestroyQp { slot } => settings.has_qp(*slot),
        Verb::PostSend { slot, request } => {
            settings.has_qp(*slot) && has_named_slot(settings, slot.domain, &request.op)
        }
        Verb::PostRecv { slot, .. } => settings.has_qp(*slot),
        Verb::PostSrq { slot, .. } => settings.has_srq(*slot),
        Verb::Poll { slot, .. } => settings.has_cq(*slot),
        Verb::Store {
            adapter,
            buffer,
            ..
        } => has_buffer(settings, *adapter, *buffer),
        Verb::Load {
            adapter,
            buffer,
            ..
        } => has_buffer(settings, *adapter, *buffer),
        Verb::Inject { queue, .. } => settings.has_queue(*queue),
    }
}

/// Whether a buffer is configured.
fn has_buffer(settings: &Settings, adapter: u8, buffer: u16) -> bool
    ensures { result ≡ machine.has_buffer (configuration_in settings.now) adapter buffer }
{
    settings.buffer_length(adapter, buffer).is_some()
}

/// Whether the window or the region that a request names by slot is configured.
fn has_named_slot(settings: &Settings, domain: DomainId, op: &SendOp) -> bool
    ensures { result ≡ machine.has_named_slot (configuration_in settings.now) domain op.now }
{
    match op {
        SendOp::Bind1 { window, .. } | SendOp::Bind2 { window, .. } => settings.has_window(Slot {
            domain,
            slot: *window,
        }),
        SendOp::FastReg { region, .. } => settings.has_region(Slot {
            domain,
            slot: *region,
        }),
        _ => true,
    }
}
