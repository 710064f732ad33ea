ghost use Rattle.std.specs.Prelude.{◌≡◌, ℕ, Option};
ghost use Rattle.ca_adapter_local.specs.Local.{local_end};
ghost use Rattle.ca_adapter_local.specs.Made.{HasPerformed};
ghost use Rattle.ca_adapter_local.specs.Parts.{AreParts};
ghost use Rattle.ca_base.specs.Configuration.{configuration_in};
ghost use Rattle.ca_adapter_parts.specs.HeldView.{holding};
ghost use Rattle.ca_adapter_parts.specs.declared.held.Held.{Held as HeldParts};
ghost use Rattle.ca_localops.specs.Operations.{IsFastRegistration};

use crate::made::Made;
use ca_adapter_reach::Reached;
use ca_base::{SendOp, Settings, Slot};
use ca_localops::{OpError, fast};
use ca_qpstate::QueuePart;
use std::alloc::Global;

/// Performs a fast registration of a queue pair over its region, which is in hand, with the configured length of its
/// buffer; a buffer that is not configured has no bytes. The refusals, and then `Memory`, leave it as it was.
pub(crate) fn register(
    alloc: Global,
    settings: &Settings,
    reached: &mut Reached,
    q: &QueuePart,
    op: &SendOp,
) -> Result<Made, OpError>
    requires operation { IsFastRegistration op.now }
    requires parts { AreParts (configuration_in settings.now) reached.old q.now op.now }
    ensures { (h : HeldParts) (drawn : Option ℕ) → h.reached ≡ reached.old → HasPerformed result
        (local_end (configuration_in settings.now) (holding h).world q.now drawn op.now) h reached.new }
{
    let SendOp::FastReg { region, buffer, .. } = op else {
        unreachable!()
    };
    let slot = Slot {
        domain: q.domain,
        slot: *region,
    };
    let bytes = settings
        .buffer_length(q.domain.adapter, *buffer)
        .unwrap_or(0);
    let marks = fast(alloc, reached.regions.at_mut(slot), op, slot, bytes)?;
    Ok(Made {
        marks,
        windows: q.windows,
    })
}
