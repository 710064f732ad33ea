ghost use Rattle.std.specs.Prelude.{◌≡◌};
ghost use Rattle.ca_adapter_local.specs.Local.{invalidation_end};
ghost use Rattle.ca_adapter_local.specs.Made.{HasPerformed};
ghost use Rattle.ca_adapter_local.specs.Parts.{AreEndParts};
ghost use Rattle.ca_base.specs.Configuration.{Configuration};
ghost use Rattle.ca_adapter_parts.specs.HeldView.{holding};
ghost use Rattle.ca_adapter_parts.specs.declared.held.Held.{Held as HeldParts};
ghost use Rattle.ca_adapter_turns.specs.ca_adapter_reach_laws.Ties.{IsVacantOutside};

use crate::made::Made;
use ca_adapter_reach::Reached;
use ca_base::Key;
use ca_grant::Reach;
use ca_localops::{Marks2, OpError};
use ca_qpstate::QueuePart;

/// Ends a key, as a Local Invalidate of a queue pair does: that of a window, with the region in which it is bound, or
/// that of a region. The refusals leave the parts in hand as they were. It takes no memory.
pub(crate) fn invalidate(reached: &mut Reached, q: &QueuePart, key: Key) -> Result<Made, OpError>
    requires { AreEndParts reached.old q.now key }
    ensures { (c : Configuration) (h : HeldParts) → IsVacantOutside c (holding h).world → h.reached ≡ reached.old
        → HasPerformed result (invalidation_end c (holding h).world q.now key) h reached.new }
{
    let mut windows = q.windows;
    match reached.invalidate(key, q.queue, &mut windows) {
        Ok(()) => Ok(Made {
            marks: Marks2 {
                revoked: Some(key),
                granted: None,
            },
            windows,
        }),
        Err(refusal) => Err(OpError::Refused(refusal)),
    }
}
