ghost use Rattle.std.specs.Prelude.{◌≡◌, None, IfErr, IfOk, OnOk, OnErr};
ghost use Rattle.ca_keys.specs.Refusals.{first_of};
ghost use Rattle.ca_localops.specs.Errors.{FailsBy};
ghost use Rattle.ca_localops.specs.Operations.{IsFastRegistration, fast_refusals, grant_of_fast, region_after_fast};

use crate::marks::{Marks2, OpError};
use ca_base::{SendOp, Slot};
use ca_region::Region;
use std::alloc::Global;

/// Performs a fast registration in a slot, over a buffer of `buffer_length` bytes; a buffer that is not configured has
/// none. The refusals in order are those of the region, and then `Memory`; each leaves the region as it was.
pub fn fast(
    alloc: Global,
    r: &mut Region,
    op: &SendOp,
    slot: Slot,
    buffer_length: u32,
) -> Result<Marks2, OpError>
    requires { IsFastRegistration op.now }
    ensures accepted { OnOk result (first_of (fast_refusals op.now slot buffer_length r.old) ≡ None) }
    ensures refused { IfErr result (FailsBy (first_of (fast_refusals op.now slot buffer_length r.old))) }
    ensures revoked { IfOk result (λ m. m.revoked ≡ None) }
    ensures granted { IfOk result (λ m. m.granted ≡ grant_of_fast op.now slot) }
    ensures region { OnOk result (r.new ≡ region_after_fast op.now slot r.old) }
    ensures err { OnErr result (r.new ≡ r.old) }
{
    let SendOp::FastReg {
        low,
        buffer,
        address,
        length,
        rights,
        pages,
        ..
    } = op
    else {
        unreachable!()
    };
    let bytes = buffer_length;
    let grant = r.fast_register(
        alloc, slot, *low, *buffer, bytes, *address, *length, *rights, pages,
    )?;
    Ok(Marks2 {
        revoked: None,
        granted: Some(grant),
    })
}
