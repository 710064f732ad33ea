ghost use Rattle.std.specs.Prelude.{◌≡◌, ◌+◌, ◌≤◌, OnOk, length};
ghost use Rattle.ca_base.specs.declared.limits.TheConstants.{MAX_DEPTH};
ghost use Rattle.ca_qpstate.specs.ca_model.declared.marks.TheConstants.{SPARE_MARKS};
ghost use Rattle.ca_qpstate.specs.ca_model.machine.Responses.{drop_effects};
ghost use Rattle.ca_qp_rows.specs.Made.{IsMade};

use ca_base::Memory;
use ca_qpstate::QueuePart;
use ca_qpstate::ca_model::{Drop1, Mark, Marks, SPARE_MARKS};

/// Drops a packet, for this cause. It stands apart, since that is rare.
#[cold]
#[inline(never)]
pub fn drop_packet(q: &QueuePart, cause: Drop1, marks: &mut Marks) -> Result<(), Memory>
    ensures { IsMade result (drop_effects q.now cause) q.now q.now marks.old marks.new }
{
    marks.reserve(SPARE_MARKS + 1)?;
    marks.push(Mark::Dropped {
        target: q.queue,
        cause,
    });
    Ok(())
}

/// Makes room for marks that were made before, for so many more, and for the spare ones.
pub fn reserve_for(made: &[Mark], more: usize, marks: &mut Marks) -> Result<(), Memory>
    requires { more ≤ MAX_DEPTH + 1 }
    ensures room { OnOk result (length made.now + more + SPARE_MARKS ≤ marks.new.room) }
    ensures same { marks.new.marks ≡ marks.old.marks }
{
    let Ok(count) = u32::try_from(made.len() + more + SPARE_MARKS as usize) else {
        return Err(Memory);
    };
    marks.reserve(count)
}
