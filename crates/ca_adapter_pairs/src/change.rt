ghost use Rattle.std.specs.Prelude.{◌≡◌, ◌<◌, true};
ghost use Rattle.ca_adapter_acts.specs.Binders.{changed_by};
ghost use Rattle.ca_adapter_parts.specs.HeldView.{holding};
ghost use Rattle.ca_model.specs.machine.World.{Mailbox_of};
ghost use Rattle.ca_adapter_pairs.specs.Changed.{CanChangeAround, around_updates, reset_updates};
ghost use Rattle.ca_adapter_pairs.specs.Departures.{CanDepart, is_around_held};

use crate::around::Around;
use crate::departure::{Departure, depart};
use crate::flush::{Flushed, put_flushed};
use crate::mailbox::{close, open};
use ca_adapter_parts::Held;
use ca_base::Change;

/// What a change does around a queue pair of this incarnation. It takes no memory.
pub(crate) fn change_around(
    held: &mut Held,
    around: &Around,
    own: u32,
    change: &Change,
    flushed: &Flushed,
)
    requires mailbox { (holding held.old).has (Mailbox_of around.now.queue) ≡ true }
    requires held { is_around_held around.now (holding held.old) ≡ true }
    requires own { own < u32.MAX }
    requires can { CanChangeAround around.now change.now flushed.now.sends.items flushed.now.receives.items
        (holding held.old).world }
    ensures { holding held.new
        ≡ changed_by (around_updates around.now own change.now flushed.now.sends.items flushed.now.receives.items
        (holding held.old).world) (holding held.old) }
{
    match *change {
        Change::Error => put_flushed(held, around, flushed),
        Change::Reset => reset_around(held, around, own),
        Change::Rtr {
            peer,
            incarnation,
            ..
        } => open(held, around.queue, own, (peer, incarnation)),
        Change::Init | Change::Rts { .. } | Change::Sqd | Change::Resume => (),
    }
}

/// It leaves what stands around it, and its mailbox accepts nobody.
#[tactic(auto, using(crate::proofs::ModifyLemmas::reset_left))]
fn reset_around(held: &mut Held, around: &Around, own: u32)
    requires mailbox { (holding held.old).has (Mailbox_of around.now.queue) ≡ true }
    requires held { is_around_held around.now (holding held.old) ≡ true }
    requires own { own < u32.MAX }
    requires can { CanDepart around.now (holding held.old).world }
    ensures { holding held.new ≡ changed_by (reset_updates around.now own (holding held.old).world) (holding held.old) }
{
    depart(held, around, Departure::Reset);
    close(held, around.queue, own + 1);
}
