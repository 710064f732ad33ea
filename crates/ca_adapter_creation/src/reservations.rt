ghost use Rattle.std.specs.Prelude.{◌≡◌, ◌<◌, true, IfSome, OnOk, OnErr};
ghost use Rattle.std.specs.Option.{option_map};
ghost use Rattle.ca_base.specs.declared.reserve.Reserve.TheVariants.{Sends};
ghost use Rattle.ca_base.specs.objects.CompletionQueue.{after_release, after_reserve, is_too_small};
ghost use Rattle.ca_cq.specs.Room.{is_new_side};
ghost use Rattle.ca_adapter_parts.specs.HeldView.{hold, holding};
ghost use Rattle.ca_keys.specs.Numbers.{queue_of};
ghost use Rattle.ca_model.specs.machine.QueuePairVerbs.{beside};
ghost use Rattle.ca_model.specs.machine.World.{Cq_of};
ghost use Rattle.ca_adapter_creation.specs.Reservations.{after_reservations, fits, has_room_for, has_too_little};

use crate::creation::Creation;
use ca_adapter_parts::Held;
use ca_base::{Memory, Reserve, Slot};
use ca_cq::Cq;

/// Whether a completion queue has no room for the reservations of a new queue pair, of which that for receives has this
/// room.
pub(crate) fn has_too_little(creation: &Creation, room: u16, send: &Cq, recv: &Cq) -> bool
    requires { creation.now.slot.slot < 256 }
    ensures { result ≡ has_too_little creation.now room send.now recv.now }
{
    let sends = creation.send_reserve();
    let receives = creation.receive_reserve();
    if send.is_too_small(sends, creation.send_depth) {
        return true;
    }
    if creation.send_cq == creation.recv_cq {
        return send.is_too_small_after(sends, creation.send_depth, receives, room);
    }
    recv.is_too_small(receives, room)
}

/// Reserves for the sends and for the receives of a new queue pair, for which there is room.
pub(crate) fn reserve(held: &mut Held, creation: &Creation, room: u16) -> Result<(), Memory>
    requires small { creation.now.slot.slot < 256 }
    requires send { (holding held.old).has (Cq_of (beside creation.now.slot creation.now.send_cq)) ≡ true }
    requires recv { (holding held.old).has (Cq_of (beside creation.now.slot creation.now.recv_cq)) ≡ true }
    requires room { has_room_for creation.now room (holding held.old).world ≡ true }
    requires new { IfSome ((holding held.old).world.cq (beside creation.now.slot creation.now.send_cq))
        (λ q. is_new_side (Sends (queue_of creation.now.slot)) q ≡ true) }
    ensures ok { OnOk result (holding held.new ≡ after_reservations creation.now room (holding held.old)) }
    ensures err { OnErr result (holding held.new ≡ holding held.old) }
{
    let sends = creation.send_reserve();
    let send = creation.send_slot();
    reserve_in(held, send, sends, creation.send_depth)?;
    match reserve_in(held, creation.recv_slot(), creation.receive_reserve(), room) {
        Ok(()) => Ok(()),
        Err(memory) => {
            release_in(held, send, sends);
            Err(memory)
        }
    }
}

/// Reserves in the completion queue of a slot, which has room for it.
#[tactic(auto, using(ca_adapter_parts::proofs::HoldLemmas::put_cq, crate::proofs::ReservationLemmas::kept_cq))]
fn reserve_in(held: &mut Held, slot: Slot, who: Reserve, room: u16) -> Result<(), Memory>
    requires held { (holding held.old).has (Cq_of slot) ≡ true }
    requires room { fits who room ((holding held.old).world.cq slot) ≡ true }
    ensures ok { OnOk result (holding held.new
        ≡ hold (holding held.old) (Cq_of slot)
        (option_map (after_reserve who room) ((holding held.old).world.cq slot))) }
    ensures err { OnErr result (holding held.new ≡ holding held.old) }
{
    let cq = held.cq_mut(slot);
    match cq {
        Some(cq) => match cq.reserve(who, room) {
            Ok(()) => Ok(()),
            Err(_) => Err(Memory),
        },
        None => Ok(()),
    }
}

/// Takes a reservation back in the completion queue of a slot.
#[tactic(auto, using(ca_adapter_parts::proofs::HoldLemmas::put_cq))]
fn release_in(held: &mut Held, slot: Slot, who: Reserve)
    requires { (holding held.old).has (Cq_of slot) ≡ true }
    ensures { holding held.new
        ≡ hold (holding held.old) (Cq_of slot) (option_map (after_release who) ((holding held.old).world.cq slot)) }
{
    let cq = held.cq_mut(slot);
    if let Some(cq) = cq {
        cq.release(who);
    }
}
