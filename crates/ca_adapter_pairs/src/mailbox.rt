ghost use Rattle.std.specs.Prelude.{◌≡◌, true, Some};
ghost use Rattle.ca_base.specs.objects.Mailbox.{with_peer};
ghost use Rattle.ca_adapter_parts.specs.HeldView.{hold, holding};
ghost use Rattle.ca_model.specs.machine.QueuePairVerbs.{emptied_mailbox};
ghost use Rattle.ca_model.specs.machine.World.{Mailbox_of};

use ca_adapter_parts::Held;
use ca_base::QueueId;

/// No packet is under way to an emptied queue pair, and its mailbox accepts nobody.
#[tactic(auto, using(ca_adapter_parts::proofs::HoldLemmas::put_mailbox))]
pub(crate) fn close(held: &mut Held, name: QueueId, incarnation: u32)
    requires { (holding held.old).has (Mailbox_of name) ≡ true }
    ensures { holding held.new
        ≡ hold (holding held.old) (Mailbox_of name)
        (emptied_mailbox incarnation ((holding held.old).world.mailbox name)) }
{
    let mailbox = held.mailbox_mut(name);
    mailbox.clear();
    mailbox.accept(incarnation, None);
}

/// Its mailbox accepts the packets of this peer in its incarnation.
#[tactic(auto, using(ca_adapter_parts::proofs::HoldLemmas::put_mailbox))]
pub(crate) fn open(held: &mut Held, name: QueueId, incarnation: u32, peer: (QueueId, u32))
    requires { (holding held.old).has (Mailbox_of name) ≡ true }
    ensures { holding held.new ≡ hold (holding held.old) (Mailbox_of name)
        (with_peer incarnation (Some (record { queue = peer.0; incarnation = peer.1 }))
        ((holding held.old).world.mailbox name)) }
{
    held.mailbox_mut(name).accept(incarnation, Some(peer));
}
