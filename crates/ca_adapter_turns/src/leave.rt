ghost use Rattle.std.specs.Prelude.{◌≡◌, ℕ, Option, ◌≤◌, ◌<◌, ◌^◌, ◌++◌, [], suc, true, length};
ghost use Rattle.std.specs.Option.{option_map_or};
ghost use Rattle.std.specs.Vec.{vec_capacity};
ghost use Rattle.ca_adapter_acts.specs.Binders.{changed_by};
ghost use Rattle.ca_adapter_turns.specs.Stepped.{HasRoomFor, index_of_mail, mail_updates, packet_of};
ghost use Rattle.ca_base.specs.declared.step.Sent.TheVariants as sents;
ghost use Rattle.ca_base.specs.objects.Mailbox as mailbox;
ghost use Rattle.ca_base.specs.objects.QueuePair.{QueuePair, correspondent_of};
ghost use Rattle.ca_adapter_parts.specs.HeldView.{holding};
ghost use Rattle.ca_model.specs.declared.marks.TheConstants.{SPARE_MARKS};
ghost use Rattle.ca_model.specs.machine.Turns.{sent_marks, sent_updates};
ghost use Rattle.ca_model.specs.machine.World.{Mailbox_of};

use ca_adapter_parts::Held;
use ca_base::{Bytes, Correspondent, Lot, Sent};
use ca_model::{Mark, Marks};

/// From where to where a packet goes.
#[derive(Clone, Copy)]
pub(crate) struct Path {
    pub(crate) from: Correspondent,
    pub(crate) to: Correspondent,
}

/// What a turn has spelt goes to the peer's mailbox, which is held, and its marks behind the others: a packet is under way,
/// or lost by the weather, or lost since no path leads to the peer. `copy` is empty and has room for its bytes. It takes no
/// memory.

pub(crate) fn leave(
    held: &mut Held,
    path: Path,
    lot: Lot,
    sent: Sent,
    bytes: Vec<u8>,
    copy: Vec<u8>,
    marks: &mut Marks,
)
    requires held { (holding held.old).has (Mailbox_of path.to.queue) ≡ true }
    requires next { suc ((holding held.old).world.mailbox path.to.queue).next < 2 ^ 64 }
    requires room { (request : Option ℕ) → sent ≡ sents.Spelt request
        → HasRoomFor path.from path.to ((holding held.old).world.mailbox path.to.queue) }
    requires spare { SPARE_MARKS ≤ marks.old.room }
    requires empty { copy.items ≡ [] }
    requires fits { (request : Option ℕ) → sent ≡ sents.Spelt request → length bytes.items ≤ vec_capacity copy }
    ensures held { (q : QueuePair) → correspondent_of q ≡ path.from → holding held.new ≡ changed_by
        (option_map_or (sent_updates q path.to ((holding held.old).world.mailbox path.to.queue) lot)
        (packet_of sent bytes.items) []) (holding held.old) }
    ensures marks { (q : QueuePair) → correspondent_of q ≡ path.from → marks.new.marks ≡ marks.old.marks
        ++ option_map_or (sent_marks q path.to ((holding held.old).world.mailbox path.to.queue) lot)
        (packet_of sent bytes.items) [] }
{
    let Sent::Spelt { request } = sent else {
        return;
    };
    let mut copy = copy;
    copy.extend_from_slice(bytes.as_slice()).unwrap();
    let index = send(held, path, lot, Bytes::from(copy));
    marks.push(Mark::Sent {
        source: path.from.queue,
        target: path.to.queue,
        index,
        request,
        bytes: Bytes::from(bytes),
    });
    if index.is_none() || is_lost(lot) {
        marks.push(Mark::Lost {
            target: path.to.queue,
            index,
        });
    }
}

/// A packet goes to the peer's mailbox, where a path leads there; then it has this index.
#[tactic(auto, using(ca_adapter_parts::proofs::HoldLemmas::put_mailbox, crate::proofs::LeaveLemmas::mail_sent))]
fn send(held: &mut Held, path: Path, lot: Lot, bytes: Bytes) -> Option<u64>
    requires held { (holding held.old).has (Mailbox_of path.to.queue) ≡ true }
    requires next { suc ((holding held.old).world.mailbox path.to.queue).next < 2 ^ 64 }
    requires room { HasRoomFor path.from path.to ((holding held.old).world.mailbox path.to.queue) }
    ensures index { result ≡ index_of_mail path.from path.to ((holding held.old).world.mailbox path.to.queue) }
    ensures held { holding held.new ≡ changed_by
        (mail_updates path.from path.to ((holding held.old).world.mailbox path.to.queue) lot bytes) (holding held.old) }
{
    let sender = (path.from.queue, path.from.incarnation);
    let mailbox = held.mailbox_mut(path.to.queue);
    match mailbox.send(sender, path.to.incarnation, lot, bytes) {
        Ok(index) => Some(index),
        Err(_) => None,
    }
}

/// Whether a packet is lost.
fn is_lost(lot: Lot) -> bool
    ensures { result ≡ mailbox.is_lost lot }
{
    matches!(lot, Lot::Lose)
}
