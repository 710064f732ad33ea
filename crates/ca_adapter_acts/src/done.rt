ghost use Rattle.std.specs.Prelude.{◌≡◌, ◌+◌, ◌≤◌, true, length};
ghost use Rattle.std.specs.Option.{option_map};
ghost use Rattle.ca_adapter_acts.specs.Binders.{changed_by};
ghost use Rattle.ca_adapter_acts.specs.Outlets as outlets;
ghost use Rattle.ca_adapter_acts.specs.Room.{FitIn};
ghost use Rattle.ca_base.specs.objects.CompletionQueue.{after_puts};
ghost use Rattle.ca_adapter_parts.specs.HeldView.{hold, holding};
ghost use Rattle.ca_model.specs.machine.World.{Cq_of};

use ca_adapter_parts::Held;
use ca_adapter_parts::ca_qpstate::QueuePart;
use ca_base::{Completion, DomainId, Slot};
use ca_cq::Cq;
use ca_model::Mark;

/// Where a queue pair's completions go: those of its sends to one completion queue of its domain, and those of its
/// receives to the same or another.
#[derive(Clone, Copy)]
pub struct Outlets {
    pub domain: DomainId,
    pub send: u16,
    pub recv: u16,
}

impl Outlets {
    ghost use Rattle.std.specs.Prelude.{◌≡◌};
    ghost use Rattle.ca_adapter_acts.specs.Outlets.{goes_to, outlets_of, recv_slot, send_slot};

    /// Those of a queue pair.
    pub fn of(q: &QueuePart) -> Outlets
        ensures { result ≡ outlets_of q.now }
    {
        Outlets {
            domain: q.domain,
            send: q.send_cq,
            recv: q.recv_cq,
        }
    }

    /// The slot of the completion queue of its sends.
    fn send_slot(&self) -> Slot
        ensures { result ≡ send_slot self.now }
    {
        Slot {
            domain: self.domain,
            slot: self.send,
        }
    }

    /// The slot of the completion queue of its receives.
    fn recv_slot(&self) -> Slot
        ensures { result ≡ recv_slot self.now }
    {
        Slot {
            domain: self.domain,
            slot: self.recv,
        }
    }

    /// Whether a completion goes to the completion queue of this number.
    fn goes_to(&self, number: u16, completion: &Completion) -> bool
        ensures { result ≡ goes_to self.now number completion.now }
    {
        if completion.receive {
            self.recv == number
        } else {
            self.send == number
        }
    }
}

/// Puts the completions among marks into the completion queues of a queue pair, which are held, in order; the caller shows
/// that they fit. It takes no memory.
#[tactic(auto, using(crate::proofs::DoneLemmas::fit_still))]
pub fn put_done(held: &mut Held, to: &Outlets, marks: &[Mark])
    requires send { (holding held.old).has (Cq_of (outlets.send_slot to.now)) ≡ true }
    requires recv { (holding held.old).has (Cq_of (outlets.recv_slot to.now)) ≡ true }
    requires sends { FitIn ((holding held.old).world.cq (outlets.send_slot to.now))
        (outlets.completions_by to.now to.now.send marks.now) }
    requires receives { FitIn ((holding held.old).world.cq (outlets.recv_slot to.now))
        (outlets.completions_by to.now to.now.recv marks.now) }
    ensures { holding held.new
        ≡ changed_by (outlets.done_updates to.now marks.now (holding held.old).world) (holding held.old) }
{
    put_into(held, to, to.send_slot(), marks);
    if to.send != to.recv {
        put_into(held, to, to.recv_slot(), marks);
    }
}

/// Puts those that go to one completion queue.
#[tactic(auto, using(ca_adapter_parts::proofs::HoldLemmas::put_cq))]
fn put_into(held: &mut Held, to: &Outlets, slot: Slot, marks: &[Mark])
    requires held { (holding held.old).has (Cq_of slot) ≡ true }
    requires room { FitIn ((holding held.old).world.cq slot) (outlets.completions_by to.now slot.slot marks.now) }
    ensures { holding held.new ≡ hold (holding held.old) (Cq_of slot)
        (option_map (after_puts (outlets.completions_by to.now slot.slot marks.now)) ((holding held.old).world.cq slot)) }
{
    if let Some(cq) = held.cq_mut(slot) {
        put_marked(cq, to, slot.slot, marks);
    }
}

/// The same for a completion queue of this number.
#[tactic(auto, using(crate::proofs::DoneLemmas::mark_put, crate::proofs::DoneLemmas::mark_fits, crate::proofs::DoneLemmas::rest_fits))]
fn put_marked(cq: &mut Cq, to: &Outlets, number: u16, marks: &[Mark])
    requires { length cq.old.waiting + length (outlets.completions_by to.now number marks.now) ≤ cq.old.capacity }
    ensures { cq.new ≡ after_puts (outlets.completions_by to.now number marks.now) cq.old }
{
    for mark in marks {
        put_mark(cq, to, number, mark);
    }
}

/// Puts the completion of a mark, where it is one and goes to the completion queue of this number.
fn put_mark(cq: &mut Cq, to: &Outlets, number: u16, mark: &Mark)
    requires { length cq.old.waiting + length (outlets.completion_by to.now number mark.now) ≤ cq.old.capacity }
    ensures { cq.new ≡ after_puts (outlets.completion_by to.now number mark.now) cq.old }
{
    if let Mark::Done { completion, .. } = mark {
        if to.goes_to(number, completion) {
            cq.put(*completion);
        }
    }
}
