ghost use Rattle.std.specs.Prelude.{◌≡◌, ◌++◌, [], ◌∷◌, true, IfOk, OnOk};
ghost use Rattle.std.specs.Option.{option_map};
ghost use Rattle.ca_base.specs.objects.CompletionQueue.{after_puts};
ghost use Rattle.ca_adapter_parts.specs.HeldView.{hold, holding};
ghost use Rattle.ca_model.specs.machine.Around as around;
ghost use Rattle.ca_model.specs.machine.World.{Cq_of};
ghost use Rattle.ca_adapter_acts.specs.Room.{FitIn};

use ca_adapter_parts::Held;
use ca_adapter_parts::ca_qpstate::QueuePart;
use ca_base::{Completion, Memory, Slot};
use ca_model::Mark;
use std::alloc::Global;

/// The completions among marks that go to the completion queue of this number, in order. Those of a queue pair's sends
/// go to that of its sends, and those of its receives to that of its receives. `Memory` is its only refusal.
#[tactic(auto, using(crate::proofs::CompletionLemmas::completion_pushed))]
pub fn completions_to(
    alloc: Global,
    q: &QueuePart,
    cq: u16,
    marks: &[Mark],
) -> Result<Vec<Completion>, Memory>
    ensures { IfOk result (λ done. done.items ≡ around.completions_to q.now cq marks.now) }
{
    let mut done = Vec::new(alloc);
    for mark in marks {
        push_completion(q, cq, mark, &mut done)?;
    }
    Ok(done)
}

/// Adds the completion of a mark, where it is one and goes to this completion queue.
fn push_completion(
    q: &QueuePart,
    cq: u16,
    mark: &Mark,
    done: &mut Vec<Completion>,
) -> Result<(), Memory>
    ensures { OnOk result (done.new.items ≡ done.old.items ++ around.completions_to q.now cq (mark.now ∷ [])) }
{
    if let Mark::Done { completion, .. } = mark {
        let to = if completion.receive {
            q.recv_cq
        } else {
            q.send_cq
        };
        if to == cq {
            done.push(*completion)?;
        }
    }
    Ok(())
}

/// Puts completions into a completion queue that is held, in order; the caller shows that they fit. It takes no memory.
#[tactic(auto, using(ca_adapter_parts::proofs::HoldLemmas::put_cq))]
pub fn put_completions(held: &mut Held, slot: Slot, completions: &[Completion])
    requires held { (holding held.old).has (Cq_of slot) ≡ true }
    requires room { FitIn ((holding held.old).world.cq slot) completions.now }
    ensures { holding held.new ≡ hold (holding held.old) (Cq_of slot)
        (option_map (after_puts completions.now) ((holding held.old).world.cq slot)) }
{
    if let Some(cq) = held.cq_mut(slot) {
        cq.put_all(completions);
    }
}
