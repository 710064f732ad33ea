ghost use Rattle.std.specs.Prelude.{◌≡◌, true, IfOk};
ghost use Rattle.ca_adapter_acts.specs.Binders.{changed_by};
ghost use Rattle.ca_adapter_acts.specs.Room.{FitIn};
ghost use Rattle.ca_adapter_parts.specs.HeldView.{holding};
ghost use Rattle.ca_keys.specs.Equal.{slot_eq};
ghost use Rattle.ca_model.specs.machine.Around as machine;
ghost use Rattle.ca_model.specs.machine.Invariants.{IsQueue};
ghost use Rattle.ca_adapter_pairs.specs.Changed.{flush_updates, marks_of_change};
ghost use Rattle.ca_adapter_pairs.specs.Departures.{is_around_held};

use crate::around::Around;
use ca_adapter_acts::{completions_to, put_completions};
use ca_adapter_parts::Held;
use ca_base::{Change, Completion, Memory};
use ca_model::Mark;
use ca_qp_rows::push_flushed;
use ca_qpstate::QueuePart;
use std::alloc::Global;

/// What completes by a change: the marks, and the completions for the completion queues of sends and of receives.
#[derive(Drop)]
pub(crate) struct Flushed {
    pub(crate) marks: Vec<Mark>,
    pub(crate) sends: Vec<Completion>,
    pub(crate) receives: Vec<Completion>,
}

/// What completes by a change of a queue pair, before it is made.
pub(crate) fn flushed_by(
    alloc: Global,
    queue: &QueuePart,
    change: &Change,
) -> Result<Flushed, Memory>
    requires { IsQueue queue.now }
    ensures marks { IfOk result (λ f. f.marks.items ≡ marks_of_change queue.now change.now) }
    ensures sends { IfOk result (λ f. f.sends.items
        ≡ machine.completions_to queue.now queue.now.send_cq (marks_of_change queue.now change.now)) }
    ensures receives { IfOk result (λ f. f.receives.items
        ≡ machine.completions_to queue.now queue.now.recv_cq (marks_of_change queue.now change.now)) }
{
    let marks = marks_of_change(alloc, queue, change)?;
    let sends = completions_to(alloc, queue, queue.send_cq, marks.as_slice())?;
    let receives = completions_to(alloc, queue, queue.recv_cq, marks.as_slice())?;
    Ok(Flushed {
        marks,
        sends,
        receives,
    })
}

/// The completions of a change, as marks: those of a flush at Error, and else none.
fn marks_of_change(alloc: Global, queue: &QueuePart, change: &Change) -> Result<Vec<Mark>, Memory>
    requires { IsQueue queue.now }
    ensures { IfOk result (λ made. made.items ≡ marks_of_change queue.now change.now) }
{
    let mut made = Vec::new(alloc);
    if let Change::Error = change {
        push_flushed(queue, queue.requester.oldest, &mut made)?;
    }
    Ok(made)
}

/// Puts the completions of a flush into both completion queues, which may be one.
#[tactic(auto, using(crate::proofs::FlushLemmas::put_once, crate::proofs::FlushLemmas::put_both, crate::proofs::FlushLemmas::fit_still))]
pub(crate) fn put_flushed(held: &mut Held, around: &Around, flushed: &Flushed)
    requires held { is_around_held around.now (holding held.old) ≡ true }
    requires sends { FitIn ((holding held.old).world.cq around.now.send) flushed.now.sends.items }
    requires receives { FitIn ((holding held.old).world.cq around.now.recv) flushed.now.receives.items }
    requires same { slot_eq around.now.send around.now.recv ≡ true
        → flushed.now.sends.items ≡ flushed.now.receives.items }
    ensures { holding held.new
        ≡ changed_by (flush_updates around.now flushed.now.sends.items flushed.now.receives.items
        (holding held.old).world) (holding held.old) }
{
    put_completions(held, around.send, flushed.sends.as_slice());
    if around.send != around.recv {
        put_completions(held, around.recv, flushed.receives.as_slice());
    }
}
