ghost use Rattle.std.specs.Prelude.{◌≡◌, ◌≤◌, ◌<◌, [], ◌∷◌, ◌++◌, length, IfOk, OnOk, OnErr};
ghost use Rattle.ca_base.specs.declared.limits.TheConstants.{MAX_POLLED};

use arrayvec::ArrayVec;
use ca_base::limits::MAX_POLLED;
use ca_base::{Completion, Memory};
use std::alloc::{AllocError, Global};
use std::marker::Model;

/// How many completions lie in place.
const FEW: usize = 1;

/// The first room that more of them take on the heap.
const MORE: usize = 4;

/// The completions that a poll took, in order: at most `MAX_POLLED`. The first that is added to an empty list lies in
/// place, since most polls take no more; several lie on the heap, so that an answer moves as few bytes. Contracts see
/// them as a list.
#[derive(Drop)]
pub struct Completions {
    kept: Kept,
}

/// Where the completions lie.
#[derive(Drop)]
enum Kept {
    Few(ArrayVec<Completion, FEW>),
    Many(Vec<Completion>),
}

impl Model for Completions {
    ghost use Rattle.std.specs.Prelude.{List, ◌≤◌, length};
    ghost use Rattle.ca_base.specs.declared.completion.Completion.{Completion};
    ghost use Rattle.ca_base.specs.declared.limits.TheConstants.{MAX_POLLED};
    ghost use Rattle.ca_model.specs.CompletionsView.{kept_items};

    ghost Value = { List Completion };

    ghost view = { λ c. kept_items c.kept };

    ghost invariant = { λ c. length (kept_items c.kept) ≤ MAX_POLLED };
}

impl Completions {
    /// No completions. It takes no memory.
    pub fn empty() -> Completions
        ensures { result ≡ [] }
    {
        Completions {
            kept: Kept::Few(ArrayVec::new()),
        }
    }

    /// The list of this one, which lies in place. It takes no memory.
    #[inline(always)]
    pub fn of_one(completion: Completion) -> Completions
        ensures { result ≡ completion ∷ [] }
    {
        Completions {
            kept: Kept::Few(ArrayVec::from([completion])),
        }
    }

    /// A copy of those that were taken from a completion queue.
    pub fn copy_of(
        alloc: Global,
        completions: &ArrayVec<Completion, MAX_POLLED>,
    ) -> Result<Completions, Memory>
        ensures { IfOk result (λ list. list ≡ completions.now.items) }
    {
        Ok(Completions {
            kept: Kept::Many(Vec::from_slice(alloc, completions.as_slice())?),
        })
    }

    /// Adds one at the end; `Memory` leaves the list as it was.
    pub fn push(&mut self, alloc: Global, completion: Completion) -> Result<(), Memory>
        requires { length self.old < MAX_POLLED }
        ensures ok { OnOk result (self.new ≡ self.old ++ completion ∷ []) }
        ensures err { OnErr result (self.new ≡ self.old) }
    {
        let mut many = match &mut self.kept {
            Kept::Few(few) if few.is_empty() => {
                few.push(completion);
                return Ok(());
            }
            Kept::Few(few) => {
                let mut many = Vec::with_capacity(alloc, MORE)?;
                many.extend_from_slice(few.as_slice())?;
                many
            }
            Kept::Many(many) => {
                many.push(completion)?;
                return Ok(());
            }
        };
        many.push(completion)?;
        self.kept = Kept::Many(many);
        Ok(())
    }

    /// The completions in order.
    pub fn as_slice(&self) -> &[Completion]
        ensures items { result.now ≡ self.now }
        ensures few { length result.now ≤ MAX_POLLED }
    {
        match &self.kept {
            Kept::Few(few) => few.as_slice(),
            Kept::Many(many) => many.as_slice(),
        }
    }
}

impl Clone for Completions {
    ghost is_clone = { λ list copy. copy ≡ list };

    fn clone(&self) -> Result<Completions, AllocError> {
        let kept = match &self.kept {
            Kept::Few(few) => Kept::Few(few.clone()?),
            Kept::Many(many) => Kept::Many(Vec::from_slice(*many.allocator(), many.as_slice())?),
        };
        Ok(Completions { kept })
    }
}
