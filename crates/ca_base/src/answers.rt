use crate::queue_numbers::Queued;
use ca_keys::Memory;
use std::alloc::Global;
use std::collections::VecDeque;
use std::marker::Model;

/// The response queue of a queue pair, from its front. Contracts see it as a list.
#[derive(Drop)]
pub struct Answers {
    items: VecDeque<Queued>,
}

impl Model for Answers {
    ghost use Rattle.std.specs.Prelude.{List};
    ghost use Rattle.ca_base.specs.declared.queue_numbers.Queued.{Queued};

    ghost Value = { List Queued };

    ghost view = { λ a. a.items.items };
}

impl Answers {
    ghost use Rattle.std.specs.Prelude.{◌≡◌, ◌-◌, ◌<◌, [], ◌∷◌, ◌++◌, drop, length, slice_get, slice_set, OnOk, OnErr};
    ghost use Rattle.ca_base.specs.objects.Answers.{answers_before, duplicate_count, ends_with_ack, fresh_count, has_nak_from, with_ack_at_end};

    /// No answers. It takes no memory; what is pushed later comes from `alloc`.
    pub fn empty(alloc: Global) -> Answers
        ensures { result ≡ [] }
    {
        Answers {
            items: VecDeque::new(alloc),
        }
    }

    /// How many answers wait.
    pub fn len(&self) -> usize
        ensures { result ≡ length self.now }
    {
        self.items.len()
    }

    /// The answer at a place counted from the front. None comes exactly where there are at most that many.
    pub fn get(&self, place: usize) -> Option<Queued>
        ensures { result ≡ slice_get self.now place }
    {
        self.items.get(place).copied()
    }

    /// Adds an answer at the end; `Memory` leaves the queue as it was.
    pub fn push(&mut self, answer: Queued) -> Result<(), Memory>
        ensures ok { OnOk result (self.new ≡ self.old ++ answer ∷ []) }
        ensures err { OnErr result (self.new ≡ self.old) }
    {
        self.items.push_back(answer)?;
        Ok(())
    }

    /// Adds an acknowledgement at the end, in the place of one that stands there; `Memory` leaves the queue as it was.
    #[tactic(auto, using(crate::proofs::ResponseQueueLemmas::ack_set, crate::proofs::ResponseQueueLemmas::ack_added))]
    pub fn acknowledge(&mut self, psn: u64) -> Result<(), Memory>
        ensures ok { OnOk result (self.new ≡ with_ack_at_end psn self.old) }
        ensures err { OnErr result (self.new ≡ self.old) }
    {
        let answer = Queued::Ack { psn };
        if self.ends_with_ack() {
            self.set_last(answer);
        } else {
            self.items.push_back(answer)?;
        }
        Ok(())
    }

    #[tactic(auto, using(crate::proofs::ResponseQueueLemmas::last_ack, crate::proofs::ResponseQueueLemmas::none_last))]
    fn ends_with_ack(&self) -> bool
        ensures { result ≡ ends_with_ack self.now }
    {
        match self.items.back() {
            Some(answer) => answer.is_ack(),
            None => false,
        }
    }

    /// Puts an answer in the place of the one at the end. It takes no memory.
    pub fn set_last(&mut self, answer: Queued)
        ensures { self.new ≡ slice_set self.old (length self.old - 1) answer }
    {
        if let Some(last) = self.items.back_mut() {
            *last = answer;
        }
    }

    /// Takes the answer at the front away. None comes exactly where none waits. It takes no memory.
    pub fn pop(&mut self) -> Option<Queued>
        ensures front { result ≡ slice_get self.old 0 }
        ensures rest { self.new ≡ drop 1 self.old }
    {
        self.items.pop_front()
    }

    /// Puts an answer in the place of the one at the front. It takes no memory.
    pub fn set_front(&mut self, answer: Queued)
        requires { 0 < length self.old }
        ensures { self.new ≡ answer ∷ drop 1 self.old }
    {
        if let Some(front) = self.items.front_mut() {
            *front = answer;
        }
    }

    /// Removes the answers at a PSN and at later ones. It takes no memory.
    pub fn keep_before(&mut self, psn: u64)
        ensures { self.new ≡ answers_before psn self.old }
    {
        self.items.retain(|answer| answer.psn() < psn);
    }

    /// Whether a NAK or an RNR NAK waits at a PSN or at a later one.
    pub fn has_nak_from(&self, psn: u64) -> bool
        ensures { result ≡ has_nak_from psn self.now }
    {
        self.items
            .iter()
            .any(|answer| answer.is_nak() && answer.psn() >= psn)
    }

    /// How many answers are of READs and atomics that came for the first time.
    pub fn fresh_count(&self) -> usize
        ensures { result ≡ fresh_count self.now }
    {
        self.items.iter().filter(|answer| answer.is_fresh()).count()
    }

    /// How many answers are of READs and atomics that came once more.
    pub fn duplicate_count(&self) -> usize
        ensures { result ≡ duplicate_count self.now }
    {
        self.items
            .iter()
            .filter(|answer| answer.is_duplicate())
            .count()
    }
}
