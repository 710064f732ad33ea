ghost use Rattle.std.specs.Prelude.{◌≡◌, ◌<◌, ◌≤◌, ◌^◌, ◌+◌, [], ◌∷◌, length, IfOk};
ghost use Rattle.ca_model.specs.machine.VerbAnswers.{answer_mark};
ghost use Rattle.ca_model.specs.declared.answer.Answer.TheVariants as answers;
ghost use Rattle.ca_model.specs.declared.verb.Verb.TheVariants as verbs;
ghost use Rattle.ca_adapter_acts.specs.Calls.{call_of, call_ready};

use crate::copies::{copy_of_send, copy_of_small};
use ca_base::{Memory, SendRequest, Slot};
use ca_model::{Answer, Mark, Marks, Refusal, Verb};
use std::alloc::Global;

/// Who calls which verb, and where what comes of it takes its memory.
#[derive(Clone, Copy)]
pub struct Call<'a> {
    pub alloc: Global,
    pub by: u32,
    pub verb: &'a Verb,
}

/// A call with a copy of its verb, and room for its marks: what is made before anything changes.
#[derive(Drop)]
pub struct Ready {
    pub by: u32,
    pub verb: Verb,
    pub marks: Marks,
}

impl Call<'_> {
    /// The verb's copy, and room for its answer and so many marks more.
    pub fn ready(&self, more: u32) -> Result<Ready, Memory>
        requires { more < 2 ^ 16 }
        ensures call { IfOk result (λ r. call_ready r ≡ call_of self.now) }
        ensures marks { IfOk result (λ r. r.marks.marks ≡ []) }
        ensures room { IfOk result (λ r. more < r.marks.room) }
    {
        let mut marks = Marks::empty(self.alloc);
        marks.reserve(more + 1)?;
        Ok(Ready {
            by: self.by,
            verb: self.verb.clone()?,
            marks,
        })
    }

    /// The verb's copy, and room for its answer and these marks, which were made before.
    pub fn ready_for(&self, made: &[Mark]) -> Result<Ready, Memory>
        ensures call { IfOk result (λ r. call_ready r ≡ call_of self.now) }
        ensures marks { IfOk result (λ r. r.marks.marks ≡ []) }
        ensures room { IfOk result (λ r. length made.now < r.marks.room) }
    {
        let Ok(count) = u32::try_from(made.len() + 1) else {
            return Err(Memory);
        };
        let mut marks = Marks::empty(self.alloc);
        marks.reserve(count)?;
        Ok(Ready {
            by: self.by,
            verb: self.verb.clone()?,
            marks,
        })
    }

    /// The mark of the verb's answer, where that is known before anything changes.
    #[inline(never)]
    pub fn answer(&self, answer: Answer) -> Result<Marks, Memory>
        ensures { IfOk result (λ m. m.marks ≡ answer_mark (call_of self.now) answer ∷ []) }
    {
        let mut marks = Vec::with_capacity(self.alloc, 1)?;
        let verb = self.verb.clone()?;
        marks.push_reserved(Mark::Verb {
            by: self.by,
            verb,
            answer,
        });
        Ok(Marks::from(marks))
    }

    /// The same, where a request is posted to a send queue. What comes most often is copied where it comes to lie.
    #[inline(always)]
    pub fn answer_post(&self, answer: Answer) -> Result<Marks, Memory>
        ensures { IfOk result (λ m. m.marks ≡ answer_mark (call_of self.now) answer ∷ []) }
    {
        let Verb::PostSend { slot, request } = self.verb else {
            return self.answer(answer);
        };
        let Some(request) = copy_of_small(request) else {
            return self.answer_send(*slot, request, answer);
        };
        let mut marks = Vec::with_capacity(self.alloc, 1)?;
        marks.push_reserved(Mark::Verb {
            by: self.by,
            verb: Verb::PostSend {
                slot: *slot,
                request,
            },
            answer,
        });
        Ok(Marks::from(marks))
    }

    /// The same, where any request is posted.
    #[inline(never)]
    fn answer_send(
        &self,
        slot: Slot,
        request: &SendRequest,
        answer: Answer,
    ) -> Result<Marks, Memory>
        ensures { IfOk result (λ m. m.marks
            ≡ answer_mark (record { by = self.now.by; verb = verbs.PostSend slot request.now }) answer ∷ []) }
    {
        let mut marks = Vec::with_capacity(self.alloc, 1)?;
        let request = copy_of_send(request)?;
        marks.push_reserved(Mark::Verb {
            by: self.by,
            verb: Verb::PostSend { slot, request },
            answer,
        });
        Ok(Marks::from(marks))
    }

    /// The same, where completions are polled.
    #[inline(always)]
    pub fn answer_poll(&self, answer: Answer) -> Result<Marks, Memory>
        ensures { IfOk result (λ m. m.marks ≡ answer_mark (call_of self.now) answer ∷ []) }
    {
        let Verb::Poll { slot, n, least } = self.verb else {
            return self.answer(answer);
        };
        let mut marks = Vec::with_capacity(self.alloc, 1)?;
        marks.push_reserved(Mark::Verb {
            by: self.by,
            verb: Verb::Poll {
                slot: *slot,
                n: *n,
                least: *least,
            },
            answer,
        });
        Ok(Marks::from(marks))
    }

    /// The mark of the verb's refusal.
    #[inline(never)]
    pub fn refuse(&self, refusal: Refusal) -> Result<Marks, Memory>
        ensures { IfOk result (λ m. m.marks ≡ answer_mark (call_of self.now) (answers.Refused refusal) ∷ []) }
    {
        self.answer(Answer::Refused(refusal))
    }
}

impl Ready {
    /// The mark of the verb's answer, in the room that was made. It takes no memory.
    pub fn answer(self, answer: Answer) -> Marks
        requires empty { self.marks.marks ≡ [] }
        requires room { 0 < self.marks.room }
        ensures marks { result.marks ≡ answer_mark (call_ready self) answer ∷ [] }
        ensures room { self.marks.room ≤ result.room + 1 }
    {
        let Ready {
            by,
            verb,
            mut marks,
        } = self;
        marks.push(Mark::Verb { by, verb, answer });
        marks
    }
}
