ghost use Rattle.std.specs.Prelude.{◌≤◌, length};
ghost use Rattle.std.specs.List.{AllByRecursion};
ghost use Rattle.ca_base.specs.declared.limits.TheConstants.{MAX_POLLED};
ghost use Rattle.ca_trace_lex.specs.Fits.{AllFit};
ghost use Rattle.ca_trace.specs.Table.{answer_words, completion_words};

use crate::list::bytes_fit;
use crate::word::{
    key_fits, perhaps_key_fits, perhaps_u32_fits, queue_fits, u16_fits, u32_fits, u64_fits,
};
use ca_base::Completion;
use ca_model::{Answer, Completions};

/// The words of a completion.
pub fn completion_fits(completion: Completion)
    ensures { AllFit (completion_words completion) }
{
    queue_fits(completion.queue);
    u64_fits(completion.place);
    u64_fits(completion.id);
    u32_fits(completion.bytes);
    perhaps_u32_fits(completion.imm);
    perhaps_key_fits(completion.invalidated);
}

fn each_completion_fits(completions: &[Completion])
    ensures { AllByRecursion (λ c. AllFit (completion_words c)) completions.now }
{
    for completion in completions {
        completion_fits(*completion);
    }
}

/// A poll gives at most `MAX_POLLED` completions.
pub fn completions_fit(completions: &Completions)
    ensures few { length completions.now ≤ MAX_POLLED }
    ensures each { AllByRecursion (λ c. AllFit (completion_words c)) completions.now }
{
    each_completion_fits(completions.as_slice());
}

fn polled_fits(completions: &Completions)
    ensures { length completions.now ≤ u8.MAX }
{
    completions_fit(completions);
}

/// The words of an answer on the line of its call.
pub fn answer_fits(answer: &Answer)
    ensures { AllFit (answer_words answer.now) }
{
    match answer {
        Answer::Fine | Answer::Refused(_) => {}
        Answer::Key(key) => key_fits(*key),
        Answer::Queue {
            number,
            incarnation,
        } => {
            u32_fits(*number);
            u32_fits(*incarnation);
        }
        Answer::Posted(key) => perhaps_key_fits(*key),
        Answer::Polled(completions) => polled_fits(completions),
        Answer::Query {
            incarnation,
            sends,
            receives,
            ..
        } => {
            u32_fits(*incarnation);
            u16_fits(*sends);
            u16_fits(*receives);
        }
        Answer::Loaded(bytes) => bytes_fit(bytes.as_slice()),
    }
}
