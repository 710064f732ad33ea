ghost use Rattle.ca_trace_lex.specs.Fits.{AllFit};
ghost use Rattle.ca_trace.specs.Table.{granted_words, mark_words, verdict_words};

use crate::answer::{answer_fits, completion_fits};
use crate::list::{bytes_fit, runs_fit};
use crate::word::{
    domain_fits, key_fits, perhaps_queue_fits, perhaps_u64_fits, queue_fits, u8_fits, u16_fits,
    u32_fits, u64_fits,
};
use ca_base::{Grant, Verdict};
use ca_model::Mark;

fn grant_fits(grant: &Grant)
    ensures { AllFit (granted_words grant.now) }
{
    domain_fits(grant.domain);
    key_fits(grant.key);
    perhaps_queue_fits(grant.queue);
    u64_fits(grant.address);
    u32_fits(grant.length);
    runs_fit(grant.runs.as_slice());
}

fn verdict_fits(verdict: &Verdict)
    ensures { AllFit (verdict_words verdict.now) }
{
    match verdict {
        Verdict::Read(bytes) | Verdict::Wrote(bytes) => bytes_fit(bytes.as_slice()),
        Verdict::Swapped { found, put } => {
            u64_fits(*found);
            u64_fits(*put);
        }
        Verdict::Denied(_) => {}
    }
}

/// The words of a mark.
pub fn mark_fits(mark: &Mark)
    ensures { AllFit (mark_words mark.now) }
{
    match mark {
        Mark::Verb { answer, .. } => answer_fits(answer),
        Mark::Granted(grant) => grant_fits(grant),
        Mark::Revoked { adapter, key } => {
            u8_fits(*adapter);
            key_fits(*key);
        }
        Mark::Remote {
            queue,
            domain,
            envelope,
            key,
            address,
            length,
            verdict,
            ..
        } => {
            queue_fits(*queue);
            domain_fits(*domain);
            perhaps_u64_fits(*envelope);
            key_fits(*key);
            u64_fits(*address);
            u32_fits(*length);
            verdict_fits(verdict);
        }
        Mark::Local {
            queue,
            domain,
            key,
            address,
            length,
            verdict,
            ..
        } => {
            queue_fits(*queue);
            domain_fits(*domain);
            key_fits(*key);
            u64_fits(*address);
            u32_fits(*length);
            verdict_fits(verdict);
        }
        Mark::Stored { place, bytes } => {
            u8_fits(place.adapter);
            u16_fits(place.buffer);
            u32_fits(place.offset);
            bytes_fit(bytes.as_slice());
        }
        Mark::Sent {
            source,
            target,
            index,
            request,
            bytes,
        } => {
            queue_fits(*source);
            queue_fits(*target);
            perhaps_u64_fits(*index);
            perhaps_u64_fits(*request);
            bytes_fit(bytes.as_slice());
        }
        Mark::Lost { target, index } | Mark::Arrived { target, index } => {
            queue_fits(*target);
            perhaps_u64_fits(*index);
        }
        Mark::Dropped { target, .. } => queue_fits(*target),
        Mark::Timer { queue, .. } => queue_fits(*queue),
        Mark::Done { completion, .. } => completion_fits(*completion),
    }
}
