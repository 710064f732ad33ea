ghost use Rattle.std.specs.Prelude.{◌≡◌, ◌≤◌, IfOk, IfSome, Ok};
ghost use Rattle.ca_script_lex.specs.Reading.{Answers, AnswersFrom, field};
ghost use Rattle.ca_script_lex.specs.Words as words;

use crate::cause::ScriptCause;
use crate::front::{number_before, number_to_end};
use crate::line_error::LineError;
use crate::number::{is_number, limited};
use ca_base::{DomainId, QueueId, Slot};
use ca_trace_lex::Pieces;

/// Whether a word is so many numbers with this separator between.
#[tactic(auto, unfolding(crate::specs::Words::are_numbers), using(crate::proofs::ListLemmas::testing))]
pub(crate) fn are_numbers(separator: u8, count: usize, word: &[u8]) -> bool
    ensures { result ≡ words.are_numbers separator count word.now }
{
    let mut left = count;
    let mut parts = Pieces::of(separator, word);
    while let Ok(part) = parts.take_word() {
        if left == 0 || !is_number(part) {
            return false;
        }
        left -= 1;
    }
    left == 0
}

/// A part of a name: a number up to this one.
pub(crate) fn part(high: u64, parts: &mut Pieces) -> Result<u64, LineError>
    ensures value { AnswersFrom (λ x. x) result parts.new (field (words.limited 0 high) parts.old) }
    ensures high { IfOk result (λ n. n ≤ high) }
{
    match parts.take_word() {
        Ok(word) => limited(0, high, word),
        Err(_) => Err(LineError::Refused(ScriptCause::Missing)),
    }
}

/// An adapter, and a number there, up to these.
#[tactic(auto, unfolding(crate::specs::Words::in_adapter))]
fn in_adapter(last_adapter: u8, last: u32, word: &[u8]) -> Result<(u8, u32), LineError>
    ensures value { Answers (λ x. x) result (words.in_adapter last_adapter last word.now) }
    ensures last { IfOk result (λ x. x.1 ≤ last) }
{
    if !are_numbers(b'/', 2, word) {
        return Err(LineError::Refused(ScriptCause::BadName));
    }
    let mut parts = Pieces::of(b'/', word);
    let adapter = part(u64::from(last_adapter), &mut parts)? as u8;
    let number = part(u64::from(last), &mut parts)? as u32;
    Ok((adapter, number))
}

/// A protection domain.
#[tactic(auto, unfolding(crate::specs::Words::domain))]
pub(crate) fn domain(word: &[u8]) -> Result<DomainId, LineError>
    ensures { Answers (λ x. x) result (words.domain word.now) }
{
    let (adapter, domain) = in_adapter(255, 255, word)?;
    Ok(DomainId {
        adapter,
        domain: domain as u8,
    })
}

/// A queue pair of an adapter up to this one.
#[tactic(auto, unfolding(crate::specs::Words::queue))]
pub(crate) fn queue(last_adapter: u8, word: &[u8]) -> Result<QueueId, LineError>
    ensures { Answers (λ x. x) result (words.queue last_adapter word.now) }
{
    let (adapter, number) = in_adapter(last_adapter, 0xFFFF_FFFF, word)?;
    Ok(QueueId { adapter, number })
}

/// A buffer of an adapter.
pub(crate) fn buffer(word: &[u8]) -> Result<(u8, u16), LineError>
    ensures { Answers (λ x. x) result (words.in_adapter 255 65535 word.now) }
{
    let (adapter, buffer) = in_adapter(255, 0xFFFF, word)?;
    Ok((adapter, buffer as u16))
}

/// An object of a domain, where its three numbers stand there and fit.
#[inline(always)]
#[tactic(auto, using(crate::proofs::FrontLemmas::slots))]
fn fitting_slot(word: &[u8]) -> Option<Slot>
    ensures { IfSome result (λ slot. words.slot word.now ≡ Ok slot) }
{
    let (adapter, rest) = number_before(b'/', 255, word)?;
    let (domain, rest) = number_before(b'/', 255, rest)?;
    let slot = number_to_end(0xFFFF, rest)?;
    Some(Slot {
        domain: DomainId {
            adapter: adapter as u8,
            domain: domain as u8,
        },
        slot: slot as u16,
    })
}

/// An object of a domain. Where it is one it is read in one pass; else its parts are gone over for the first cause.
#[tactic(auto, unfolding(crate::specs::Words::slot))]
pub(crate) fn slot(word: &[u8]) -> Result<Slot, LineError>
    ensures { Answers (λ x. x) result (words.slot word.now) }
{
    if let Some(slot) = fitting_slot(word) {
        return Ok(slot);
    }
    if !are_numbers(b'/', 3, word) {
        return Err(LineError::Refused(ScriptCause::BadName));
    }
    let mut parts = Pieces::of(b'/', word);
    let adapter = part(255, &mut parts)? as u8;
    let domain = part(255, &mut parts)? as u8;
    let slot = part(0xFFFF, &mut parts)? as u16;
    Ok(Slot {
        domain: DomainId { adapter, domain },
        slot,
    })
}
