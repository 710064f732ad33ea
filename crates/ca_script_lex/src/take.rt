ghost use Rattle.std.specs.Prelude.{◌≤◌, IfOk};
ghost use Rattle.ca_script_lex.specs.Reading.{AnswersFrom, field};
ghost use Rattle.ca_script_lex.specs.Words as spelled;

use crate::cursor::LineWords;
use crate::flags::Flags;
use crate::line_error::LineError;
use crate::number::number_within;
use arrayvec::ArrayVec;
use ca_base::limits::MAX_PIECES;
use ca_base::{Bytes, DomainId, Pages, Piece, QueueId, Rights, Slot};
use ca_trace_lex::is_name;
use std::alloc::Global;

/// A number within these limits, by the first word.
pub fn take_number(low: u64, high: u64, words: &mut LineWords) -> Result<u64, LineError>
    ensures value { AnswersFrom (λ x. x) result words.new (field (spelled.number low high) words.old) }
    ensures high { IfOk result (λ n. n ≤ high) }
{
    number_within(low, high, words.take_word()?)
}

/// A number of 8 bits, by the first word.
pub fn take_u8(words: &mut LineWords) -> Result<u8, LineError>
    ensures { AnswersFrom (λ x. x) result words.new (field (spelled.number 0 255) words.old) }
{
    Ok(take_number(0, u64::from(u8::MAX), words)? as u8)
}

/// A number of 16 bits, by the first word.
pub fn take_u16(words: &mut LineWords) -> Result<u16, LineError>
    ensures { AnswersFrom (λ x. x) result words.new (field (spelled.number 0 65535) words.old) }
{
    Ok(take_number(0, u64::from(u16::MAX), words)? as u16)
}

/// A number of 32 bits, by the first word.
pub fn take_u32(words: &mut LineWords) -> Result<u32, LineError>
    ensures { AnswersFrom (λ x. x) result words.new (field (spelled.number 0 4294967295) words.old) }
{
    Ok(take_number(0, u64::from(u32::MAX), words)? as u32)
}

/// A number of 64 bits, by the first word.
pub fn take_u64(words: &mut LineWords) -> Result<u64, LineError>
    ensures { AnswersFrom (λ x. x) result words.new (field (spelled.number 0 18446744073709551615) words.old) }
{
    take_number(0, u64::MAX, words)
}

/// A number of 16 bits or none, by the first word.
#[tactic(auto, unfolding(crate::specs::Words::optional))]
pub fn take_optional_u16(words: &mut LineWords) -> Result<Option<u16>, LineError>
    ensures { AnswersFrom (λ x. x) result words.new (field (spelled.optional 65535) words.old) }
{
    let word = words.take_word()?;
    if is_name(word, "-") {
        return Ok(None);
    }
    Ok(Some(number_within(0, 0xFFFF, word)? as u16))
}

/// A protection domain, by the first word.
pub fn take_domain(words: &mut LineWords) -> Result<DomainId, LineError>
    ensures { AnswersFrom (λ x. x) result words.new (field spelled.domain words.old) }
{
    crate::name::domain(words.take_word()?)
}

/// An object of a domain, by the first word.
pub fn take_slot(words: &mut LineWords) -> Result<Slot, LineError>
    ensures { AnswersFrom (λ x. x) result words.new (field spelled.slot words.old) }
{
    crate::name::slot(words.take_word()?)
}

/// A buffer of an adapter, by the first word.
pub fn take_buffer(words: &mut LineWords) -> Result<(u8, u16), LineError>
    ensures { AnswersFrom (λ x. x) result words.new (field (spelled.in_adapter 255 65535) words.old) }
{
    crate::name::buffer(words.take_word()?)
}

/// The flags of a request, by the first word.
pub fn take_flags(words: &mut LineWords) -> Result<Flags, LineError>
    ensures { AnswersFrom (λ x. x) result words.new (field spelled.flags words.old) }
{
    crate::flags::flags_of(words.take_word()?)
}

/// Access rights, by the first word.
pub fn take_rights(words: &mut LineWords) -> Result<Rights, LineError>
    ensures { AnswersFrom (λ x. x) result words.new (field spelled.rights words.old) }
{
    crate::flags::rights_of(words.take_word()?)
}

/// Bytes, by the first word.
pub fn take_hex(alloc: Global, words: &mut LineWords) -> Result<Bytes, LineError>
    ensures { AnswersFrom (λ x. x) result words.new (field spelled.hexadecimal words.old) }
{
    crate::hexadecimal::hexadecimal(alloc, words.take_word()?)
}

/// The pieces of a request's list, by the first word.
pub fn take_pieces(words: &mut LineWords) -> Result<ArrayVec<Piece, MAX_PIECES>, LineError>
    ensures { AnswersFrom (λ list. list.items) result words.new (field spelled.piece_list words.old) }
{
    crate::list::piece_list(words.take_word()?)
}

/// The pages of a fast registration, by the first word.
pub fn take_pages(alloc: Global, words: &mut LineWords) -> Result<Pages, LineError>
    ensures { AnswersFrom (λ x. x) result words.new (field spelled.page_list words.old) }
{
    crate::list::page_list(alloc, words.take_word()?)
}

/// A queue pair of an adapter up to this one, by the first word.
pub fn take_queue(last_adapter: u8, words: &mut LineWords) -> Result<QueueId, LineError>
    ensures { AnswersFrom (λ x. x) result words.new (field (spelled.queue last_adapter) words.old) }
{
    crate::name::queue(last_adapter, words.take_word()?)
}
