ghost use Rattle.std.specs.Prelude.{◌≡◌, ◌≤◌, ◌∷◌, [], false, nat_le, length, IfSome, Ok};
ghost use Rattle.std.specs.Str.{bytes_eq};
ghost use Rattle.ca_keys.specs.Spelling.{dash};
ghost use Rattle.ca_base.specs.declared.limits.TheConstants.{MAX_PIECES};
ghost use Rattle.std.specs.List.{list_all};
ghost use Rattle.ca_script_lex.specs.Reading.{Answers, each};
ghost use Rattle.ca_script_lex.specs.Words as words;

use crate::cause::ScriptCause;
use crate::front::{number_before, number_to_end};
use crate::line_error::LineError;
use crate::name::{are_numbers, part};
use crate::number::{is_number, limited};
use arrayvec::ArrayVec;
use ca_base::limits::MAX_PIECES;
use ca_base::{Key, Pages, Piece};
use ca_trace_lex::{Pieces, is_name};
use std::alloc::Global;

/// Whether each word of a list is three numbers with colons between.
#[tactic(auto, using(crate::proofs::ListLemmas::testing))]
fn are_pieces(mut parts: Pieces) -> bool
    ensures { result ≡ list_all words.is_piece parts.entry }
{
    while let Ok(part) = parts.take_word() {
        if !are_numbers(b':', 3, part) {
            return false;
        }
    }
    true
}

/// Whether each word of a list is a number.
#[tactic(auto, using(crate::proofs::ListLemmas::testing))]
fn are_pages(mut parts: Pieces) -> bool
    ensures { result ≡ list_all words.is_number parts.entry }
{
    while let Ok(part) = parts.take_word() {
        if !is_number(part) {
            return false;
        }
    }
    true
}

/// Whether a list has at most so many words.
#[tactic(auto, using(crate::proofs::ListLemmas::testing))]
fn has_at_most(most: usize, mut parts: Pieces) -> bool
    ensures { result ≡ nat_le (length parts.entry) most }
{
    let mut left = most;
    while let Ok(_part) = parts.take_word() {
        if left == 0 {
            return false;
        }
        left -= 1;
    }
    true
}

/// A piece of a request's list.
#[tactic(auto, unfolding(crate::specs::Words::piece))]
fn piece(word: &[u8]) -> Result<Piece, LineError>
    ensures { Answers (λ x. x) result (words.piece word.now) }
{
    let mut parts = Pieces::of(b':', word);
    let key = Key(part(0xFFFF_FFFF, &mut parts)? as u32);
    let address = part(u64::MAX, &mut parts)?;
    let length = part(0xFFFF_FFFF, &mut parts)? as u32;
    Ok(Piece {
        address,
        key,
        length,
    })
}

/// The pieces that the words of a list say, of which there are at most four.
#[tactic(auto, using(crate::proofs::ListLemmas::reading))]
fn all_pieces(mut parts: Pieces) -> Result<ArrayVec<Piece, MAX_PIECES>, LineError>
    requires { length parts ≤ MAX_PIECES }
    ensures { Answers (λ list. list.items) result (each words.piece parts.entry) }
{
    let mut list = ArrayVec::new();
    while let Ok(word) = parts.take_word() {
        list.push(piece(word)?);
    }
    Ok(list)
}

/// The pages that the words of a list say.
#[tactic(auto, using(crate::proofs::ListLemmas::reading))]
fn all_pages(alloc: Global, mut parts: Pieces) -> Result<Vec<u16>, LineError>
    ensures { Answers (λ list. list.items) result (each (words.limited 0 65535) parts.entry) }
{
    let mut list = Vec::new(alloc);
    while let Ok(word) = parts.take_word() {
        list.push(limited(0, 0xFFFF, word)? as u16)?;
    }
    Ok(list)
}

/// The piece that a list of one piece says, where its three numbers stand there and fit.
#[inline(always)]
#[tactic(auto, using(crate::proofs::FrontLemmas::lists))]
fn fitting_piece(word: &[u8]) -> Option<Piece>
    ensures { IfSome result (λ piece. bytes_eq word.now dash ≡ false → words.piece_list word.now ≡ Ok (piece ∷ [])) }
{
    let (key, rest) = number_before(b':', 0xFFFF_FFFF, word)?;
    let (address, rest) = number_before(b':', u64::MAX, rest)?;
    let length = number_to_end(0xFFFF_FFFF, rest)?;
    Some(Piece {
        address,
        key: Key(key as u32),
        length: length as u32,
    })
}

/// The pieces of a request's list, or `-` for none. One piece that fits is read in one pass; else the words of the list
/// are gone over for the first cause.
#[tactic(auto, unfolding(crate::specs::Words::piece_list))]
pub(crate) fn piece_list(word: &[u8]) -> Result<ArrayVec<Piece, MAX_PIECES>, LineError>
    ensures { Answers (λ list. list.items) result (words.piece_list word.now) }
{
    if is_name(word, "-") {
        return Ok(ArrayVec::new());
    }
    if let Some(piece) = fitting_piece(word) {
        let mut list = ArrayVec::new();
        list.push(piece);
        return Ok(list);
    }
    if !are_pieces(Pieces::of(b',', word)) {
        return Err(LineError::Refused(ScriptCause::BadNumber));
    }
    if !has_at_most(MAX_PIECES, Pieces::of(b',', word)) {
        return Err(LineError::Refused(ScriptCause::OutOfLimit));
    }
    all_pieces(Pieces::of(b',', word))
}

/// The pages of a fast registration.
#[tactic(auto, unfolding(crate::specs::Words::page_list))]
pub(crate) fn page_list(alloc: Global, word: &[u8]) -> Result<Pages, LineError>
    ensures { Answers (λ x. x) result (words.page_list word.now) }
{
    if !are_pages(Pieces::of(b',', word)) {
        return Err(LineError::Refused(ScriptCause::BadNumber));
    }
    Ok(Pages::from(all_pages(alloc, Pieces::of(b',', word))?))
}
