ghost use Rattle.std.specs.Prelude.{◌≡◌, ◌≤◌, length};
ghost use Rattle.ca_base.specs.declared.limits.TheConstants.{MAX_PIECES};
ghost use Rattle.ca_trace_lex.specs.Words as words;
ghost use Rattle.ca_trace_lex.specs.Words.{Gives, GivesAs};

use crate::id::address_in;
use crate::pieces::Pieces;
use crate::stop::Stop;
use crate::word::is_name;
use arrayvec::ArrayVec;
use ca_base::limits::MAX_PIECES;
use ca_base::{Pages, Piece, Run, Runs};
use std::alloc::Global;

/// A piece of a request's list.
#[tactic(auto, unfolding(crate::specs::Words::piece_in))]
fn piece_in(word: &[u8]) -> Result<Piece, Stop>
    ensures { Gives result (words.piece_in word.now) }
{
    let mut parts = Pieces::of(b':', word);
    let key = parts.take()?;
    let address = address_in(parts.take_word()?)?;
    let length = parts.take()?;
    Ok(Piece {
        address,
        key,
        length,
    })
}

/// A run of a buffer.
#[tactic(auto, unfolding(crate::specs::Words::run_in))]
fn run_in(word: &[u8]) -> Result<Run, Stop>
    ensures { Gives result (words.run_in word.now) }
{
    let mut parts = Pieces::of(b':', word);
    let (adapter, buffer) = parts.take()?;
    let mut numbers = Pieces::of(b'+', parts.take_word()?);
    let offset = numbers.take()?;
    let length = numbers.take()?;
    Ok(Run {
        adapter,
        buffer,
        offset,
        length,
    })
}

/// What each word of a list is read as.
#[tactic(auto, using(crate::proofs::ListLemmas::reading))]
fn all_pages(alloc: Global, mut parts: Pieces) -> Result<Vec<u16>, Stop>
    ensures { GivesAs (λ list. list.items) result (words.all_in (words.number_in u16.MAX) parts.entry) }
{
    let mut list = Vec::new(alloc);
    while !parts.is_empty() {
        let page = parts.take()?;
        list.push(page)?;
    }
    Ok(list)
}

/// What each word of a list is read as.
#[tactic(auto, using(crate::proofs::ListLemmas::reading))]
fn all_runs(alloc: Global, mut parts: Pieces) -> Result<Vec<Run>, Stop>
    ensures { GivesAs (λ list. list.items) result (words.all_in words.run_in parts.entry) }
{
    let mut list = Vec::new(alloc);
    while !parts.is_empty() {
        let run = run_in(parts.take_word()?)?;
        list.push(run)?;
    }
    Ok(list)
}

/// What each word of a list is read as.
#[tactic(auto, using(crate::proofs::ListLemmas::reading))]
fn all_pieces(alloc: Global, mut parts: Pieces) -> Result<Vec<Piece>, Stop>
    ensures { GivesAs (λ list. list.items) result (words.all_in words.piece_in parts.entry) }
{
    let mut list = Vec::new(alloc);
    while !parts.is_empty() {
        let piece = piece_in(parts.take_word()?)?;
        list.push(piece)?;
    }
    Ok(list)
}

/// Page numbers with commas between, or none.
pub(crate) fn pages_in(alloc: Global, word: &[u8]) -> Result<Pages, Stop>
    ensures { Gives result (words.list_in (words.number_in u16.MAX) word.now) }
{
    if is_name(word, "-") {
        return Ok(Pages::empty(alloc));
    }
    Ok(Pages::from(all_pages(alloc, Pieces::of(b',', word))?))
}

/// Runs with commas between, or none.
pub(crate) fn runs_in(alloc: Global, word: &[u8]) -> Result<Runs, Stop>
    ensures { Gives result (words.list_in words.run_in word.now) }
{
    if is_name(word, "-") {
        return Ok(Runs::empty(alloc));
    }
    Ok(Runs::from(all_runs(alloc, Pieces::of(b',', word))?))
}

/// Pieces with commas between, or none.
fn piece_list_in(alloc: Global, word: &[u8]) -> Result<Vec<Piece>, Stop>
    ensures { GivesAs (λ list. list.items) result (words.list_in words.piece_in word.now) }
{
    if is_name(word, "-") {
        return Ok(Vec::new(alloc));
    }
    all_pieces(alloc, Pieces::of(b',', word))
}

/// At most four pieces, as a list of a request holds them.
fn four_of(list: &[Piece]) -> ArrayVec<Piece, MAX_PIECES>
    requires { length list.now ≤ MAX_PIECES }
    ensures { result.items ≡ list.now }
{
    let mut pieces = ArrayVec::new();
    for piece in list {
        pieces.push(*piece);
    }
    pieces
}

/// The pieces of a request's list, of which there are at most four.
#[tactic(auto, unfolding(crate::specs::Words::pieces_in))]
pub(crate) fn pieces_in(alloc: Global, word: &[u8]) -> Result<ArrayVec<Piece, MAX_PIECES>, Stop>
    ensures { GivesAs (λ list. list.items) result (words.pieces_in word.now) }
{
    let list = piece_list_in(alloc, word)?;
    if list.len() <= MAX_PIECES {
        Ok(four_of(list.as_slice()))
    } else {
        Err(Stop::Outside)
    }
}
