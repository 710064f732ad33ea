ghost use Rattle.ca_trace_lex.specs.Words as words;
ghost use Rattle.ca_trace_lex.specs.Words.{Reads};

use crate::pieces::Pieces;
use crate::stop::Stop;
use arrayvec::ArrayVec;
use ca_base::limits::MAX_PIECES;
use ca_base::{Bytes, Pages, Piece, Runs};
use std::alloc::Global;

/// Bytes, by the first word.
pub fn take_hex(alloc: Global, line: &mut Pieces) -> Result<Bytes, Stop>
    ensures { Reads (λ x. x) result line.new (words.field (words.hex_in) line.old) }
{
    crate::digits::hex_in(alloc, line.take_word()?)
}

/// Page numbers, by the first word.
pub fn take_pages(alloc: Global, line: &mut Pieces) -> Result<Pages, Stop>
    ensures { Reads (λ x. x) result line.new (words.field (words.list_in (words.number_in u16.MAX)) line.old) }
{
    crate::list::pages_in(alloc, line.take_word()?)
}

/// Runs, by the first word.
pub fn take_runs(alloc: Global, line: &mut Pieces) -> Result<Runs, Stop>
    ensures { Reads (λ x. x) result line.new (words.field (words.list_in words.run_in) line.old) }
{
    crate::list::runs_in(alloc, line.take_word()?)
}

/// The pieces of a request's list, by the first word.
pub fn take_pieces(alloc: Global, line: &mut Pieces) -> Result<ArrayVec<Piece, MAX_PIECES>, Stop>
    ensures { Reads (λ list. list.items) result line.new (words.field (words.pieces_in) line.old) }
{
    crate::list::pieces_in(alloc, line.take_word()?)
}
