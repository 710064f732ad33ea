ghost use Rattle.std.specs.Prelude.{◌≤◌, length};
ghost use Rattle.std.specs.List.{AllByRecursion};
ghost use Rattle.ca_base.specs.declared.limits.TheConstants.{MAX_PIECES};
ghost use Rattle.hex.specs.Hex.{IsBytes};
ghost use Rattle.ca_trace_lex.specs.Fits.{PieceFits, RunFits};

use crate::word::{piece_fits, run_fits, u16_fits};
use arrayvec::ArrayVec;
use ca_base::limits::MAX_PIECES;
use ca_base::{Piece, Run};

/// Bytes are below 256.
pub fn bytes_fit(_bytes: &[u8])
    ensures { IsBytes _bytes.now }
{}

/// What holds of each run holds of all.
pub fn runs_fit(runs: &[Run])
    ensures { AllByRecursion RunFits runs.now }
{
    for run in runs {
        run_fits(*run);
    }
}

/// What holds of each page holds of all.
pub fn pages_fit(pages: &[u16])
    ensures { AllByRecursion (λ page. page ≤ u16.MAX) pages.now }
{
    for page in pages {
        u16_fits(*page);
    }
}

fn each_piece_fits(list: &[Piece])
    ensures { AllByRecursion PieceFits list.now }
{
    for piece in list {
        piece_fits(*piece);
    }
}

/// A request's list has at most four pieces.
pub fn pieces_fit(list: &ArrayVec<Piece, MAX_PIECES>)
    ensures few { length list.now.items ≤ MAX_PIECES }
    ensures each { AllByRecursion PieceFits list.now.items }
{
    each_piece_fits(list.as_slice());
}
