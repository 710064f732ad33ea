ghost use Rattle.std.specs.Prelude.{◌≡◌, IfOk};
ghost use Rattle.std.specs.Str.{bytes_eq};
ghost use Rattle.ca_trace_lex.specs.Compared.{after, is_whole};
ghost use Rattle.ca_trace_lex.specs.Names as names;
ghost use Rattle.ca_trace_lex.specs.Words.{Gives};

use crate::in_word::InWord;
use crate::stop::Stop;
use ca_base::Memory;
use std::fmt;
use std::fmt::{Display, Write};
use std::marker::Model;

/// A value of which there are few, each with a name: the text that it displays as.
pub trait Named: Display + Copy + 'static {
    ghost use Rattle.std.specs.Prelude.{◌≡◌, ℕ, List, Some};

    ghost text: { Self → List ℕ };

    ghost all: { List Self };

    /// All values, in the order in which a word is compared with their names.
    fn all() -> &'static [Self]
        ensures { result.now ≡ all };

    ghost shows: { (x : Self) → Self.output x ≡ Some (text x) };
}

/// A word that is compared with what a value displays as. Contracts see what of the word is left behind the pieces that
/// were displayed, or nothing where it does not begin with these.
#[derive(Drop)]
struct Compared<'a> {
    left: Option<&'a [u8]>,
}

impl<'a> Model for Compared<'a> {
    ghost use Rattle.std.specs.Prelude.{ℕ, List, Option};
    ghost use Rattle.ca_trace_lex.specs.Compared.{view_of};

    ghost Value = { Option (List ℕ) };

    ghost view = { view_of };
}

impl<'a> fmt::Write for Compared<'a> {
    ghost write_str_gives = { λ compared piece left. left ≡ after piece compared };

    #[inline(always)]
    fn write_str(&mut self, piece: &str) -> fmt::Result {
        if let Some(left) = self.left {
            self.left = left.strip_prefix(piece.as_bytes());
        }
        Ok(())
    }
}

impl<'a> Compared<'a> {
    /// Whether the word was displayed, and no more.
    #[inline(always)]
    fn is_whole(&self) -> bool
        ensures { result ≡ is_whole self.now }
    {
        match self.left {
            Some(left) => left.is_empty(),
            None => false,
        }
    }
}

/// Whether a word is this value's name. An error of a display counts as want of memory.
#[inline(always)]
fn is_named<N: Named>(value: N, word: &[u8]) -> Result<bool, Memory>
    ensures { IfOk result (λ is. is ≡ bytes_eq word.now (N.text value)) }
{
    let mut compared = Compared { left: Some(word) };
    match compared.write(value) {
        Ok(()) => Ok(compared.is_whole()),
        Err(_) => Err(Memory),
    }
}

/// The first of these values whose name a word is.
#[tactic(auto, unfolding(crate::specs::Names::find_named))]
fn find_named<N: Named>(all: &[N], word: &[u8]) -> Result<N, Stop>
    ensures { Gives result (names.find_named N.text all.now word.now) }
{
    for value in all {
        if is_named(*value, word)? {
            return Ok(*value);
        }
    }
    Err(Stop::Outside)
}

/// A name is read as the value whose name it is.
impl<N: Named> InWord for N {
    ghost reading = { names.find_named N.text N.all };

    fn in_word(word: &[u8]) -> Result<N, Stop> {
        find_named(N::all(), word)
    }
}
