ghost use Rattle.std.specs.Prelude.{◌≡◌, ◌==◌, ◌<◌, ◌+◌, length, drop, MatchResult, None, Some};
ghost use Rattle.std.specs.List.{position};
ghost use Rattle.ca_trace_lex.specs.Words.{pieces, next_of};
ghost use Rattle.ca_trace_lex.specs.declared.stop.Stop.TheVariants as stops;

use crate::stop::Stop;
use memchr::memchr;
use std::marker::Model;

/// The words of a text that stand between separators, from the front. Contracts see them as a list.
#[derive(Drop)]
pub struct Pieces<'a> {
    text: &'a [u8],
    separator: u8,
    over: bool,
}

impl<'a> Model for Pieces<'a> {
    ghost use Rattle.std.specs.Prelude.{ℕ, List};
    ghost use Rattle.ca_trace_lex.specs.PiecesView.{view_of};

    ghost Value = { List (List ℕ) };

    ghost view = { view_of };
}

/// Where the first separator stands.
#[tactic(auto, using(crate::proofs::PlaceLemmas::first_place))]
pub fn place_of(separator: u8, text: &[u8]) -> Option<usize>
    ensures { result ≡ position (λ b. b == separator) text.now }
{
    memchr(separator, text)
}

/// What stands behind a place.
fn behind(place: usize, text: &[u8]) -> &[u8]
    requires { place < length text.now }
    ensures { result.now ≡ drop (place + 1) text.now }
{
    &text[place + 1..]
}

impl<'a> Pieces<'a> {
    /// All words of a text.
    pub fn of(separator: u8, text: &'a [u8]) -> Pieces<'a>
        ensures { result ≡ pieces separator text.now }
    {
        Pieces {
            text,
            separator,
            over: false,
        }
    }

    /// Whether no word is left.
    pub fn is_empty(&self) -> bool
        ensures { result ≡ (length self.now == 0) }
    {
        self.over
    }

    /// The first word. `Outside` comes exactly where none is left.
    pub fn first_word(&self) -> Result<&'a [u8], Stop>
        ensures { MatchResult result (λ w. next_of self.now ≡ Some (w.now, drop 1 self.now))
            (λ stop. (stop ≡ stops.Outside) × (next_of self.now ≡ None)) }
    {
        if self.over {
            return Err(Stop::Outside);
        }
        match place_of(self.separator, self.text) {
            Some(place) => Ok(&self.text[..place]),
            None => Ok(self.text),
        }
    }

    /// Takes the first word. `Outside` comes exactly where none is left.
    pub fn take_word(&mut self) -> Result<&'a [u8], Stop>
        ensures { MatchResult result (λ w. next_of self.old ≡ Some (w.now, self.new))
            (λ stop. (stop ≡ stops.Outside) × (next_of self.old ≡ None)) }
    {
        if self.over {
            return Err(Stop::Outside);
        }
        match place_of(self.separator, self.text) {
            Some(place) => {
                let word = &self.text[..place];
                *self = Pieces::of(self.separator, behind(place, self.text));
                Ok(word)
            }
            None => {
                self.over = true;
                Ok(self.text)
            }
        }
    }
}
