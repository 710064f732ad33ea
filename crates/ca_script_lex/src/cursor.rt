ghost use Rattle.std.specs.Prelude.{◌≡◌, ◌==◌, ◌≤◌, false, length, take, drop, slice_index, if◌then◌else◌, Ok, Err};
ghost use Rattle.ca_script_lex.specs.declared.cause.ScriptCause.TheVariants as causes;
ghost use Rattle.ca_script_lex.specs.Reading as reading;
ghost use Rattle.ca_script_lex.specs.Reading.{Answers, AnswersFrom};
ghost use Rattle.std.specs.List.{position_or_len};
ghost use Rattle.ca_script_lex.specs.Words.{words_of};

use crate::cause::ScriptCause;
use crate::line_error::LineError;
use std::marker::Model;

/// The words of a line, from the front. Contracts see them as a list.
#[derive(Drop)]
pub struct LineWords<'a> {
    text: &'a [u8],
}

impl<'a> Model for LineWords<'a> {
    ghost use Rattle.std.specs.Prelude.{ℕ, List};
    ghost use Rattle.ca_script_lex.specs.CursorView.{view_of};

    ghost Value = { List (List ℕ) };

    ghost view = { view_of };
}

impl<'a> LineWords<'a> {
    /// All words of a line.
    pub fn of(line: &'a [u8]) -> LineWords<'a>
        ensures { result ≡ words_of line.now }
    {
        LineWords { text: line }
    }

    /// Takes the first word. `Missing` comes exactly where none is left.
    #[tactic(auto, using(crate::proofs::LineLemmas::cutting))]
    pub fn take_word(&mut self) -> Result<&'a [u8], LineError>
        ensures { AnswersFrom (λ w. w.now) result self.new (reading.first_word self.old) }
    {
        let text = behind_spaces(self.text);
        if text.is_empty() {
            return Err(LineError::Refused(ScriptCause::Missing));
        }
        let (word, rest) = cut(text);
        *self = LineWords::of(rest);
        Ok(word)
    }

    /// Takes what is left, which has to be nothing. `Extra` comes exactly where a word is left.
    pub fn expect_end(&mut self) -> Result<(), LineError>
        ensures { Answers (λ x. x) result (if length self.old == 0 then Ok tt else Err causes.Extra) }
    {
        match self.take_word() {
            Ok(_) => Err(LineError::Refused(ScriptCause::Extra)),
            Err(LineError::Memory) => Err(LineError::Memory),
            Err(LineError::Refused(_)) => Ok(()),
        }
    }
}

/// What stands behind the spaces at the front of a text.
#[inline(always)]
fn behind_spaces(text: &[u8]) -> &[u8]
    ensures words { words_of result.now ≡ words_of text.now }
    ensures front { (slice_index result.now 0 == 32) ≡ false }
{
    'spaces: for i in 0..text.len() {
        if text[i] != b' ' {
            return &text[i..];
        }
    }
    &text[text.len()..]
}

/// How many bytes stand before the first space of a text.
#[inline(always)]
fn word_length(text: &[u8]) -> usize
    ensures place { result ≡ position_or_len (λ b. b == 32) text.now }
    ensures within { result ≤ length text.now }
{
    'word: for i in 0..text.len() {
        if text[i] == b' ' {
            return i;
        }
    }
    text.len()
}

/// What stands before the first space of a text, and what stands from there on.
#[inline(always)]
fn cut(text: &[u8]) -> (&[u8], &[u8])
    ensures word { result.0.now ≡ take (position_or_len (λ b. b == 32) text.now) text.now }
    ensures rest { result.1.now ≡ drop (position_or_len (λ b. b == 32) text.now) text.now }
{
    let length = word_length(text);
    (&text[..length], &text[length..])
}
