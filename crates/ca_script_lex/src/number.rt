ghost use Rattle.std.specs.Prelude.{◌≡◌, ◌≤◌, drop, IfOk};
ghost use Rattle.ca_script_lex.specs.Reading.{Answers};
ghost use Rattle.ca_script_lex.specs.Words as words;

use crate::cause::ScriptCause;
use crate::front::number_to_end;
use crate::line_error::LineError;
use ca_trace_lex::{Stop, address_in, u64_in};

/// Whether there is a digit, and all are digits of this base.
fn are_digits(base: u32, word: &[u8]) -> bool
    requires low { 2 ≤ base }
    requires high { base ≤ 36 }
    ensures { result ≡ words.are_digits base word.now }
{
    if word.is_empty() {
        return false;
    }
    for c in word {
        if !char::from(*c).is_digit(base) {
            return false;
        }
    }
    true
}

/// Whether the word begins with `0x`.
pub(crate) fn is_hexadecimal(word: &[u8]) -> bool
    ensures { result ≡ words.is_hexadecimal word.now }
{
    word.len() >= 2 && word[0] == b'0' && word[1] == b'x'
}

/// Whether a word has the form of a number.
#[tactic(auto, unfolding(crate::specs::Words::is_number))]
pub fn is_number(word: &[u8]) -> bool
    ensures { result ≡ words.is_number word.now }
{
    if is_hexadecimal(word) {
        are_digits(16, &word[2..])
    } else {
        are_digits(10, word)
    }
}

/// The number that the digits of a word say, where it fits into 64 bits.
#[tactic(auto, unfolding(crate::specs::Words::limited, crate::specs::Words::value_of, ca_trace_lex::specs::Words::address_in), using(crate::proofs::NumberLemmas::value_in_is))]
fn value(word: &[u8]) -> Result<u64, LineError>
    ensures { Answers (λ x. x) result (words.limited 0 18446744073709551615 word.now) }
{
    let read = if is_hexadecimal(word) {
        address_in(word)
    } else {
        u64_in(word)
    };
    match read {
        Ok(n) => Ok(n),
        Err(Stop::Outside) => Err(LineError::Refused(ScriptCause::OutOfLimit)),
        Err(Stop::Memory) => Err(LineError::Memory),
    }
}

/// The number that a word of the form of a number says, where it is within these limits.
#[tactic(auto, unfolding(crate::specs::Words::limited))]
pub(crate) fn limited(low: u64, high: u64, word: &[u8]) -> Result<u64, LineError>
    ensures value { Answers (λ x. x) result (words.limited low high word.now) }
    ensures high { IfOk result (λ n. n ≤ high) }
{
    let n = value(word)?;
    if low <= n && n <= high {
        Ok(n)
    } else {
        Err(LineError::Refused(ScriptCause::OutOfLimit))
    }
}

/// A number within these limits. Where it is one it is read in one pass; else its form is looked at for the cause.
#[tactic(auto, unfolding(crate::specs::Words::number, crate::specs::Words::limited))]
pub fn number_within(low: u64, high: u64, word: &[u8]) -> Result<u64, LineError>
    ensures value { Answers (λ x. x) result (words.number low high word.now) }
    ensures high { IfOk result (λ n. n ≤ high) }
{
    if let Some(n) = number_to_end(high, word)
        && low <= n
    {
        return Ok(n);
    }
    if is_number(word) {
        limited(low, high, word)
    } else {
        Err(LineError::Refused(ScriptCause::BadNumber))
    }
}

/// The consumer that a line names by its first word, `c` and decimal digits, where the word has this form.
#[tactic(auto, unfolding(crate::specs::Words::is_consumer))]
pub fn is_consumer(word: &[u8]) -> bool
    ensures { result ≡ words.is_consumer word.now }
{
    match word {
        [b'c', digits @ ..] => are_digits(10, digits),
        _ => false,
    }
}

/// The number of a consumer, up to this one, where a word has the form of one.
pub fn consumer_number(last: u64, word: &[u8]) -> Result<u64, LineError>
    ensures value { Answers (λ x. x) result (words.limited 0 last (drop 1 word.now)) }
    ensures last { IfOk result (λ n. n ≤ last) }
{
    match word {
        [] => limited(0, last, word),
        [_, digits @ ..] => limited(0, last, digits),
    }
}
