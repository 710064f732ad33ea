ghost use Rattle.std.specs.Prelude.{◌≡◌, ◌≤◌, ◌+◌, ◌*◌, nat_le, if◌then◌else◌, IfOk, Some, None};
ghost use Rattle.std.specs.Char.{digit_value};
ghost use Rattle.ca_trace_lex.specs.Words as words;
ghost use Rattle.ca_trace_lex.specs.Words.{Gives};

use crate::in_word::InWord;
use crate::stop::Stop;

/// The value of a byte that is no digit of any base.
const NO_DIGIT: u8 = 36;

/// The value of a digit, from 0 for `0` to 35 for `z`, and 36 for any other byte.
fn digit(c: u8) -> u8
    ensures { result ≡ digit_value c }
{
    match c {
        b'0'..=b'9' => c - b'0',
        b'A'..=b'Z' => c - b'A' + 10,
        b'a'..=b'z' => c - b'a' + 10,
        _ => NO_DIGIT,
    }
}

/// The number with one digit more, where it is at most `most`.
fn appended(base: u64, most: u64, n: u64, digit: u8) -> Option<u64>
    ensures { result ≡ (if nat_le (n * base + digit) most then Some (n * base + digit) else None) }
{
    let next = n.checked_mul(base)?.checked_add(u64::from(digit))?;
    if next <= most { Some(next) } else { None }
}

/// The number that digits of a base write, where it is at most `most`. A byte that is no digit counts too.
#[tactic(auto, unfolding(crate::specs::Words::value_in))]
pub(crate) fn value_in(base: u64, most: u64, word: &[u8]) -> Result<u64, Stop>
    ensures value { Gives result (words.value_in base most word.now) }
    ensures most { IfOk result (λ n. n ≤ most) }
{
    let mut n: u64 = 0;
    for c in word {
        match appended(base, most, n, digit(*c)) {
            Some(next) => n = next,
            None => return Err(Stop::Outside),
        }
    }
    Ok(n)
}

/// A number of 64 bits.
pub fn u64_in(word: &[u8]) -> Result<u64, Stop>
    ensures { Gives result (words.number_in u64.MAX word.now) }
{
    value_in(10, u64::MAX, word)
}

/// A number of 8 bits.
impl InWord for u8 {
    ghost use Rattle.ca_trace_lex.specs.Words.{number_in, max_u8};

    ghost reading = { number_in max_u8 };

    fn in_word(word: &[u8]) -> Result<u8, Stop> {
        Ok(value_in(10, u64::from(u8::MAX), word)? as u8)
    }
}

/// A number of 16 bits.
impl InWord for u16 {
    ghost use Rattle.ca_trace_lex.specs.Words.{number_in, max_u16};

    ghost reading = { number_in max_u16 };

    fn in_word(word: &[u8]) -> Result<u16, Stop> {
        Ok(value_in(10, u64::from(u16::MAX), word)? as u16)
    }
}

/// A number of 32 bits.
impl InWord for u32 {
    ghost use Rattle.ca_trace_lex.specs.Words.{number_in, max_u32};

    ghost reading = { number_in max_u32 };

    fn in_word(word: &[u8]) -> Result<u32, Stop> {
        Ok(value_in(10, u64::from(u32::MAX), word)? as u32)
    }
}

/// A number of 64 bits.
impl InWord for u64 {
    ghost use Rattle.ca_trace_lex.specs.Words.{number_in, max_u64};

    ghost reading = { number_in max_u64 };

    fn in_word(word: &[u8]) -> Result<u64, Stop> {
        u64_in(word)
    }
}
