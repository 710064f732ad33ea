ghost use Rattle.std.specs.Prelude.{◌≡◌, ◌<◌, ◌≤◌, ◌+◌, ◌*◌, ◌∷◌, true, length, IfSome};
ghost use Rattle.ca_script_lex.specs.Front as front;
ghost use Rattle.ca_script_lex.specs.Front.{BeginsWith};
ghost use Rattle.ca_script_lex.specs.Words as words;

use crate::number::is_hexadecimal;

/// The number with one digit more, where it fits into 64 bits.
#[inline(always)]
fn with_digit(base: u32, n: u64, digit: u32) -> Option<u64>
    ensures { IfSome result (λ m. m ≡ n * base + digit) }
{
    n.checked_mul(u64::from(base))?
        .checked_add(u64::from(digit))
}

/// The number that the digits at the front of a text write, where there is one and it fits into 64 bits, and what
/// stands behind them.
#[inline(always)]
fn digits_front(base: u32, text: &[u8]) -> Option<(u64, &[u8])>
    requires low { 2 ≤ base }
    requires high { base ≤ 36 }
    ensures { IfSome result (λ x. ((x.0, x.1.now) ≡ front.digits_front base 0 text.now)
        × (length x.1.now < length text.now)) }
{
    let mut n: u64 = 0;
    'digits: for i in 0..text.len() {
        match char::from(text[i]).to_digit(base) {
            Some(digit) => n = with_digit(base, n, digit)?,
            None => return if i == 0 { None } else { Some((n, &text[i..])) },
        }
    }
    if text.is_empty() {
        None
    } else {
        Some((n, &text[text.len()..]))
    }
}

/// The number at the front of a text, where one is there and fits into 64 bits, and what stands behind it.
#[inline(always)]
#[tactic(auto, using(crate::proofs::FrontLemmas::beginning))]
fn number_front(text: &[u8]) -> Option<(u64, &[u8])>
    ensures { IfSome result (λ x. BeginsWith x.0 x.1.now text.now) }
{
    if is_hexadecimal(text) {
        digits_front(16, &text[2..])
    } else {
        digits_front(10, text)
    }
}

/// The number up to this one at the front of a text, where this separator stands behind it, and what stands behind that.
#[inline(always)]
pub(crate) fn number_before(separator: u8, high: u64, text: &[u8]) -> Option<(u64, &[u8])>
    ensures number { IfSome result (λ x. BeginsWith x.0 (separator ∷ x.1.now) text.now) }
    ensures high { IfSome result (λ x. x.0 ≤ high) }
{
    let (n, rest) = number_front(text)?;
    match rest {
        [first, behind @ ..] if *first == separator && n <= high => Some((n, behind)),
        _ => None,
    }
}

/// The number up to this one that a whole text is.
#[inline(always)]
#[tactic(auto, using(crate::proofs::FrontLemmas::ending))]
pub(crate) fn number_to_end(high: u64, text: &[u8]) -> Option<u64>
    ensures number { IfSome result (λ n. words.is_number text.now ≡ true) }
    ensures value { IfSome result (λ n. words.value_of text.now ≡ n) }
    ensures high { IfSome result (λ n. n ≤ high) }
{
    let (n, rest) = number_front(text)?;
    if rest.is_empty() && n <= high {
        Some(n)
    } else {
        None
    }
}
