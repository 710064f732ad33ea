ghost use Rattle.std.specs.Prelude.{◌≡◌, ◌/◌, length, IfOk};
ghost use Rattle.ca_trace_lex.specs.Words as words;
ghost use Rattle.ca_trace_lex.specs.Words.{Gives};

use crate::stop::Stop;
use crate::word::is_name;
use ca_base::{Bytes, Memory};
use std::alloc::Global;

/// The value of a hexadecimal digit in lower case. Any other byte has a value below 16 too, so that no digit needs a
/// branch.
fn hex_digit(c: u8) -> u8
    ensures { result ≡ words.hex_digit c }
{
    (c % 16 + c / 64 * 9) % 16
}

/// Writes the bytes whose two digits stand in a word.
fn fill(word: &[u8], bytes: &mut [u8])
    requires { length bytes.old ≡ length word.now / 2 }
    ensures { bytes.new ≡ words.bytes_of word.now }
{
    'pairs: for i in 0..bytes.len() {
        bytes[i] = hex_digit(word[2 * i]) * 16 + hex_digit(word[2 * i + 1]);
    }
}

/// The bytes whose two digits stand in a word.
fn bytes_of(alloc: Global, word: &[u8]) -> Result<Bytes, Memory>
    ensures { IfOk result (λ bytes. bytes ≡ words.bytes_of word.now) }
{
    let mut bytes = vec![in alloc; 0u8; word.len() / 2]?;
    fill(word, bytes.as_mut_slice());
    Ok(Bytes::from(bytes))
}

/// Bytes, of two hexadecimal digits each.
#[tactic(auto, unfolding(crate::specs::Words::hex_in))]
pub(crate) fn hex_in(alloc: Global, word: &[u8]) -> Result<Bytes, Stop>
    ensures { Gives result (words.hex_in word.now) }
{
    if is_name(word, "-") {
        return Ok(Bytes::empty(alloc));
    }
    Ok(bytes_of(alloc, word)?)
}
