ghost use Rattle.std.specs.Prelude.{◌≡◌, ◌<◌, ◌++◌, ◌∷◌, [], map, decimal, slice_index, OnOk, IfOk, IfSome};
ghost use Rattle.hex.specs.Hex.{encode_lower, lower_digits};
ghost use Rattle.ca_keys.specs.Spelling.{key_text};
ghost use Rattle.ca_trace_print.specs.Words.{commas, hexadecimal};

use crate::spelled::{Word, Words};
use ca_base::{Key, Memory};
use std::alloc::Global;
use std::fmt;
use std::fmt::{Display, Write};
use std::marker::Model;

/// How many bytes a text has room for at first: more than the lines of most entries have.
const FIRST_ROOM: usize = 512;

/// A text that is being put together. Contracts see its bytes.
#[derive(Drop)]
pub struct Text {
    bytes: Vec<u8>,
}

impl Model for Text {
    ghost use Rattle.std.specs.Prelude.{ℕ, List};

    ghost Value = { List ℕ };

    ghost view = { λ t. t.bytes.items };
}

/// A piece of text is added whole, or not at all.
impl fmt::Write for Text {
    ghost write_str_gives = { λ t bytes u. u ≡ t ++ bytes };

    fn write_str(&mut self, piece: &str) -> fmt::Result {
        match self.bytes.extend_from_slice(piece.as_bytes()) {
            Ok(()) => Ok(()),
            Err(_) => Err(fmt::Error),
        }
    }
}

/// How many bytes are turned into digits at a time.
const CHUNK: usize = 16;

/// The two hexadecimal digits of each byte of a chunk. They are computed, not looked up, since the compiler then does
/// several at once.
fn digits_of(bytes: &[u8; CHUNK]) -> [u8; 2 * CHUNK]
    ensures { result ≡ encode_lower bytes.now }
{
    let mut digits = [0u8; 2 * CHUNK];
    for i in 0..CHUNK {
        digits[2 * i] = digit(bytes[i] >> 4);
        digits[2 * i + 1] = digit(bytes[i] & 15);
    }
    digits
}

/// The hexadecimal digit of this value.
#[inline(always)]
fn digit(value: u8) -> u8
    requires { value < 16 }
    ensures { result ≡ slice_index lower_digits value }
{
    if value < 10 {
        b'0' + value
    } else {
        b'a' - 10 + value
    }
}

impl Text {
    /// A text of no bytes, with room for some.
    pub fn new(alloc: Global) -> Result<Text, Memory>
        ensures { IfOk result (λ text. text ≡ []) }
    {
        Ok(Text {
            bytes: Vec::with_capacity(alloc, FIRST_ROOM)?,
        })
    }

    /// The text's bytes.
    pub fn as_bytes(&self) -> &[u8]
        ensures { result.now ≡ self.now }
    {
        self.bytes.as_slice()
    }

    /// Adds bytes.
    #[inline(always)]
    fn put_bytes(&mut self, bytes: &[u8]) -> Result<(), Memory>
        ensures ok { OnOk result (self.new ≡ self.old ++ bytes.now) }
    {
        self.bytes.extend_from_slice(bytes)?;
        Ok(())
    }

    /// Adds a character.
    #[inline(always)]
    pub fn put_byte(&mut self, byte: u8) -> Result<(), Memory>
        ensures ok { OnOk result (self.new ≡ self.old ++ byte ∷ []) }
    {
        self.bytes.push(byte)?;
        Ok(())
    }

    /// Adds a character, and a word of the language behind it.
    #[inline(always)]
    pub(crate) fn put_name(&mut self, before: u8, name: &str) -> Result<(), Memory>
        ensures ok { OnOk result (self.new ≡ self.old ++ before ∷ name.now) }
    {
        self.put_byte(before)?;
        self.put_bytes(name.as_bytes())
    }

    /// Adds a character, and a number behind it.
    #[inline(always)]
    pub fn put_number(&mut self, before: u8, number: u64) -> Result<(), Memory>
        ensures ok { OnOk result (self.new ≡ self.old ++ before ∷ decimal number) }
    {
        if number < 10 {
            return self.put_bytes(&[before, b'0' + number as u8]);
        }
        self.put_long(before, number)
    }

    /// Adds a character, and a number of more than one digit behind it.
    #[inline(never)]
    fn put_long(&mut self, before: u8, number: u64) -> Result<(), Memory>
        ensures ok { OnOk result (self.new ≡ self.old ++ before ∷ decimal number) }
    {
        let mut digits = itoa::Buffer::new();
        self.put_byte(before)?;
        self.put_bytes(digits.format(number).as_bytes())
    }

    /// Adds a character, and a key behind it.
    pub(crate) fn put_key(&mut self, before: u8, key: Key) -> Result<(), Memory>
        ensures ok { OnOk result (self.new ≡ self.old ++ before ∷ key_text key) }
    {
        let mut word = [before, b'0', b'x', 0, 0, 0, 0, 0, 0, 0, 0];
        let _ = hex::encode_to_slice(key.0.to_be_bytes(), &mut word[3..]);
        self.put_bytes(&word)
    }

    /// Adds each of the words behind a space.
    #[inline(always)]
    pub fn put_words<W: Words + Drop>(&mut self, words: W) -> Result<(), Memory>
        ensures ok { OnOk result (self.new ≡ self.old ++ W.spellings words) }
    {
        words.put_all(self)
    }

    /// Adds a character, and the words of a list with commas between behind it, or `-` for none.
    pub(crate) fn put_list<W: Word>(&mut self, before: u8, list: &[W]) -> Result<(), Memory>
        ensures ok { OnOk result (self.new ≡ self.old ++ before ∷ commas (map W.spelling list.now)) }
    {
        match list {
            [] => self.put_name(before, "-"),
            [first, others @ ..] => {
                first.put_in(self, before)?;
                for word in others {
                    word.put_in(self, b',')?;
                }
                Ok(())
            }
        }
    }

    /// Adds a character, and what a value displays as behind it.
    pub(crate) fn put_shown<D: Display + Drop>(
        &mut self,
        before: u8,
        value: D,
    ) -> Result<(), Memory>
        ensures ok { OnOk result (IfSome (D.output value) (λ text. self.new ≡ self.old ++ before ∷ text)) }
    {
        self.put_byte(before)?;
        self.put(value)
    }

    /// Adds what a value displays as.
    pub fn put<D: Display + Drop>(&mut self, value: D) -> Result<(), Memory>
        ensures ok { OnOk result (IfSome (D.output value) (λ text. self.new ≡ self.old ++ text)) }
    {
        match self.write(value) {
            Ok(()) => Ok(()),
            Err(_) => Err(Memory),
        }
    }

    /// Adds two hexadecimal digits for each byte, or `-` for no bytes.
    pub fn put_hex(&mut self, bytes: &[u8]) -> Result<(), Memory>
        ensures ok { OnOk result (self.new ≡ self.old ++ hexadecimal bytes.now) }
    {
        if bytes.is_empty() {
            return self.put_bytes(b"-");
        }
        self.put_digits(bytes)
    }

    /// Adds two hexadecimal digits for each byte.
    fn put_digits(&mut self, bytes: &[u8]) -> Result<(), Memory>
        ensures ok { OnOk result (self.new ≡ self.old ++ encode_lower bytes.now) }
    {
        let mut rest = bytes;
        while let Some((chunk, others)) = rest.split_first_chunk::<CHUNK>() {
            self.put_bytes(&digits_of(chunk))?;
            rest = others;
        }
        self.put_each(rest)
    }

    /// Adds two hexadecimal digits for each byte, one byte at a time.
    fn put_each(&mut self, bytes: &[u8]) -> Result<(), Memory>
        ensures ok { OnOk result (self.new ≡ self.old ++ encode_lower bytes.now) }
    {
        for byte in bytes {
            self.put_bytes(&[digit(*byte >> 4), digit(*byte & 15)])?;
        }
        Ok(())
    }
}
