//! Where the words of a row lie.
ghost use Rattle.std.specs.Prelude.{◌≡◌};
ghost use Rattle.ca_parts.specs.Facts.{word_of};

/// How many words lie from one word in use to the next: 128 bytes, so that no two of them share a cache line.
pub const WORDS_APART: usize = 16;

// The place of the part's word among all words.
pub(crate) fn place_of_word(part: u32) -> usize
    ensures { result ≡ word_of part }
{
    WORDS_APART * (part as usize + 1)
}
