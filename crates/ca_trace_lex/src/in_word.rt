ghost use Rattle.std.specs.Prelude.{◌≡◌};
ghost use Rattle.ca_trace_lex.specs.Words.{Gives, Reads, field};

use crate::pieces::Pieces;
use crate::stop::Stop;
use crate::word::is_name;

/// A value that one word is read as.
pub trait InWord: Sized {
    ghost use Rattle.std.specs.Prelude.{ℕ, List, Option};

    ghost reading: { List ℕ → Option Self };

    /// What a word is read as. `Outside` comes exactly where it is read as nothing.
    fn in_word(word: &[u8]) -> Result<Self, Stop>
        ensures { Gives result (reading word.now) };
}

/// A value, or none.
impl<T: InWord> InWord for Option<T> {
    ghost use Rattle.ca_trace_lex.specs.Words.{perhaps_in};

    ghost reading = { perhaps_in T.reading };

    fn in_word(word: &[u8]) -> Result<Option<T>, Stop> {
        if is_name(word, "-") {
            return Ok(None);
        }
        Ok(Some(T::in_word(word)?))
    }
}

impl<'a> Pieces<'a> {
    /// Takes a value, by the first word.
    pub fn take<T: InWord>(&mut self) -> Result<T, Stop>
        ensures { Reads (λ x. x) result self.new (field T.reading self.old) }
    {
        T::in_word(self.take_word()?)
    }
}
