ghost use Rattle.std.specs.Prelude.{◌≡◌};
ghost use Rattle.ca_script_lex.specs.Reading.{Answers};
ghost use Rattle.ca_script_lex.specs.Words as words;

use crate::cause::ScriptCause;
use crate::line_error::LineError;
use ca_base::Rights;
use ca_trace_lex::is_name;

/// The flags of a send request: whether its success completes too, whether it waits for earlier READs and atomics, and
/// whether it asks for a solicited event.
#[derive(Clone, Copy, Default)]
pub struct Flags {
    pub signalled: bool,
    pub fence: bool,
    pub solicited: bool,
}

/// Whether a letter stands first, and what stands behind it.
fn letter_at(letter: u8, word: &[u8]) -> (bool, &[u8])
    ensures { (result.0, result.1.now) ≡ words.letter_at letter word.now }
{
    match word {
        [first, rest @ ..] if *first == letter => (true, rest),
        _ => (false, word),
    }
}

/// Flags: their letters in order, or `-`.
#[tactic(auto, unfolding(crate::specs::Words::flags))]
pub(crate) fn flags_of(word: &[u8]) -> Result<Flags, LineError>
    ensures { Answers (λ x. x) result (words.flags word.now) }
{
    let (signalled, rest) = letter_at(b's', word);
    let (fence, rest) = letter_at(b'f', rest);
    let (solicited, rest) = letter_at(b'e', rest);
    if is_name(word, "-") {
        return Ok(Flags {
            signalled: false,
            fence: false,
            solicited: false,
        });
    }
    if !rest.is_empty() {
        return Err(LineError::Refused(ScriptCause::BadName));
    }
    Ok(Flags {
        signalled,
        fence,
        solicited,
    })
}

/// Rights: their letters in order, or `-`.
#[tactic(auto, unfolding(crate::specs::Words::rights))]
pub(crate) fn rights_of(word: &[u8]) -> Result<Rights, LineError>
    ensures { Answers (λ x. x) result (words.rights word.now) }
{
    let (local_write, rest) = letter_at(b'l', word);
    let (remote_read, rest) = letter_at(b'r', rest);
    let (remote_write, rest) = letter_at(b'w', rest);
    let (remote_atomic, rest) = letter_at(b'a', rest);
    let (window_bind, rest) = letter_at(b'b', rest);
    if is_name(word, "-") {
        return Ok(Rights {
            local_write: false,
            remote_read: false,
            remote_write: false,
            remote_atomic: false,
            window_bind: false,
        });
    }
    if !rest.is_empty() {
        return Err(LineError::Refused(ScriptCause::BadName));
    }
    Ok(Rights {
        local_write,
        remote_read,
        remote_write,
        remote_atomic,
        window_bind,
    })
}
