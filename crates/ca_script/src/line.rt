ghost use Rattle.std.specs.Prelude.{◌≡◌};
ghost use Rattle.std.specs.List.{list_all};
ghost use Rattle.ca_script.specs.Script as script;
ghost use Rattle.ca_script.specs.Script.{Leaves};
ghost use Rattle.ca_script_lines.specs.Grammar.{consumer_lines};
ghost use Rattle.ca_script_lines.specs.Rows.{read_table};
ghost use Rattle.ca_script_lines.specs.ca_script_lex.Reading.{Answers};
ghost use Rattle.ca_script_lines.specs.ca_script_lex.Words.{words_of};

use crate::draft::{ScriptSoFar, add_line};
use crate::setting::is_setup_word;
use crate::setup_line::read_setup_line;
use ca_base::limits::MAX_CONSUMERS;
use ca_script_lines::ca_script_lex::{
    LineError, LineWords, ScriptCause, consumer_number, is_consumer,
};
use ca_script_lines::{Line, What, take_what};
use std::alloc::Global;

/// Whether each byte is a space or a printable character of ASCII. No byte ends the loop, so that several are looked at
/// at once.
fn is_text(line: &[u8]) -> bool
    ensures { result ≡ list_all script.is_text line.now }
{
    let mut all = true;
    for c in line {
        all &= 32 <= *c && *c <= 126;
    }
    all
}

/// Whether a line is a comment.
fn is_comment(line: &[u8]) -> bool
    ensures { result ≡ script.is_comment line.now }
{
    !line.is_empty() && line[0] == b'#'
}

/// What a consumer's line says, where no word is left.
fn whole_what(alloc: Global, words: &mut LineWords) -> Result<What, LineError>
    ensures { Answers (λ x. x) result (script.whole (read_table consumer_lines words.old)) }
{
    let what = take_what(alloc, words)?;
    words.expect_end()?;
    Ok(what)
}

/// Reads a line by its words.
#[tactic(auto, unfolding(crate::specs::Script::after_words))]
fn read_words(
    alloc: Global,
    number: u32,
    so_far: &mut ScriptSoFar,
    line: &[u8],
) -> Result<(), LineError>
    ensures { Leaves result (script.draft_of so_far.new)
        (script.after_words number (script.draft_of so_far.old) (words_of line.now)) }
{
    let mut words = LineWords::of(line);
    let name = match words.take_word() {
        Ok(name) => name,
        Err(LineError::Refused(_)) => return Ok(()),
        Err(LineError::Memory) => return Err(LineError::Memory),
    };
    if is_consumer(name) {
        let consumer = consumer_number(u64::from(MAX_CONSUMERS) - 1, name)?;
        let what = whole_what(alloc, &mut words)?;
        add_line(
            alloc,
            &mut so_far.consumers,
            consumer as usize,
            Line { number, what },
        )?;
        return Ok(());
    }
    if !is_setup_word(name) {
        return Err(LineError::Refused(ScriptCause::UnknownWord));
    }
    if !so_far.consumers.is_empty() {
        return Err(LineError::Refused(ScriptCause::SetupLate));
    }
    read_setup_line(alloc, &mut so_far.setup, line)
}

/// Reads a line.
#[tactic(auto, unfolding(crate::specs::Script::after_line))]
pub(crate) fn read_line(
    alloc: Global,
    number: u32,
    so_far: &mut ScriptSoFar,
    line: &[u8],
) -> Result<(), LineError>
    ensures { Leaves result (script.draft_of so_far.new)
        (script.after_line number (script.draft_of so_far.old) line.now) }
{
    if !is_text(line) {
        return Err(LineError::Refused(ScriptCause::NotText));
    }
    if is_comment(line) {
        return Ok(());
    }
    read_words(alloc, number, so_far, line)
}
