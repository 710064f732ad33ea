ghost use Rattle.ca_script_lines.specs.Grammar as grammar;
ghost use Rattle.ca_script_lines.specs.Rows.{read_table};
ghost use Rattle.ca_script_lex.specs.Reading.{AnswersFrom};

use crate::object::named_line;
use crate::what::What;
use crate::work::post;
use ca_script_lex::ca_trace_lex::is_name;
use ca_script_lex::{LineError, LineWords};
use std::alloc::Global;

/// What a consumer's line says behind its first word. The words that are left stand behind it. Most lines of a script
/// post a request, so that this word is looked for first.
#[tactic(auto, using(crate::proofs::NameLemmas::post_named))]
pub fn take_what(alloc: Global, words: &mut LineWords) -> Result<What, LineError>
    ensures { AnswersFrom (λ x. x) result words.new (read_table grammar.consumer_lines words.old) }
{
    let name = words.take_word()?;
    if is_name(name, "post") {
        return post(alloc, words);
    }
    named_line(alloc, name, words)
}
