ghost use Rattle.ca_script_lex.specs.Reading.{Answers};
ghost use Rattle.ca_script_lex.specs.Words as words;

use crate::cause::ScriptCause;
use crate::line_error::LineError;
use ca_base::Bytes;
use ca_trace_lex::is_name;
use hex::FromHexError;
use std::alloc::Global;

/// Bytes, of two hexadecimal digits each.
#[tactic(auto, unfolding(crate::specs::Words::hexadecimal))]
pub(crate) fn hexadecimal(alloc: Global, word: &[u8]) -> Result<Bytes, LineError>
    ensures { Answers (λ x. x) result (words.hexadecimal word.now) }
{
    if is_name(word, "-") {
        return Ok(Bytes::empty(alloc));
    }
    match hex::decode(alloc, word) {
        Ok(bytes) => Ok(Bytes::from(bytes)),
        Err(FromHexError::OutOfMemory) => Err(LineError::Memory),
        Err(_) => Err(LineError::Refused(ScriptCause::BadHex)),
    }
}
