ghost use Rattle.std.specs.Prelude.{◌≡◌};
ghost use Rattle.ca_base.specs.declared.limits.TheConstants.{MAX_SCRIPT_BYTES};
ghost use Rattle.ca_script.specs.Script as script;
ghost use Rattle.ca_script.specs.Script.{IsReadingOf, LeavesLines};

use crate::draft::{ScriptSoFar, opening, script_of};
use crate::line::read_line;
use crate::script::Script;
use crate::script_error::ScriptError;
use ca_base::limits::MAX_SCRIPT_BYTES;
use ca_script_lines::ca_script_lex::{LineError, ScriptCause};
use ca_script_lines::ca_trace_lex::Pieces;
use std::alloc::Global;

/// The bytes of a line with its line feed; the last has none.
#[tactic(auto, using(crate::proofs::LineLemmas::sizes))]
fn size_of(line: &[u8], rest: &Pieces) -> usize
    ensures { result ≡ script.size_of line.now rest.now }
{
    if rest.is_empty() {
        line.len()
    } else {
        line.len() + 1
    }
}

/// Reads all lines, from the first on.
#[tactic(auto, using(crate::proofs::LineLemmas::going))]
fn read_lines(alloc: Global, so_far: &mut ScriptSoFar, mut lines: Pieces) -> Result<(), ScriptError>
    ensures { LeavesLines result (script.draft_of so_far.new)
        (script.after_lines 1 MAX_SCRIPT_BYTES (script.draft_of so_far.old) lines.entry) }
{
    let mut number: u32 = 1;
    let mut room = MAX_SCRIPT_BYTES;
    while let Ok(line) = lines.take_word() {
        let size = size_of(line, &lines);
        if room < size {
            let cause = ScriptCause::TooLarge;
            return Err(ScriptError::Refused {
                line: number,
                cause,
            });
        }
        match read_line(alloc, number, so_far, line) {
            Ok(()) => {}
            Err(LineError::Refused(cause)) => {
                return Err(ScriptError::Refused {
                    line: number,
                    cause,
                });
            }
            Err(LineError::Memory) => return Err(ScriptError::Memory),
        }
        room -= size;
        number += 1;
    }
    Ok(())
}

/// The script that a text means. `Refused` names its first refused line, counted from 1, and the first cause there. The
/// text is read a line at a time, and nothing of it is kept but the script.
#[tactic(auto, unfolding(crate::specs::Script::script_of))]
pub fn read_script(alloc: Global, bytes: &[u8]) -> Result<Script, ScriptError>
    ensures { IsReadingOf result (script.script_of bytes.now) }
{
    let mut so_far = opening(alloc);
    read_lines(alloc, &mut so_far, Pieces::of(b'\n', bytes))?;
    Ok(script_of(so_far))
}
