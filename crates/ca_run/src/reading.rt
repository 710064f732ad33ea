ghost use Rattle.std.specs.Prelude.{◌≡◌, ◌≢◌, ◌+◌, ℕ, Err, IfErr, IfOk, IfSome, Ok, true};
ghost use Rattle.ca_outside.specs.Outside.{LosesAtMost, Rose};
ghost use Rattle.ca_run.specs.Run.{IsRead};
ghost use Rattle.ca_run.specs.Status.{ends_reading};
ghost use Rattle.ca_run.specs.declared.status.Status.TheVariants as statuses;
ghost use Rattle.ca_script.specs.Script.{script_of, script_value};
ghost use Rattle.ca_script_lex.specs.declared.cause.ScriptCause.{ScriptCause};

use crate::status::Status;
use ca_base::limits::MAX_SCRIPT_BYTES;
use ca_law_scripts::long_texts_are_refused_by_their_fronts;
use ca_outside::{Source, read_up_to};
use ca_script::{Script, read_script};
use std::alloc::Global;

/// The script that a source holds, read to its end. What was read before a refusal is lost.
pub(crate) fn script_from<S: Source>(alloc: Global, source: &mut S) -> Result<Script, Status>
    ensures read { IfOk result (λ script. IsRead (S.left source.old) (S.left source.new) (script_value script)) }
    ensures kinds { IfErr result (λ status. ends_reading status ≡ true) }

    // No more of the source is lost than a script may have, and one byte.
    ensures loses { LosesAtMost (MAX_SCRIPT_BYTES + 1) (S.left source.old) (S.left source.new) }

    // The refused line is the first that is, with its first cause.
    ensures script { (line : ℕ) (cause : ScriptCause) → result ≡ Err (statuses.Script line cause) →
        IfSome (S.left source.old) (λ bytes. script_of bytes ≡ Err (line, cause)) }

    // A fault comes only where the count rose, and where it rose, a fault comes.
    ensures fault { result ≡ Err statuses.ReadFault → Rose (S.faults source.old) (S.faults source.new) }
    ensures no_fault { result ≢ Err statuses.ReadFault → S.faults source.new ≡ S.faults source.old }
{
    let bytes = read_up_to(alloc, source, MAX_SCRIPT_BYTES)?;
    long_texts_are_refused_by_their_fronts();
    read(alloc, &bytes)
}

/// The script that a text means.
fn read(alloc: Global, bytes: &[u8]) -> Result<Script, Status>
    ensures means { IfOk result (λ script. script_of bytes.now ≡ Ok (script_value script)) }
    ensures kinds { IfErr result (λ status. ends_reading status ≡ true) }
    ensures script { (line : ℕ) (cause : ScriptCause) → result ≡ Err (statuses.Script line cause)
        → script_of bytes.now ≡ Err (line, cause) }
    ensures no_fault { result ≢ Err statuses.ReadFault }
{
    Ok(read_script(alloc, bytes)?)
}
