ghost use Rattle.ca_script_lines.specs.Grammar as grammar;
ghost use Rattle.ca_script_lines.specs.Rows.{read_row, read_named};
ghost use Rattle.ca_script_lex.specs.Reading.{AnswersFrom};

use crate::what::What;
use crate::work::work_line;
use ca_base::Change;
use ca_script_lex::ca_model::Verb;
use ca_script_lex::ca_trace_lex::is_name;
use ca_script_lex::{LineError, LineWords, take_queue, take_slot, take_u8, take_u16, take_u32};
use std::alloc::Global;

/// To Init.
#[tactic(auto, unfolding(crate::specs::Grammar::init_row))]
fn init(words: &mut LineWords) -> Result<What, LineError>
    ensures { AnswersFrom (λ x. x) result words.new (read_row grammar.init_row words.old) }
{
    let slot = take_slot(words)?;
    Ok(What::Verb(Verb::ModifyQp {
        slot,
        change: Change::Init,
    }))
}

/// To Send Queue Drain.
#[tactic(auto, unfolding(crate::specs::Grammar::sqd_row))]
fn sqd(words: &mut LineWords) -> Result<What, LineError>
    ensures { AnswersFrom (λ x. x) result words.new (read_row grammar.sqd_row words.old) }
{
    let slot = take_slot(words)?;
    Ok(What::Verb(Verb::ModifyQp {
        slot,
        change: Change::Sqd,
    }))
}

/// Back to Ready to Send.
#[tactic(auto, unfolding(crate::specs::Grammar::resume_row))]
fn resume(words: &mut LineWords) -> Result<What, LineError>
    ensures { AnswersFrom (λ x. x) result words.new (read_row grammar.resume_row words.old) }
{
    let slot = take_slot(words)?;
    Ok(What::Verb(Verb::ModifyQp {
        slot,
        change: Change::Resume,
    }))
}

/// To Error.
#[tactic(auto, unfolding(crate::specs::Grammar::error_row))]
fn error(words: &mut LineWords) -> Result<What, LineError>
    ensures { AnswersFrom (λ x. x) result words.new (read_row grammar.error_row words.old) }
{
    let slot = take_slot(words)?;
    Ok(What::Verb(Verb::ModifyQp {
        slot,
        change: Change::Error,
    }))
}

/// To Reset.
#[tactic(auto, unfolding(crate::specs::Grammar::reset_row))]
fn reset(words: &mut LineWords) -> Result<What, LineError>
    ensures { AnswersFrom (λ x. x) result words.new (read_row grammar.reset_row words.old) }
{
    let slot = take_slot(words)?;
    Ok(What::Verb(Verb::ModifyQp {
        slot,
        change: Change::Reset,
    }))
}

/// To Ready to Receive.
#[tactic(auto, unfolding(crate::specs::Grammar::rtr_row))]
fn rtr(words: &mut LineWords) -> Result<What, LineError>
    ensures { AnswersFrom (λ x. x) result words.new (read_row grammar.rtr_row words.old) }
{
    let slot = take_slot(words)?;
    let peer = take_queue(255, words)?;
    let incarnation = take_u32(words)?;
    let psn = take_u32(words)?;
    let mtu = take_u16(words)?;
    let rnr_code = take_u8(words)?;
    let change = Change::Rtr {
        peer,
        incarnation,
        psn,
        mtu,
        rnr_code,
    };
    Ok(What::Verb(Verb::ModifyQp { slot, change }))
}

/// To Ready to Send.
#[tactic(auto, unfolding(crate::specs::Grammar::rts_row))]
fn rts(words: &mut LineWords) -> Result<What, LineError>
    ensures { AnswersFrom (λ x. x) result words.new (read_row grammar.rts_row words.old) }
{
    let slot = take_slot(words)?;
    let psn = take_u32(words)?;
    let retry = take_u8(words)?;
    let rnr_retry = take_u8(words)?;
    let reads = take_u8(words)?;
    let change = Change::Rts {
        psn,
        retry,
        rnr_retry,
        reads,
    };
    Ok(What::Verb(Verb::ModifyQp { slot, change }))
}

/// A change of a queue pair's state, or a line that follows in the table, by its name.
#[tactic(auto, unfolding(crate::specs::Grammar::change_lines))]
pub(crate) fn change_line(
    alloc: Global,
    name: &[u8],
    words: &mut LineWords,
) -> Result<What, LineError>
    ensures { AnswersFrom (λ x. x) result words.new (read_named grammar.change_lines name.now words.old) }
{
    if is_name(name, "init") {
        init(words)
    } else if is_name(name, "sqd") {
        sqd(words)
    } else if is_name(name, "resume") {
        resume(words)
    } else if is_name(name, "error") {
        error(words)
    } else if is_name(name, "reset") {
        reset(words)
    } else if is_name(name, "rtr") {
        rtr(words)
    } else if is_name(name, "rts") {
        rts(words)
    } else {
        work_line(alloc, name, words)
    }
}
