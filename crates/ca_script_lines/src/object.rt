ghost use Rattle.ca_script_lines.specs.Grammar as grammar;
ghost use Rattle.ca_script_lines.specs.Rows.{read_row, read_named};
ghost use Rattle.ca_script_lex.specs.Reading.{AnswersFrom};

use crate::change::change_line;
use crate::what::What;
use ca_script_lex::ca_model::Verb;
use ca_script_lex::ca_trace_lex::is_name;
use ca_script_lex::{
    LineError, LineWords, take_domain, take_optional_u16, take_rights, take_slot, take_u8,
    take_u16, take_u32,
};
use std::alloc::Global;

/// The allocation of a protection domain.
#[tactic(auto, unfolding(crate::specs::Grammar::pd_row))]
fn pd(words: &mut LineWords) -> Result<What, LineError>
    ensures { AnswersFrom (λ x. x) result words.new (read_row grammar.pd_row words.old) }
{
    let domain = take_domain(words)?;
    Ok(What::Verb(Verb::AllocPd { domain }))
}

/// The deallocation of a protection domain.
#[tactic(auto, unfolding(crate::specs::Grammar::unpd_row))]
fn unpd(words: &mut LineWords) -> Result<What, LineError>
    ensures { AnswersFrom (λ x. x) result words.new (read_row grammar.unpd_row words.old) }
{
    let domain = take_domain(words)?;
    Ok(What::Verb(Verb::DeallocPd { domain }))
}

/// A registration of a memory region.
#[tactic(auto, unfolding(crate::specs::Grammar::reg_row))]
fn reg(words: &mut LineWords) -> Result<What, LineError>
    ensures { AnswersFrom (λ x. x) result words.new (read_row grammar.reg_row words.old) }
{
    let slot = take_slot(words)?;
    let buffer = take_u16(words)?;
    let offset = take_u32(words)?;
    let length = take_u32(words)?;
    let rights = take_rights(words)?;
    Ok(What::Verb(Verb::RegMr {
        slot,
        buffer,
        offset,
        length,
        rights,
    }))
}

/// A memory region for fast registration.
#[tactic(auto, unfolding(crate::specs::Grammar::mr_row))]
fn mr(words: &mut LineWords) -> Result<What, LineError>
    ensures { AnswersFrom (λ x. x) result words.new (read_row grammar.mr_row words.old) }
{
    let slot = take_slot(words)?;
    let pages = take_u16(words)?;
    Ok(What::Verb(Verb::AllocMr { slot, pages }))
}

/// The end of a memory region.
#[tactic(auto, unfolding(crate::specs::Grammar::dereg_row))]
fn dereg(words: &mut LineWords) -> Result<What, LineError>
    ensures { AnswersFrom (λ x. x) result words.new (read_row grammar.dereg_row words.old) }
{
    let slot = take_slot(words)?;
    Ok(What::Verb(Verb::DeregMr { slot }))
}

/// A memory window.
#[tactic(auto, unfolding(crate::specs::Grammar::mw_row))]
fn mw(words: &mut LineWords) -> Result<What, LineError>
    ensures { AnswersFrom (λ x. x) result words.new (read_row grammar.mw_row words.old) }
{
    let slot = take_slot(words)?;
    let kind = take_u8(words)?;
    Ok(What::Verb(Verb::AllocMw { slot, kind }))
}

/// The end of a memory window.
#[tactic(auto, unfolding(crate::specs::Grammar::unmw_row))]
fn unmw(words: &mut LineWords) -> Result<What, LineError>
    ensures { AnswersFrom (λ x. x) result words.new (read_row grammar.unmw_row words.old) }
{
    let slot = take_slot(words)?;
    Ok(What::Verb(Verb::DeallocMw { slot }))
}

/// A completion queue.
#[tactic(auto, unfolding(crate::specs::Grammar::cq_row))]
fn cq(words: &mut LineWords) -> Result<What, LineError>
    ensures { AnswersFrom (λ x. x) result words.new (read_row grammar.cq_row words.old) }
{
    let slot = take_slot(words)?;
    let capacity = take_u16(words)?;
    Ok(What::Verb(Verb::CreateCq { slot, capacity }))
}

/// The end of a completion queue.
#[tactic(auto, unfolding(crate::specs::Grammar::uncq_row))]
fn uncq(words: &mut LineWords) -> Result<What, LineError>
    ensures { AnswersFrom (λ x. x) result words.new (read_row grammar.uncq_row words.old) }
{
    let slot = take_slot(words)?;
    Ok(What::Verb(Verb::DestroyCq { slot }))
}

/// A shared receive queue.
#[tactic(auto, unfolding(crate::specs::Grammar::srq_row))]
fn srq(words: &mut LineWords) -> Result<What, LineError>
    ensures { AnswersFrom (λ x. x) result words.new (read_row grammar.srq_row words.old) }
{
    let slot = take_slot(words)?;
    let depth = take_u16(words)?;
    Ok(What::Verb(Verb::CreateSrq { slot, depth }))
}

/// The end of a shared receive queue.
#[tactic(auto, unfolding(crate::specs::Grammar::unsrq_row))]
fn unsrq(words: &mut LineWords) -> Result<What, LineError>
    ensures { AnswersFrom (λ x. x) result words.new (read_row grammar.unsrq_row words.old) }
{
    let slot = take_slot(words)?;
    Ok(What::Verb(Verb::DestroySrq { slot }))
}

/// A queue pair.
#[tactic(auto, unfolding(crate::specs::Grammar::qp_row))]
fn qp(words: &mut LineWords) -> Result<What, LineError>
    ensures { AnswersFrom (λ x. x) result words.new (read_row grammar.qp_row words.old) }
{
    let slot = take_slot(words)?;
    let send_cq = take_u16(words)?;
    let recv_cq = take_u16(words)?;
    let send_depth = take_u16(words)?;
    let recv_depth = take_u16(words)?;
    let srq = take_optional_u16(words)?;
    Ok(What::Verb(Verb::CreateQp {
        slot,
        send_cq,
        recv_cq,
        send_depth,
        recv_depth,
        srq,
    }))
}

/// The end of a queue pair.
#[tactic(auto, unfolding(crate::specs::Grammar::unqp_row))]
fn unqp(words: &mut LineWords) -> Result<What, LineError>
    ensures { AnswersFrom (λ x. x) result words.new (read_row grammar.unqp_row words.old) }
{
    let slot = take_slot(words)?;
    Ok(What::Verb(Verb::DestroyQp { slot }))
}

/// A query of a queue pair.
#[tactic(auto, unfolding(crate::specs::Grammar::query_row))]
fn query(words: &mut LineWords) -> Result<What, LineError>
    ensures { AnswersFrom (λ x. x) result words.new (read_row grammar.query_row words.old) }
{
    let slot = take_slot(words)?;
    Ok(What::Verb(Verb::QueryQp { slot }))
}

/// A line on queues or a queue pair, or one that follows in the table, by its name.
#[tactic(auto, unfolding(crate::specs::Grammar::object_lines))]
fn queue_line(alloc: Global, name: &[u8], words: &mut LineWords) -> Result<What, LineError>
    ensures { AnswersFrom (λ x. x) result words.new (read_named grammar.object_lines name.now words.old) }
{
    if is_name(name, "cq") {
        cq(words)
    } else if is_name(name, "uncq") {
        uncq(words)
    } else if is_name(name, "srq") {
        srq(words)
    } else if is_name(name, "unsrq") {
        unsrq(words)
    } else if is_name(name, "qp") {
        qp(words)
    } else if is_name(name, "unqp") {
        unqp(words)
    } else if is_name(name, "query") {
        query(words)
    } else {
        change_line(alloc, name, words)
    }
}

/// What a consumer's line calls, by its name.
#[inline(never)]
#[tactic(auto, unfolding(crate::specs::Grammar::consumer_lines))]
pub(crate) fn named_line(
    alloc: Global,
    name: &[u8],
    words: &mut LineWords,
) -> Result<What, LineError>
    ensures { AnswersFrom (λ x. x) result words.new (read_named grammar.consumer_lines name.now words.old) }
{
    if is_name(name, "pd") {
        pd(words)
    } else if is_name(name, "unpd") {
        unpd(words)
    } else if is_name(name, "reg") {
        reg(words)
    } else if is_name(name, "mr") {
        mr(words)
    } else if is_name(name, "dereg") {
        dereg(words)
    } else if is_name(name, "mw") {
        mw(words)
    } else if is_name(name, "unmw") {
        unmw(words)
    } else {
        queue_line(alloc, name, words)
    }
}
