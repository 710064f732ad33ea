ghost use Rattle.ca_script_lines.specs.Grammar as grammar;
ghost use Rattle.ca_script_lines.specs.Rows.{read_row, read_named, read_table};
ghost use Rattle.ca_script_lex.specs.Reading.{AnswersFrom};

use ca_base::{Key, SendOp};
use ca_script_lex::ca_trace_lex::is_name;
use ca_script_lex::{
    LineError, LineWords, ScriptCause, take_pages, take_pieces, take_rights, take_u8, take_u16,
    take_u32, take_u64,
};
use std::alloc::Global;

/// A SEND.
#[tactic(auto, unfolding(crate::specs::Grammar::send_row))]
fn send(words: &mut LineWords) -> Result<SendOp, LineError>
    ensures { AnswersFrom (λ x. x) result words.new (read_row grammar.send_row words.old) }
{
    let list = take_pieces(words)?;
    Ok(SendOp::Send { list })
}

/// A SEND with Immediate.
#[tactic(auto, unfolding(crate::specs::Grammar::send_imm_row))]
fn send_imm(words: &mut LineWords) -> Result<SendOp, LineError>
    ensures { AnswersFrom (λ x. x) result words.new (read_row grammar.send_imm_row words.old) }
{
    let imm = take_u32(words)?;
    let list = take_pieces(words)?;
    Ok(SendOp::SendImm { imm, list })
}

/// A SEND with Invalidate.
#[tactic(auto, unfolding(crate::specs::Grammar::send_inv_row))]
fn send_inv(words: &mut LineWords) -> Result<SendOp, LineError>
    ensures { AnswersFrom (λ x. x) result words.new (read_row grammar.send_inv_row words.old) }
{
    let key = Key(take_u32(words)?);
    let list = take_pieces(words)?;
    Ok(SendOp::SendInv { key, list })
}

/// An RDMA WRITE.
#[tactic(auto, unfolding(crate::specs::Grammar::write_row))]
fn write(words: &mut LineWords) -> Result<SendOp, LineError>
    ensures { AnswersFrom (λ x. x) result words.new (read_row grammar.write_row words.old) }
{
    let address = take_u64(words)?;
    let key = Key(take_u32(words)?);
    let list = take_pieces(words)?;
    Ok(SendOp::Write { address, key, list })
}

/// An RDMA WRITE with Immediate.
#[tactic(auto, unfolding(crate::specs::Grammar::write_imm_row))]
fn write_imm(words: &mut LineWords) -> Result<SendOp, LineError>
    ensures { AnswersFrom (λ x. x) result words.new (read_row grammar.write_imm_row words.old) }
{
    let address = take_u64(words)?;
    let key = Key(take_u32(words)?);
    let imm = take_u32(words)?;
    let list = take_pieces(words)?;
    Ok(SendOp::WriteImm {
        address,
        key,
        imm,
        list,
    })
}

/// An RDMA READ.
#[tactic(auto, unfolding(crate::specs::Grammar::read_row))]
fn read(words: &mut LineWords) -> Result<SendOp, LineError>
    ensures { AnswersFrom (λ x. x) result words.new (read_row grammar.read_row words.old) }
{
    let address = take_u64(words)?;
    let key = Key(take_u32(words)?);
    let list = take_pieces(words)?;
    Ok(SendOp::Read { address, key, list })
}

/// A compare and swap.
#[tactic(auto, unfolding(crate::specs::Grammar::cmp_swap_row))]
fn cmp_swap(words: &mut LineWords) -> Result<SendOp, LineError>
    ensures { AnswersFrom (λ x. x) result words.new (read_row grammar.cmp_swap_row words.old) }
{
    let address = take_u64(words)?;
    let key = Key(take_u32(words)?);
    let compare = take_u64(words)?;
    let swap = take_u64(words)?;
    let list = take_pieces(words)?;
    Ok(SendOp::CmpSwap {
        address,
        key,
        compare,
        swap,
        list,
    })
}

/// A fetch and add.
#[tactic(auto, unfolding(crate::specs::Grammar::fetch_add_row))]
fn fetch_add(words: &mut LineWords) -> Result<SendOp, LineError>
    ensures { AnswersFrom (λ x. x) result words.new (read_row grammar.fetch_add_row words.old) }
{
    let address = take_u64(words)?;
    let key = Key(take_u32(words)?);
    let add = take_u64(words)?;
    let list = take_pieces(words)?;
    Ok(SendOp::FetchAdd {
        address,
        key,
        add,
        list,
    })
}

/// A bind of a type 1 window.
#[tactic(auto, unfolding(crate::specs::Grammar::bind1_row))]
fn bind1(words: &mut LineWords) -> Result<SendOp, LineError>
    ensures { AnswersFrom (λ x. x) result words.new (read_row grammar.bind1_row words.old) }
{
    let window = take_u16(words)?;
    let region = Key(take_u32(words)?);
    let address = take_u64(words)?;
    let length = take_u32(words)?;
    let rights = take_rights(words)?;
    Ok(SendOp::Bind1 {
        window,
        region,
        address,
        length,
        rights,
    })
}

/// A bind of a type 2 window.
#[tactic(auto, unfolding(crate::specs::Grammar::bind2_row))]
fn bind2(words: &mut LineWords) -> Result<SendOp, LineError>
    ensures { AnswersFrom (λ x. x) result words.new (read_row grammar.bind2_row words.old) }
{
    let window = take_u16(words)?;
    let region = Key(take_u32(words)?);
    let low = take_u8(words)?;
    let address = take_u64(words)?;
    let length = take_u32(words)?;
    let rights = take_rights(words)?;
    Ok(SendOp::Bind2 {
        window,
        region,
        low,
        address,
        length,
        rights,
    })
}

/// A fast registration.
#[tactic(auto, unfolding(crate::specs::Grammar::fast_reg_row))]
fn fast_reg(alloc: Global, words: &mut LineWords) -> Result<SendOp, LineError>
    ensures { AnswersFrom (λ x. x) result words.new (read_row grammar.fast_reg_row words.old) }
{
    let region = take_u16(words)?;
    let low = take_u8(words)?;
    let buffer = take_u16(words)?;
    let address = take_u64(words)?;
    let length = take_u32(words)?;
    let rights = take_rights(words)?;
    let pages = take_pages(alloc, words)?;
    Ok(SendOp::FastReg {
        region,
        low,
        buffer,
        address,
        length,
        rights,
        pages,
    })
}

/// A Local Invalidate.
#[tactic(auto, unfolding(crate::specs::Grammar::local_inv_row))]
fn local_inv(words: &mut LineWords) -> Result<SendOp, LineError>
    ensures { AnswersFrom (λ x. x) result words.new (read_row grammar.local_inv_row words.old) }
{
    let key = Key(take_u32(words)?);
    Ok(SendOp::LocalInv { key })
}

/// An operation of the adapter itself, by its name.
#[tactic(auto, unfolding(crate::specs::Grammar::local_operations))]
fn local_operation(alloc: Global, name: &[u8], words: &mut LineWords) -> Result<SendOp, LineError>
    ensures { AnswersFrom (λ x. x) result words.new (read_named grammar.local_operations name.now words.old) }
{
    if is_name(name, "bind1") {
        bind1(words)
    } else if is_name(name, "bind2") {
        bind2(words)
    } else if is_name(name, "fastreg") {
        fast_reg(alloc, words)
    } else if is_name(name, "inv") {
        local_inv(words)
    } else {
        Err(LineError::Refused(ScriptCause::UnknownWord))
    }
}

/// An operation, by its name.
#[tactic(auto, unfolding(crate::specs::Grammar::operations))]
fn named_operation(alloc: Global, name: &[u8], words: &mut LineWords) -> Result<SendOp, LineError>
    ensures { AnswersFrom (λ x. x) result words.new (read_named grammar.operations name.now words.old) }
{
    if is_name(name, "send") {
        send(words)
    } else if is_name(name, "sendimm") {
        send_imm(words)
    } else if is_name(name, "sendinv") {
        send_inv(words)
    } else if is_name(name, "write") {
        write(words)
    } else if is_name(name, "writeimm") {
        write_imm(words)
    } else if is_name(name, "read") {
        read(words)
    } else if is_name(name, "cas") {
        cmp_swap(words)
    } else if is_name(name, "add") {
        fetch_add(words)
    } else {
        local_operation(alloc, name, words)
    }
}

/// What a send request asks for, by the first word.
pub(crate) fn operation(alloc: Global, words: &mut LineWords) -> Result<SendOp, LineError>
    ensures { AnswersFrom (λ x. x) result words.new (read_table grammar.operations words.old) }
{
    let name = words.take_word()?;
    named_operation(alloc, name, words)
}
