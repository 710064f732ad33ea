ghost use Rattle.std.specs.Prelude.{◌≡◌};
ghost use Rattle.ca_trace_lex.specs.Words.{Reads, GivesAs};
ghost use Rattle.ca_trace_read_verbs.specs.Operations as reading;

use ca_base::{Key, Rights, SendOp};
use ca_trace_lex::{Pieces, Stop, is_name, take_address, take_pages, take_pieces};
use std::alloc::Global;

/// A SEND.
#[tactic(auto, unfolding(crate::specs::Operations::send_at))]
fn send_at(alloc: Global, words: &mut Pieces) -> Result<SendOp, Stop>
    ensures { Reads (λ x. x) result words.new (reading.send_at words.old) }
{
    let list = take_pieces(alloc, words)?;
    Ok(SendOp::Send { list })
}

/// A SEND with Immediate.
#[tactic(auto, unfolding(crate::specs::Operations::send_imm_at))]
fn send_imm_at(alloc: Global, words: &mut Pieces) -> Result<SendOp, Stop>
    ensures { Reads (λ x. x) result words.new (reading.send_imm_at words.old) }
{
    let imm = words.take::<u32>()?;
    let list = take_pieces(alloc, words)?;
    Ok(SendOp::SendImm { imm, list })
}

/// A SEND with Invalidate.
#[tactic(auto, unfolding(crate::specs::Operations::send_inv_at))]
fn send_inv_at(alloc: Global, words: &mut Pieces) -> Result<SendOp, Stop>
    ensures { Reads (λ x. x) result words.new (reading.send_inv_at words.old) }
{
    let key = words.take::<Key>()?;
    let list = take_pieces(alloc, words)?;
    Ok(SendOp::SendInv { key, list })
}

/// An RDMA WRITE.
#[tactic(auto, unfolding(crate::specs::Operations::write_at))]
fn write_at(alloc: Global, words: &mut Pieces) -> Result<SendOp, Stop>
    ensures { Reads (λ x. x) result words.new (reading.write_at words.old) }
{
    let address = take_address(words)?;
    let key = words.take::<Key>()?;
    let list = take_pieces(alloc, words)?;
    Ok(SendOp::Write { address, key, list })
}

/// An RDMA WRITE with Immediate.
#[tactic(auto, unfolding(crate::specs::Operations::write_imm_at))]
fn write_imm_at(alloc: Global, words: &mut Pieces) -> Result<SendOp, Stop>
    ensures { Reads (λ x. x) result words.new (reading.write_imm_at words.old) }
{
    let address = take_address(words)?;
    let key = words.take::<Key>()?;
    let imm = words.take::<u32>()?;
    let list = take_pieces(alloc, words)?;
    Ok(SendOp::WriteImm {
        address,
        key,
        imm,
        list,
    })
}

/// An RDMA READ.
#[tactic(auto, unfolding(crate::specs::Operations::read_at))]
fn read_at(alloc: Global, words: &mut Pieces) -> Result<SendOp, Stop>
    ensures { Reads (λ x. x) result words.new (reading.read_at words.old) }
{
    let address = take_address(words)?;
    let key = words.take::<Key>()?;
    let list = take_pieces(alloc, words)?;
    Ok(SendOp::Read { address, key, list })
}

/// A compare and swap.
#[tactic(auto, unfolding(crate::specs::Operations::cmp_swap_at))]
fn cmp_swap_at(alloc: Global, words: &mut Pieces) -> Result<SendOp, Stop>
    ensures { Reads (λ x. x) result words.new (reading.cmp_swap_at words.old) }
{
    let address = take_address(words)?;
    let key = words.take::<Key>()?;
    let compare = words.take::<u64>()?;
    let swap = words.take::<u64>()?;
    let list = take_pieces(alloc, words)?;
    Ok(SendOp::CmpSwap {
        address,
        key,
        compare,
        swap,
        list,
    })
}

/// A fetch and add.
#[tactic(auto, unfolding(crate::specs::Operations::fetch_add_at))]
fn fetch_add_at(alloc: Global, words: &mut Pieces) -> Result<SendOp, Stop>
    ensures { Reads (λ x. x) result words.new (reading.fetch_add_at words.old) }
{
    let address = take_address(words)?;
    let key = words.take::<Key>()?;
    let add = words.take::<u64>()?;
    let list = take_pieces(alloc, words)?;
    Ok(SendOp::FetchAdd {
        address,
        key,
        add,
        list,
    })
}

/// A bind of a type 1 window.
#[tactic(auto, unfolding(crate::specs::Operations::bind1_at))]
fn bind1_at(words: &mut Pieces) -> Result<SendOp, Stop>
    ensures { Reads (λ x. x) result words.new (reading.bind1_at words.old) }
{
    let window = words.take::<u16>()?;
    let region = words.take::<Key>()?;
    let address = take_address(words)?;
    let length = words.take::<u32>()?;
    let rights = words.take::<Rights>()?;
    Ok(SendOp::Bind1 {
        window,
        region,
        address,
        length,
        rights,
    })
}

/// A bind of a type 2 window.
#[tactic(auto, unfolding(crate::specs::Operations::bind2_at))]
fn bind2_at(words: &mut Pieces) -> Result<SendOp, Stop>
    ensures { Reads (λ x. x) result words.new (reading.bind2_at words.old) }
{
    let window = words.take::<u16>()?;
    let region = words.take::<Key>()?;
    let low = words.take::<u8>()?;
    let address = take_address(words)?;
    let length = words.take::<u32>()?;
    let rights = words.take::<Rights>()?;
    Ok(SendOp::Bind2 {
        window,
        region,
        low,
        address,
        length,
        rights,
    })
}

/// A fast registration.
#[tactic(auto, unfolding(crate::specs::Operations::fast_reg_at))]
fn fast_reg_at(alloc: Global, words: &mut Pieces) -> Result<SendOp, Stop>
    ensures { Reads (λ x. x) result words.new (reading.fast_reg_at words.old) }
{
    let region = words.take::<u16>()?;
    let low = words.take::<u8>()?;
    let buffer = words.take::<u16>()?;
    let address = take_address(words)?;
    let length = words.take::<u32>()?;
    let rights = words.take::<Rights>()?;
    let pages = take_pages(alloc, words)?;
    Ok(SendOp::FastReg {
        region,
        low,
        buffer,
        address,
        length,
        rights,
        pages,
    })
}

/// A local invalidation.
#[tactic(auto, unfolding(crate::specs::Operations::local_inv_at))]
fn local_inv_at(words: &mut Pieces) -> Result<SendOp, Stop>
    ensures { Reads (λ x. x) result words.new (reading.local_inv_at words.old) }
{
    let key = words.take::<Key>()?;
    Ok(SendOp::LocalInv { key })
}

/// A local operation, by its name.
#[tactic(auto, unfolding(crate::specs::Operations::local_at))]
fn local_at(alloc: Global, name: &[u8], words: &mut Pieces) -> Result<SendOp, Stop>
    ensures { Reads (λ x. x) result words.new (reading.local_at name.now words.old) }
{
    if is_name(name, "bind1") {
        bind1_at(words)
    } else if is_name(name, "bind2") {
        bind2_at(words)
    } else if is_name(name, "fastreg") {
        fast_reg_at(alloc, words)
    } else if is_name(name, "inv") {
        local_inv_at(words)
    } else {
        Err(Stop::Outside)
    }
}

/// What a send request asks for.
#[tactic(auto, unfolding(crate::specs::Operations::operation_at))]
pub(crate) fn operation_at(alloc: Global, words: &mut Pieces) -> Result<SendOp, Stop>
    ensures { Reads (λ x. x) result words.new (reading.operation_at words.old) }
{
    let name = words.take_word()?;
    if is_name(name, "send") {
        send_at(alloc, words)
    } else if is_name(name, "sendimm") {
        send_imm_at(alloc, words)
    } else if is_name(name, "sendinv") {
        send_inv_at(alloc, words)
    } else if is_name(name, "write") {
        write_at(alloc, words)
    } else if is_name(name, "writeimm") {
        write_imm_at(alloc, words)
    } else if is_name(name, "read") {
        read_at(alloc, words)
    } else if is_name(name, "cas") {
        cmp_swap_at(alloc, words)
    } else if is_name(name, "add") {
        fetch_add_at(alloc, words)
    } else {
        local_at(alloc, name, words)
    }
}
