ghost use Rattle.ca_trace_lex.specs.Fits.{AllFit};
ghost use Rattle.ca_trace_print.specs.Verbs.{change_words, operation_words};

use crate::list::{pages_fit, pieces_fit};
use crate::word::{key_fits, queue_fits, slot_fits, u8_fits, u16_fits, u32_fits, u64_fits};
use ca_base::{Change, SendOp, Slot};

/// The words of a change of a queue pair's state.
pub fn change_fits(slot: Slot, change: Change)
    ensures { AllFit (change_words slot change) }
{
    slot_fits(slot);
    match change {
        Change::Rtr {
            peer,
            incarnation,
            psn,
            mtu,
            rnr_code,
        } => {
            queue_fits(peer);
            u32_fits(incarnation);
            u32_fits(psn);
            u16_fits(mtu);
            u8_fits(rnr_code);
        }
        Change::Rts {
            psn,
            retry,
            rnr_retry,
            reads,
        } => {
            u32_fits(psn);
            u8_fits(retry);
            u8_fits(rnr_retry);
            u8_fits(reads);
        }
        Change::Reset | Change::Init | Change::Sqd | Change::Resume | Change::Error => {}
    }
}

/// The words of what a send request asks for.
pub fn operation_fits(op: &SendOp)
    ensures { AllFit (operation_words op.now) }
{
    match op {
        SendOp::Send { list } => pieces_fit(list),
        SendOp::SendImm { imm, list } => {
            u32_fits(*imm);
            pieces_fit(list);
        }
        SendOp::SendInv { key, list } => {
            key_fits(*key);
            pieces_fit(list);
        }
        SendOp::Write { address, key, list } | SendOp::Read { address, key, list } => {
            u64_fits(*address);
            key_fits(*key);
            pieces_fit(list);
        }
        SendOp::WriteImm {
            address,
            key,
            imm,
            list,
        } => {
            u64_fits(*address);
            key_fits(*key);
            u32_fits(*imm);
            pieces_fit(list);
        }
        SendOp::CmpSwap {
            address,
            key,
            compare,
            swap,
            list,
        } => {
            u64_fits(*address);
            key_fits(*key);
            u64_fits(*compare);
            u64_fits(*swap);
            pieces_fit(list);
        }
        SendOp::FetchAdd {
            address,
            key,
            add,
            list,
        } => {
            u64_fits(*address);
            key_fits(*key);
            u64_fits(*add);
            pieces_fit(list);
        }
        SendOp::Bind1 {
            window,
            region,
            address,
            length,
            ..
        } => {
            u16_fits(*window);
            key_fits(*region);
            u64_fits(*address);
            u32_fits(*length);
        }
        SendOp::Bind2 {
            window,
            region,
            low,
            address,
            length,
            ..
        } => {
            u16_fits(*window);
            key_fits(*region);
            u8_fits(*low);
            u64_fits(*address);
            u32_fits(*length);
        }
        SendOp::FastReg {
            region,
            low,
            buffer,
            address,
            length,
            pages,
            ..
        } => {
            u16_fits(*region);
            u8_fits(*low);
            u16_fits(*buffer);
            u64_fits(*address);
            u32_fits(*length);
            pages_fit(pages.as_slice());
        }
        SendOp::LocalInv { key } => key_fits(*key),
    }
}
