ghost use Rattle.ca_trace_lex.specs.Fits.{AllFit};
ghost use Rattle.ca_trace_print.specs.Verbs.{verb_words};

use crate::list::{bytes_fit, pieces_fit};
use crate::operation::{change_fits, operation_fits};
use crate::word::{
    domain_fits, perhaps_u16_fits, queue_fits, slot_fits, u8_fits, u16_fits, u32_fits, u64_fits,
};
use ca_model::Verb;

/// The words of a verb.
pub fn verb_fits(verb: &Verb)
    ensures { AllFit (verb_words verb.now) }
{
    match verb {
        Verb::AllocPd { domain } | Verb::DeallocPd { domain } => domain_fits(*domain),
        Verb::RegMr {
            slot,
            buffer,
            offset,
            length,
            ..
        } => {
            slot_fits(*slot);
            u16_fits(*buffer);
            u32_fits(*offset);
            u32_fits(*length);
        }
        Verb::AllocMr { slot, pages } => {
            slot_fits(*slot);
            u16_fits(*pages);
        }
        Verb::AllocMw { slot, kind } => {
            slot_fits(*slot);
            u8_fits(*kind);
        }
        Verb::CreateCq { slot, capacity } => {
            slot_fits(*slot);
            u16_fits(*capacity);
        }
        Verb::CreateSrq { slot, depth } => {
            slot_fits(*slot);
            u16_fits(*depth);
        }
        Verb::CreateQp {
            slot,
            send_cq,
            recv_cq,
            send_depth,
            recv_depth,
            srq,
        } => {
            slot_fits(*slot);
            u16_fits(*send_cq);
            u16_fits(*recv_cq);
            u16_fits(*send_depth);
            u16_fits(*recv_depth);
            perhaps_u16_fits(*srq);
        }
        Verb::ModifyQp { slot, change } => change_fits(*slot, *change),
        Verb::DeregMr { slot }
        | Verb::DeallocMw { slot }
        | Verb::DestroyCq { slot }
        | Verb::DestroySrq { slot }
        | Verb::QueryQp { slot }
        | Verb::DestroyQp { slot } => slot_fits(*slot),
        Verb::PostSend { slot, request } => {
            slot_fits(*slot);
            u64_fits(request.id);
            operation_fits(&request.op);
        }
        Verb::PostRecv { slot, request } | Verb::PostSrq { slot, request } => {
            slot_fits(*slot);
            u64_fits(request.id);
            pieces_fit(&request.list);
        }
        Verb::Poll { slot, n, least } => {
            slot_fits(*slot);
            u8_fits(*n);
            u8_fits(*least);
        }
        Verb::Store {
            adapter,
            buffer,
            offset,
            bytes,
        } => {
            u8_fits(*adapter);
            u16_fits(*buffer);
            u32_fits(*offset);
            bytes_fit(bytes.as_slice());
        }
        Verb::Load {
            adapter,
            buffer,
            offset,
            length,
        } => {
            u8_fits(*adapter);
            u16_fits(*buffer);
            u32_fits(*offset);
            u32_fits(*length);
        }
        Verb::Inject { queue, bytes } => {
            queue_fits(*queue);
            bytes_fit(bytes.as_slice());
        }
    }
}
