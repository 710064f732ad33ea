ghost use Rattle.std.specs.Prelude.{◌≡◌, ◌++◌, ◌∷◌, [], OnOk, OnErr};
ghost use Rattle.std.specs.Int.{w64};
ghost use Rattle.ca_trace_print.specs.Words.{Fixed, OfSlot, Number, OfPieces, led, words, joined};
ghost use Rattle.ca_trace_print.specs.Verbs.{call_words, change_words, poll_words, verb_words, call};

use crate::post::put_operation;
use crate::spelled::{Hex, InAdapter};
use crate::text::Text;
use crate::words::Flags;
use ca_base::{Change, Memory, Perhaps, RecvRequest, SendRequest, Slot};
use ca_model::Verb;

/// Appends the line of a script by which consumer `by` calls a verb, without its line feed. `Memory` leaves the output
/// as it was.
pub fn print_call(by: u32, verb: &Verb, out: &mut Vec<u8>) -> Result<(), Memory>
    ensures ok { OnOk result (out.new.items ≡ out.old.items ++ call by verb.now) }
    ensures err { OnErr result (out.new.items ≡ out.old.items) }
{
    let mut text = Text::new(*out.allocator())?;
    put_call(&mut text, by, verb)?;
    out.extend_from_slice(text.as_bytes())?;
    Ok(())
}

/// Adds a consumer and the verb that it calls.
pub fn put_call(text: &mut Text, by: u32, verb: &Verb) -> Result<(), Memory>
    ensures ok { OnOk result (text.new ≡ text.old ++ joined 32 (words (call_words by verb.now))) }
{
    text.put_number(b'c', u64::from(by))?;
    put_verb(text, verb)
}

/// Adds the words of a verb, each after a space.
fn put_verb(text: &mut Text, verb: &Verb) -> Result<(), Memory>
    ensures ok { OnOk result (text.new ≡ text.old ++ led 32 (words (verb_words verb.now))) }
{
    match verb {
        Verb::AllocPd { domain } => text.put_words(("pd", domain)),
        Verb::DeallocPd { domain } => text.put_words(("unpd", domain)),
        Verb::RegMr {
            slot,
            buffer,
            offset,
            length,
            rights,
        } => text.put_words(("reg", slot, buffer, offset, length, rights)),
        Verb::AllocMr { slot, pages } => text.put_words(("mr", slot, pages)),
        Verb::DeregMr { slot } => text.put_words(("dereg", slot)),
        Verb::AllocMw { slot, kind } => text.put_words(("mw", slot, kind)),
        Verb::DeallocMw { slot } => text.put_words(("unmw", slot)),
        Verb::CreateCq { slot, capacity } => text.put_words(("cq", slot, capacity)),
        Verb::DestroyCq { slot } => text.put_words(("uncq", slot)),
        Verb::CreateSrq { slot, depth } => text.put_words(("srq", slot, depth)),
        Verb::DestroySrq { slot } => text.put_words(("unsrq", slot)),
        Verb::CreateQp {
            slot,
            send_cq,
            recv_cq,
            send_depth,
            recv_depth,
            srq,
        } => {
            let srq = Perhaps(*srq);
            text.put_words(("qp", slot, send_cq, recv_cq, send_depth, recv_depth, srq))
        }
        Verb::ModifyQp { slot, change } => put_change(text, *slot, change),
        Verb::QueryQp { slot } => text.put_words(("query", slot)),
        Verb::DestroyQp { slot } => text.put_words(("unqp", slot)),
        Verb::PostSend { slot, request } => put_post(text, *slot, request),
        Verb::PostRecv { slot, request } => put_receive(text, "recv", *slot, request),
        Verb::PostSrq { slot, request } => put_receive(text, "srecv", *slot, request),
        Verb::Poll { slot, n, least } => put_poll(text, *slot, *n, *least),
        Verb::Store {
            adapter,
            buffer,
            offset,
            bytes,
        } => {
            let place = InAdapter {
                adapter: *adapter,
                buffer: *buffer,
            };
            text.put_words(("store", place, offset, Hex(bytes.as_slice())))
        }
        Verb::Load {
            adapter,
            buffer,
            offset,
            length,
        } => {
            let place = InAdapter {
                adapter: *adapter,
                buffer: *buffer,
            };
            text.put_words(("load", place, offset, length))
        }
        Verb::Inject { queue, bytes } => text.put_words(("inject", queue, Hex(bytes.as_slice()))),
    }
}

fn put_change(text: &mut Text, slot: Slot, change: &Change) -> Result<(), Memory>
    ensures ok { OnOk result (text.new ≡ text.old ++ led 32 (words (change_words slot change.now))) }
{
    match change {
        Change::Reset => text.put_words(("reset", slot)),
        Change::Init => text.put_words(("init", slot)),
        Change::Rtr {
            peer,
            incarnation,
            psn,
            mtu,
            rnr_code,
        } => text.put(format_args!(" rtr {slot} {peer} {incarnation} {psn} {mtu} {rnr_code}")),
        Change::Rts {
            psn,
            retry,
            rnr_retry,
            reads,
        } => text.put_words(("rts", slot, psn, retry, rnr_retry, reads)),
        Change::Sqd => text.put_words(("sqd", slot)),
        Change::Resume => text.put_words(("resume", slot)),
        Change::Error => text.put_words(("error", slot)),
    }
}

fn put_post(text: &mut Text, slot: Slot, request: &SendRequest) -> Result<(), Memory>
    ensures ok { OnOk result (text.new
        ≡ text.old ++ led 32 (words (verb_words (Verb.PostSend slot request.now)))) }
{
    let id = request.id;
    let flags = Flags {
        signalled: request.signalled,
        fence: request.fence,
        solicited: request.solicited,
    };
    text.put_words(("post", slot, id, flags))?;
    put_operation(text, &request.op)
}

fn put_receive(
    text: &mut Text,
    name: &'static str,
    slot: Slot,
    request: &RecvRequest,
) -> Result<(), Memory>
    ensures ok { OnOk result (text.new ≡ text.old
        ++ led 32 (words (Fixed name.now ∷ OfSlot slot ∷ Number w64 request.now.id ∷ OfPieces request.now.list.items
        ∷ []))) }
{
    let id = request.id;
    text.put_words((name, slot, id, request.list.as_slice()))
}

fn put_poll(text: &mut Text, slot: Slot, n: u8, least: u8) -> Result<(), Memory>
    ensures ok { OnOk result (text.new ≡ text.old ++ led 32 (words (poll_words slot n least))) }
{
    if least == 0 {
        text.put_words(("poll", slot, n))
    } else if least == n {
        text.put_words(("wait", slot, n))
    } else {
        text.put_words(("poll", slot, n, least))
    }
}
