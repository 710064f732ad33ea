ghost use Rattle.std.specs.Prelude.{◌≡◌, [], ◌∷◌, ◌++◌, codes, OnOk};
ghost use Rattle.std.specs.Int.{w32};
ghost use Rattle.ca_trace_print.specs.Words as fields;
ghost use Rattle.ca_trace_print.specs.Words.{Fixed, OfDomain, OfKey, OfKind, OfQueue, Number, led, words};
ghost use Rattle.ca_trace.specs.Table.{mark_words, verdict_words, granted_words};

use crate::answer::{put_answer, put_completion};
use ca_base::{Address, DomainId, Grant, Key, Kind, Memory, Perhaps, QueueId, Verdict};
use ca_model::Mark;
use ca_trace_print::{Hex, InAdapter, Queues, Text, alarm, object};

/// Adds the words of a mark, each after a space.
pub fn put_mark(text: &mut Text, mark: &Mark) -> Result<(), Memory>
    ensures ok { OnOk result (text.new ≡ text.old ++ led 32 (words (mark_words mark.now))) }
{
    match mark {
        Mark::Verb { answer, .. } => put_answer(text, answer),
        Mark::Granted(grant) => put_grant(text, grant),
        Mark::Revoked { adapter, key } => text.put_words(("revoked", adapter, key)),
        Mark::Remote {
            queue,
            domain,
            envelope,
            key,
            kind,
            address,
            length,
            verdict,
        } => {
            let envelope = Perhaps(*envelope);
            text.put_words(("remote", queue, domain, envelope, key))?;
            put_access(text, *kind, *address, *length, verdict)
        }
        Mark::Local {
            queue,
            domain,
            key,
            kind,
            address,
            length,
            verdict,
        } => {
            put_local(text, *queue, *domain, *key)?;
            put_access(text, *kind, *address, *length, verdict)
        }
        Mark::Stored { place, bytes } => {
            let buffer = InAdapter {
                adapter: place.adapter,
                buffer: place.buffer,
            };
            text.put_words(("stored", buffer, place.offset, Hex(bytes.as_slice())))
        }
        Mark::Sent {
            source,
            target,
            index,
            request,
            bytes,
        } => {
            let index = Perhaps(*index);
            let request = Perhaps(*request);
            text.put_words((
                "sent",
                source,
                target,
                index,
                request,
                Hex(bytes.as_slice()),
            ))
        }
        Mark::Lost { target, index } => {
            let index = Perhaps(*index);
            text.put_words(("lost", target, index))
        }
        Mark::Arrived { target, index } => {
            let index = Perhaps(*index);
            text.put_words(("arrived", target, index))
        }
        Mark::Dropped { target, cause } => text.put_words(("dropped", target, cause)),
        Mark::Timer { queue, silent } => {
            let alarm = alarm(*silent);
            text.put_words(("timer", queue, alarm))
        }
        Mark::Done {
            completion,
            cause,
            ..
        } => {
            let cause = Perhaps(*cause);
            text.put_words(("done",))?;
            put_completion(text, completion)?;
            text.put_words((cause,))
        }
    }
}

/// Adds whose list was used by which key.
fn put_local(text: &mut Text, queue: QueueId, domain: DomainId, key: Key) -> Result<(), Memory>
    ensures ok { OnOk result (text.new ≡ text.old
        ++ led 32 (words (Fixed (codes "local") ∷ OfQueue queue ∷ OfDomain domain ∷ OfKey key ∷ []))) }
{
    text.put_words(("local", queue, domain, key))
}

/// Adds what an access asked for, and what came of it.
fn put_access(
    text: &mut Text,
    kind: Kind,
    address: u64,
    length: u32,
    verdict: &Verdict,
) -> Result<(), Memory>
    ensures ok { OnOk result (text.new ≡ text.old
        ++ led 32 (words (OfKind kind ∷ fields.Address address ∷ Number w32 length ∷ verdict_words verdict.now))) }
{
    let address = Address(address);
    text.put_words((kind, address, length))?;
    put_verdict(text, verdict)
}

fn put_grant(text: &mut Text, grant: &Grant) -> Result<(), Memory>
    ensures ok { OnOk result (text.new ≡ text.old ++ led 32 (words (granted_words grant.now))) }
{
    let domain = grant.domain;
    let key = grant.key;
    let object = object(grant.local);
    let queues = Queues(grant.queue);
    text.put_words(("granted", domain, key, object, queues))?;
    let address = Address(grant.address);
    let length = grant.length;
    let rights = grant.rights;
    text.put_words((address, length, rights, grant.runs.as_slice()))
}

fn put_verdict(text: &mut Text, verdict: &Verdict) -> Result<(), Memory>
    ensures ok { OnOk result (text.new ≡ text.old ++ led 32 (words (verdict_words verdict.now))) }
{
    match verdict {
        Verdict::Read(bytes) => text.put_words(("read", Hex(bytes.as_slice()))),
        Verdict::Wrote(bytes) => text.put_words(("wrote", Hex(bytes.as_slice()))),
        Verdict::Swapped { found, put } => text.put_words(("found", found, "put", put)),
        Verdict::Denied(denial) => text.put_words(("denied", denial)),
    }
}
