ghost use Rattle.std.specs.Prelude.{◌≡◌, ◌+◌, ◌-◌, ◌<◌, ◌≤◌, ◌&&◌, suc, not, if◌then◌else◌, true, false, Some, None, IsTrue, slice_get, drop, length};
ghost use Rattle.std.specs.Option.{option_map_or, option_or};
ghost use Rattle.circular_buffer.specs.Buffer.{buffer};
ghost use Rattle.ca_base.specs.objects.Mailbox.{due_from, is_hold, is_undelivered, only_holds, undelivered_count, with_delivery};
ghost use Rattle.ca_mailbox.specs.Counting.{has_count_left};

use crate::envelope::{is_due, is_hold, is_undelivered, is_unheld};
use ca_base::MailEnvelope;
use circular_buffer::HeapCircularBuffer;

/// Whether an envelope with so many before it is kept and undelivered.
pub(crate) fn slot_is_undelivered(
    envelopes: &HeapCircularBuffer<MailEnvelope>,
    later: usize,
) -> bool
    ensures { result ≡ option_map_or is_undelivered (slice_get envelopes.now.items later) false }
{
    match envelopes.get(later) {
        Some(envelope) => is_undelivered(envelope),
        None => false,
    }
}

/// Counts one delivery of the envelope with so many before it, and tells whether it was undelivered until now.
pub(crate) fn deliver(envelopes: &mut HeapCircularBuffer<MailEnvelope>, later: usize) -> bool
    requires { IsTrue (option_map_or has_count_left (slice_get envelopes.old.items later) false) }
    ensures envelopes { envelopes.new ≡ buffer (with_delivery later envelopes.old.items) envelopes.old.capacity }
    ensures done { undelivered_count (with_delivery later envelopes.old.items) + (if result then 1 else 0)
        ≡ undelivered_count envelopes.old.items }
{
    match envelopes.get_mut(later) {
        Some(envelope) => deliver_once(envelope),
        None => false,
    }
}

/// Counts one delivery, and tells whether the envelope was undelivered until now.
fn deliver_once(envelope: &mut MailEnvelope) -> bool
    requires { IsTrue (has_count_left envelope.old) }
    ensures envelope { envelope.new ≡ record envelope.old { delivered = suc envelope.old.delivered } }
    ensures done { result ≡ (is_undelivered envelope.old && not (is_undelivered envelope.new)) }
{
    let was_undelivered = is_undelivered(envelope);
    envelope.delivered += 1;
    was_undelivered && !is_undelivered(envelope)
}

/// Whether an envelope with so many before it is kept and held.
pub(crate) fn slot_is_held(envelopes: &HeapCircularBuffer<MailEnvelope>, later: usize) -> bool
    ensures { result ≡ option_map_or (λ e. is_hold e.lot) (slice_get envelopes.now.items later) false }
{
    match envelopes.get(later) {
        Some(envelope) => is_hold(envelope.lot),
        None => false,
    }
}

/// The least number of envelopes in front behind which none is undelivered, where so many are enough.
pub(crate) fn trimmed(envelopes: &HeapCircularBuffer<MailEnvelope>, enough: usize) -> usize
    requires { undelivered_count (drop enough envelopes.now.items) ≡ 0 }
    ensures within { result ≤ enough }
    ensures none_behind { undelivered_count (drop result envelopes.now.items) ≡ 0 }
    ensures least { 0 < result → option_map_or is_undelivered (slice_get envelopes.now.items (result - 1)) false
        ≡ true }
{
    let mut left = enough;
    while left > 0 && !slot_is_undelivered(envelopes, left - 1) {
        left -= 1;
    }
    left
}

/// The lowest index that is undelivered and ready, of envelopes of which the first has the index before `next`.
pub(crate) fn first_ready(envelopes: &HeapCircularBuffer<MailEnvelope>, next: u64) -> Option<u64>
    requires { length envelopes.now.items ≤ next }
    ensures { result ≡ due_from (only_holds envelopes.now.items) next 0 envelopes.now.items }
{
    let all_held = only_holds(envelopes);
    let mut later = 0;
    let mut found = None;
    for place in 0..envelopes.len() {
        if let Some(envelope) = envelopes.get(place) {
            let index = next - 1 - place as u64;
            found = latest(is_due(envelope, all_held, later), index, found);
            later += u64::from(envelope.delivered > 0);
        }
    }
    found
}

/// The index where that is so, and else what was found before.
fn latest(ready: bool, index: u64, found: Option<u64>) -> Option<u64>
    ensures { result ≡ option_or (if ready then Some index else None) found }
{
    if ready { Some(index) } else { found }
}

/// Whether every envelope that is undelivered is held.
fn only_holds(envelopes: &HeapCircularBuffer<MailEnvelope>) -> bool
    ensures { result ≡ only_holds envelopes.now.items }
{
    for place in 0..envelopes.len() {
        if let Some(envelope) = envelopes.get(place) {
            if is_unheld(envelope) {
                return false;
            }
        }
    }
    true
}
