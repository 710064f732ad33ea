ghost use Rattle.std.specs.Prelude.{◌≡◌};

use crate::envelope::{is_lost, is_undelivered};
use crate::order::{deliver, first_ready, slot_is_held, slot_is_undelivered, trimmed};
use ca_base::limits::{KEPT_ENVELOPES, MAX_UNDELIVERED};
use ca_base::{Bytes, Correspondent, Lot, MailEnvelope, Memory, QueueId};
use circular_buffer::HeapCircularBuffer;
use std::alloc::Global;
use std::marker::Model;

/// Why a packet is not sent.
#[derive(Clone, Copy, Debug, PartialEq, Eq)]
pub enum SendError {
    /// The sender is not the peer that the owner named, or names another incarnation of the owner.
    NoPath,
    /// 128 packets are undelivered, or the envelope 256 places back still is.
    NoRoom,
}

/// The index is not one of the last 256 that are kept, or its packet was lost.
#[derive(Clone, Copy, Debug, PartialEq, Eq)]
pub struct NotKept;

/// The mailbox of a queue pair. Contracts see the owner's incarnation, the peer that it named, the index of the next
/// envelope, and the last 256 envelopes since the mailbox was cleared, the newest first.
#[derive(Drop)]
pub struct Mailbox {
    incarnation: u32,
    peer: Option<Correspondent>,
    next: u64,
    waits: u32,
    // No envelope that has this many or more before it is undelivered.
    span: usize,
    envelopes: HeapCircularBuffer<MailEnvelope>,
}

impl Model for Mailbox {
    ghost use Rattle.std.specs.Prelude.{◌≡◌, ◌<◌, ◌≤◌, ◌^◌, drop, length};
    ghost use Rattle.ca_base.specs.declared.limits.TheConstants.{KEPT_ENVELOPES, MAX_UNDELIVERED};
    ghost use Rattle.ca_base.specs.objects.Mailbox.{Mailbox, undelivered_count};

    ghost Value = { Mailbox };

    ghost view = { λ m. record {
      incarnation = m.incarnation;
      peer = m.peer;
      next = m.next;
      envelopes = m.envelopes.items;
    } };

    ghost invariant = { λ m. (length m.envelopes.items ≤ m.next) × (m.next < 2 ^ 64) × (m.envelopes.capacity ≡ KEPT_ENVELOPES) × (length m.envelopes.items ≤ KEPT_ENVELOPES) × (m.waits ≡ undelivered_count m.envelopes.items) × (m.span ≤ KEPT_ENVELOPES) × (undelivered_count (drop m.span m.envelopes.items) ≡ 0) };
}

impl Mailbox {
    ghost use Rattle.std.specs.Prelude.{◌≡◌, ◌<◌, ◌^◌, ◌↔◌, ◌&&◌, suc, if◌then◌else◌, Option, None, Some, IfOk, IfErr, OnErr, IsOk, IsTrue};
    ghost use Rattle.ca_base.specs.objects.Mailbox.{empty_mailbox, with_peer, without_envelopes, passes, undelivered_count, has_room, after_send, bytes_lent, after_delivery, due};
    ghost use Rattle.ca_mailbox.specs.Sender.{sender_of, peer_of};
    ghost use Rattle.ca_mailbox.specs.Counting.{is_countable};
    ghost use Rattle.ca_mailbox.specs.declared.mailbox.SendError.TheVariants.{NoPath, NoRoom};

    /// The mailbox before the first queue pair: it accepts nobody.
    pub fn create(alloc: Global) -> Result<Mailbox, Memory>
        ensures { IfOk result (λ m. m ≡ empty_mailbox) }
    {
        Ok(Mailbox {
            incarnation: 0,
            peer: None,
            next: 0,
            waits: 0,
            span: 0,
            envelopes: HeapCircularBuffer::with_capacity(alloc, KEPT_ENVELOPES as usize)?,
        })
    }

    /// Sets whose packets pass: those of this peer in its incarnation, for this incarnation of the owner. It takes no
    /// memory, as none of the calls below does.
    pub fn accept(&mut self, incarnation: u32, peer: Option<(QueueId, u32)>)
        ensures { self.new ≡ with_peer incarnation (peer_of peer) self.old }
    {
        self.incarnation = incarnation;
        self.peer = match peer {
            Some((queue, incarnation)) => Some(Correspondent { queue, incarnation }),
            None => None,
        };
    }

    /// Whether a packet of this sender for this incarnation of the owner passes.
    pub fn passes(&self, sender: (QueueId, u32), incarnation: u32) -> bool
        ensures { result ≡ passes (sender_of sender) incarnation self.now }
    {
        let (queue, of_sender) = sender;
        match self.peer {
            Some(peer) => {
                self.incarnation == incarnation
                    && peer.queue.adapter == queue.adapter
                    && peer.queue.number == queue.number
                    && peer.incarnation == of_sender
            }
            None => false,
        }
    }

    /// Whether there is room for one more packet.
    pub fn room(&self) -> bool
        ensures { result ≡ has_room self.now }
    {
        self.waits < MAX_UNDELIVERED
            && !slot_is_undelivered(&self.envelopes, KEPT_ENVELOPES as usize - 1)
    }

    /// Sends a packet of this sender for this incarnation of the owner, and gives the envelope's index, counted from 0
    /// over the mailbox's whole life. The refusals in order are `NoPath` and `NoRoom`; each leaves the mailbox as it was.
    pub fn send(
        &mut self,
        sender: (QueueId, u32),
        incarnation: u32,
        lot: Lot,
        bytes: Bytes,
    ) -> Result<u64, SendError>
        requires { suc self.old.next < 2 ^ 64 }
        ensures variant { IsOk result ↔ IsTrue (passes (sender_of sender) incarnation self.old && has_room self.old) }
        ensures ok { IfOk result (λ index. (index ≡ self.old.next) × (self.new ≡ after_send lot bytes self.old)) }
        ensures cause { IfErr result (λ e. e ≡ (if passes (sender_of sender) incarnation self.old then NoRoom else
            NoPath)) }
        ensures err { OnErr result (self.new ≡ self.old) }
    {
        if !self.passes(sender, incarnation) {
            return Err(SendError::NoPath);
        }
        if !self.room() {
            return Err(SendError::NoRoom);
        }
        Ok(self.put(lot, bytes))
    }

    // Puts an envelope in front, where there is room.
    fn put(&mut self, lot: Lot, bytes: Bytes) -> u64
        requires next { suc self.old.next < 2 ^ 64 }
        requires room { IsTrue (has_room self.old) }
        ensures index { result ≡ self.old.next }
        ensures mailbox { self.new ≡ after_send lot bytes self.old }
    {
        let index = self.next;
        let envelope = MailEnvelope {
            lot,
            bytes,
            delivered: 0,
        };
        self.waits += u32::from(is_undelivered(&envelope));
        self.envelopes.push_front(envelope);
        self.span = (self.span + 1).min(KEPT_ENVELOPES as usize);
        self.next = index + 1;
        index
    }

    /// The bytes of an envelope. `NotKept` comes exactly where the index is not one of the last 256 kept, or its packet
    /// was lost.
    pub fn lend(&self, index: u64) -> Result<&[u8], NotKept>
        ensures ok { IfOk result (λ bytes. bytes_lent index self.now ≡ Some bytes.now) }
        ensures not_kept { IfErr result (λ _. bytes_lent index self.now ≡ None) }
    {
        if index >= self.next {
            return Err(NotKept);
        }
        match self.envelopes.get((self.next - 1 - index) as usize) {
            Some(envelope) => {
                if is_lost(envelope.lot) {
                    Err(NotKept)
                } else {
                    Ok(envelope.bytes.as_slice())
                }
            }
            None => Err(NotKept),
        }
    }

    /// Notes one delivery of an envelope that `lend` gives, and that was not delivered 2^64 - 1 times. It stays.
    pub fn count(&mut self, index: u64)
        requires { IsTrue (is_countable index self.old) }
        ensures { self.new ≡ after_delivery index self.old }
    {
        let later = (self.next - 1 - index) as usize;
        if deliver(&mut self.envelopes, later) {
            self.waits -= 1;
            self.span = trimmed(&self.envelopes, self.span);
        }
    }

    /// The index of the envelope that is due: the lowest that is undelivered and ready. A held one is ready where as many
    /// later ones as it names were delivered, or where all that are undelivered are held. Where the oldest that is
    /// undelivered is not held, no other one is looked at.
    pub fn due(&self) -> Option<u64>
        ensures { result ≡ due self.now }
    {
        let left = trimmed(&self.envelopes, self.span);
        if left == 0 {
            return None;
        }
        if slot_is_held(&self.envelopes, left - 1) {
            return first_ready(&self.envelopes, self.next);
        }
        Some(self.next - left as u64)
    }

    /// The index that the next envelope would get.
    pub fn next_index(&self) -> u64
        ensures { result ≡ self.now.next }
    {
        self.next
    }

    /// How many packets are undelivered.
    pub fn undelivered(&self) -> u32
        ensures { result ≡ undelivered_count self.now.envelopes }
    {
        self.waits
    }

    /// No packet is under way any more. Indices go on.
    pub fn clear(&mut self)
        ensures { self.new ≡ without_envelopes self.old }
    {
        self.envelopes.clear();
        self.waits = 0;
        self.span = 0;
    }
}
