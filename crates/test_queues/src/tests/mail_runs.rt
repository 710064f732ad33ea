ghost use Rattle.std.specs.Prelude.{◌≡◌, ◌<◌, ◌≤◌, ◌^◌, suc};
ghost use Rattle.test_queues.specs.Delivered.{most_delivered};

use super::{CALLS, draw, same};
use ca_base::{Bytes, Lot, QueueId};
use ca_mailbox::{Mailbox, SendError};
use rand_pcg::Pcg32;
use std::process::Abort;
use std::test::Fail;

const PEER: (QueueId, u32) = (
    QueueId {
        adapter: 0,
        number: 300,
    },
    1,
);

/// A packet that was sent: its lot, and how often it was delivered.
#[derive(Clone, Copy)]
struct Sent {
    lot: Lot,
    delivered: u64,
}

impl Sent {
    fn is_undelivered(&self) -> bool {
        match self.lot {
            Lot::Lose => false,
            Lot::Pass | Lot::Hold(_) => self.delivered == 0,
            Lot::Repeat(more) => self.delivered <= u64::from(more),
        }
    }

    fn is_held(&self) -> bool {
        matches!(self.lot, Lot::Hold(_))
    }

    fn is_ready(&self, all_held: bool, behind: &[Sent]) -> bool {
        let Lot::Hold(wanted) = self.lot else {
            return true;
        };
        let mut later: u64 = 0;
        for sent in behind {
            if sent.delivered > 0 {
                later = later.wrapping_add(1);
            }
        }
        all_held || u64::from(wanted) <= later
    }
}

/// A plain list of what was sent since the mailbox was cleared, the oldest first, and how many were sent before.
#[derive(Drop)]
struct Plain {
    before: u64,
    sent: Vec<Sent>,
}

impl Plain {
    fn next(&self) -> u64 {
        self.before.wrapping_add(self.sent.len() as u64)
    }

    /// Of 600 packets the first 300 are delivered as they are due, and then only late ones.
    fn is_in_order(&self) -> bool {
        self.next() % 600 < 300
    }

    fn kept(&self) -> &[Sent] {
        &self.sent[self.sent.len().saturating_sub(256)..]
    }

    fn undelivered(&self) -> u32 {
        let mut count: u32 = 0;
        for sent in self.kept() {
            if sent.is_undelivered() {
                count = count.wrapping_add(1);
            }
        }
        count
    }

    fn has_room(&self) -> bool {
        let kept = self.kept();
        let last = match kept.first() {
            Some(oldest) => kept.len() == 256 && oldest.is_undelivered(),
            None => false,
        };
        self.undelivered() < 128 && !last
    }

    fn all_held(&self) -> bool {
        for sent in self.kept() {
            if sent.is_undelivered() && !sent.is_held() {
                return false;
            }
        }
        true
    }

    fn due(&self) -> Option<u64> {
        let kept = self.kept();
        for place in 0..kept.len() {
            let sent = kept[place];
            if sent.is_undelivered() && sent.is_ready(self.all_held(), &kept[place + 1..]) {
                let first = self.next().wrapping_sub(kept.len() as u64);
                return Some(first.wrapping_add(place as u64));
            }
        }
        None
    }

    /// Counts a delivery, where the packet is kept and was not lost.
    fn counted(&mut self, index: u64) -> bool {
        let first = self.next().wrapping_sub(self.kept().len() as u64);
        if index < first || index < self.before {
            return false;
        }
        match self.sent.get_mut((index - self.before) as usize) {
            Some(sent) if !matches!(sent.lot, Lot::Lose) => {
                sent.delivered = sent.delivered.wrapping_add(1);
                true
            }
            _ => false,
        }
    }
}

fn lot_of(number: u64) -> Lot {
    match number % 8 {
        0 => Lot::Lose,
        1 => Lot::Repeat(1),
        2 => Lot::Repeat(2),
        3 => Lot::Hold(1),
        4 => Lot::Hold(3),
        _ => Lot::Pass,
    }
}

// Counts a delivery at the mailbox, where it lends the packet.
#[tactic(auto, using(crate::proofs::DeliveredLemmas::lent_is_countable, crate::proofs::DeliveredLemmas::most_after_delivery))]
fn counted(mailbox: &mut Mailbox, index: u64) -> bool
    requires { suc (most_delivered mailbox.old.envelopes) < 2 ^ 64 }
    ensures next { mailbox.new.next ≡ mailbox.old.next }
    ensures most { most_delivered mailbox.new.envelopes ≤ suc (most_delivered mailbox.old.envelopes) }
{
    match mailbox.lend(index) {
        Ok(_) => {
            mailbox.count(index);
            true
        }
        Err(_) => false,
    }
}

// What a send of the peer answers.
#[tactic(auto, using(crate::proofs::DeliveredLemmas::most_after_send))]
fn answer_of_send(mailbox: &mut Mailbox, lot: Lot, bytes: Bytes) -> Result<u64, SendError>
    requires { suc mailbox.old.next < 2 ^ 64 }
    ensures next { mailbox.new.next ≤ suc mailbox.old.next }
    ensures most { most_delivered mailbox.new.envelopes ≤ most_delivered mailbox.old.envelopes }
{
    match mailbox.send(PEER, 3, lot, bytes) {
        Ok(index) => Ok(index),
        Err(refused) => Err(refused),
    }
}

// Sends to both.
fn send<R: AllocGlobal + Abort>(
    rt: &R,
    mailbox: &mut Mailbox,
    plain: &mut Plain,
    lot: Lot,
) -> Result<(), Fail>
    requires { suc mailbox.old.next < 2 ^ 64 }
    ensures next { mailbox.new.next ≤ suc mailbox.old.next }
    ensures most { most_delivered mailbox.new.envelopes ≤ most_delivered mailbox.old.envelopes }
{
    let got = answer_of_send(mailbox, lot, Bytes::empty(rt.alloc()));
    if plain.has_room() {
        same(rt, got, Ok(plain.next()), "a drawn packet");
        plain.sent.push(Sent { lot, delivered: 0 })?;
        return Ok(());
    }
    same(
        rt,
        got,
        Err(SendError::NoRoom),
        "a drawn packet without room",
    );
    Ok(())
}

// One drawn call.
fn step<R: AllocGlobal + Abort>(
    rt: &R,
    mailbox: &mut Mailbox,
    plain: &mut Plain,
    drawn: (u32, u64),
) -> Result<(), Fail>
    requires next { suc mailbox.old.next < 2 ^ 64 }
    requires most { suc (most_delivered mailbox.old.envelopes) < 2 ^ 64 }
    ensures next { mailbox.new.next ≤ suc mailbox.old.next }
    ensures most { most_delivered mailbox.new.envelopes ≤ suc (most_delivered mailbox.old.envelopes) }
{
    let (which, number) = drawn;
    if which > 1 {
        return send(rt, mailbox, plain, lot_of(number));
    }
    if which == 1 && plain.sent.len() > 700 {
        mailbox.clear();
        plain.before = plain.next();
        plain.sent.clear();
        return Ok(());
    }
    let index = match mailbox.due() {
        Some(due) if which == 0 && plain.is_in_order() => due,
        _ => plain.next().wrapping_sub(number % 8),
    };
    let want = plain.counted(index);
    same(rt, counted(mailbox, index), want, "a drawn delivery");
    Ok(())
}

// What both say.
fn agree(rt: &impl Abort, mailbox: &Mailbox, plain: &Plain) {
    same(rt, mailbox.next_index(), plain.next(), "the next index");
    same(
        rt,
        mailbox.undelivered(),
        plain.undelivered(),
        "undelivered",
    );
    same(rt, mailbox.room(), plain.has_room(), "room");
    same(rt, mailbox.due(), plain.due(), "what is due");
}

#[test]
fn a_drawn_run_is_that_of_a_plain_list(rt: HostRuntime) -> Result<(), Fail> {
    let mut generator = Pcg32::new(5, 1);
    let mut mailbox = Mailbox::create(rt.alloc())?;
    mailbox.accept(3, Some(PEER));
    let mut plain = Plain {
        before: 0,
        sent: Vec::new(rt.alloc()),
    };
    for _ in 0..CALLS {
        step(&rt, &mut mailbox, &mut plain, draw(&mut generator))?;
        agree(&rt, &mailbox, &plain);
    }
    Ok(())
}
