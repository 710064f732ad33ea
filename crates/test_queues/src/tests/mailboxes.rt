ghost use Rattle.std.specs.Prelude.{◌≡◌, ◌<◌, ◌≤◌, ◌^◌, suc, not, IsTrue, IfOk};
ghost use Rattle.ca_base.specs.objects.Mailbox.{is_lost};

use super::same;
use ca_base::{Bytes, Lot, QueueId};
use ca_mailbox::{Mailbox, NotKept, SendError};
use std::process::Abort;
use std::test::Fail;

const BYTES: [u8; 3] = [4, 0, 255];

const PEER: (QueueId, u32) = (
    QueueId {
        adapter: 1,
        number: 256,
    },
    5,
);

const OTHER: (QueueId, u32) = (
    QueueId {
        adapter: 1,
        number: 257,
    },
    5,
);

// A mailbox whose owner is in incarnation 3 and accepts the peer.
fn opened<R: AllocGlobal>(rt: &R) -> Result<Mailbox, Fail>
    ensures { IfOk result (λ m. m.next ≡ 0) }
{
    let mut mailbox = Mailbox::create(rt.alloc())?;
    mailbox.accept(3, Some(PEER));
    Ok(mailbox)
}

// What a send of the peer answers.
fn sent<R: AllocGlobal>(
    rt: &R,
    mailbox: &mut Mailbox,
    lot: Lot,
) -> Result<Result<u64, SendError>, Fail>
    requires { suc mailbox.old.next < 2 ^ 64 }
    ensures { mailbox.new.next ≤ suc mailbox.old.next }
{
    let bytes = Bytes::copy_of(rt.alloc(), BYTES.as_slice())?;
    Ok(mailbox.send(PEER, 3, lot, bytes))
}

// Sends a packet that is not lost, and counts one delivery.
fn deliver<R: AllocGlobal>(rt: &R, mailbox: &mut Mailbox, lot: Lot) -> Result<(), Fail>
    requires next { suc mailbox.old.next < 2 ^ 64 }
    requires lot { IsTrue (not (is_lost lot)) }
    ensures { mailbox.new.next ≤ suc mailbox.old.next }
{
    let bytes = Bytes::copy_of(rt.alloc(), BYTES.as_slice())?;
    if let Ok(index) = mailbox.send(PEER, 3, lot, bytes) {
        mailbox.count(index);
    }
    Ok(())
}

#[test]
fn only_the_named_peer_passes(rt: HostRuntime) -> Result<(), Fail> {
    let mut mailbox = opened(&rt)?;
    same(&rt, mailbox.passes(PEER, 3), true, "the peer");
    same(&rt, mailbox.passes(OTHER, 3), false, "another queue pair");
    same(
        &rt,
        mailbox.passes((PEER.0, 4), 3),
        false,
        "another incarnation of the peer",
    );
    same(
        &rt,
        mailbox.passes(PEER, 2),
        false,
        "another incarnation of the owner",
    );
    let bytes = Bytes::copy_of(rt.alloc(), BYTES.as_slice())?;
    let refused = mailbox.send(OTHER, 3, Lot::Pass, bytes);
    same(
        &rt,
        refused,
        Err(SendError::NoPath),
        "a packet of another queue pair",
    );
    same(&rt, mailbox.next_index(), 0, "it takes no room");
    Ok(())
}

#[test]
fn a_128th_packet_has_room_and_the_next_has_none(rt: HostRuntime) -> Result<(), Fail> {
    let mut mailbox = opened(&rt)?;
    for index in 0..128 {
        same(&rt, mailbox.room(), true, "room");
        same(
            &rt,
            sent(&rt, &mut mailbox, Lot::Pass)?,
            Ok(index),
            "a packet",
        );
    }
    same(&rt, mailbox.undelivered(), 128, "undelivered");
    same(&rt, mailbox.room(), false, "no room");
    same(
        &rt,
        sent(&rt, &mut mailbox, Lot::Pass)?,
        Err(SendError::NoRoom),
        "one more",
    );
    mailbox.clear();
    same(&rt, mailbox.due(), None, "cleared");
    same(
        &rt,
        sent(&rt, &mut mailbox, Lot::Pass)?,
        Ok(128),
        "indices go on",
    );
    Ok(())
}

#[test]
fn an_envelope_is_kept_until_256_later_ones(rt: HostRuntime) -> Result<(), Fail> {
    let mut mailbox = opened(&rt)?;
    for _ in 0..256u64 {
        deliver(&rt, &mut mailbox, Lot::Pass)?;
    }
    same(
        &rt,
        mailbox.lend(0),
        Ok(BYTES.as_slice()),
        "255 places back",
    );
    deliver(&rt, &mut mailbox, Lot::Pass)?;
    same(&rt, mailbox.lend(0), Err(NotKept), "256 places back");
    same(&rt, mailbox.lend(1), Ok(BYTES.as_slice()), "the next one");
    same(&rt, mailbox.lend(257), Err(NotKept), "not sent yet");
    same(&rt, mailbox.due(), None, "all are delivered");
    Ok(())
}

#[test]
fn a_held_packet_waits_for_later_ones(rt: HostRuntime) -> Result<(), Fail> {
    let mut mailbox = opened(&rt)?;
    same(
        &rt,
        sent(&rt, &mut mailbox, Lot::Hold(1))?,
        Ok(0),
        "a held packet",
    );
    same(&rt, mailbox.due(), Some(0), "only held ones are left");
    same(
        &rt,
        sent(&rt, &mut mailbox, Lot::Lose)?,
        Ok(1),
        "a lost packet",
    );
    same(&rt, mailbox.lend(1), Err(NotKept), "a lost packet");
    same(&rt, mailbox.due(), Some(0), "a lost one is not undelivered");
    same(
        &rt,
        sent(&rt, &mut mailbox, Lot::Pass)?,
        Ok(2),
        "a later packet",
    );
    same(&rt, mailbox.due(), Some(2), "the held one waits");
    deliver(&rt, &mut mailbox, Lot::Repeat(1))?;
    same(&rt, mailbox.due(), Some(0), "a later one was delivered");
    same(
        &rt,
        mailbox.undelivered(),
        3,
        "a repeated packet wants two deliveries",
    );
    Ok(())
}
