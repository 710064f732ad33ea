use super::{mark_is, mark_text, rows_are};
use crate::{HERE, OTHER_QUEUE, QUEUE, Row, THERE};
use ca_base::{
    Bytes, Denial, DomainId, Grant, Key, Kind, Memory, Place, QueueId, Rights, Run, Runs, Verdict,
};
use ca_model::{Drop1, Mark};
use ca_wire::WireError;
use std::alloc::Global;
use std::test::Fail;

/// The lines of marks that hold no list.
const LINES: &str = " revoked 0 0x00800001
 remote 1/256 1/0 - 0x00000001 add 0x100000400 8 found 0 put 5
 remote 0/768 0/2 1 0x02000101 cas 0x100000c60 8 found 0 put 0
 remote 0/512 0/1 0 0x01000307 read 0x19fd 4 denied no-grant
 remote 1/257 1/0 0 0x00800009 write 0x100000000 1 denied wrong-queue
 remote 1/258 1/0 2 0x00000001 add 0x1000004d0 8 denied no-right
 remote 1/256 1/0 - 0x00000001 write 0x1ff000000 1 denied out-of-range
 local 0/256 0/0 0x00000001 read 0x0 39 denied out-of-range
 local 0/512 0/1 0x01000101 write 0x20000cc71 256 denied no-right
 lost 0/257 -
 lost 0/256 0
 arrived 0/256 -
 arrived 1/256 0
 dropped 0/512 partition
 dropped 1/256 queue
 dropped 0/256 stale
 dropped 1/256 state
 dropped 1/256 unsaved
 dropped 1/256 wire:length
 dropped 1/256 wire:opcode
 dropped 1/256 wire:pad
 dropped 1/256 wire:too-short
 dropped 1/256 wire:version
 timer 0/256 silent
 timer 1/512 hasten";

const MARKS: [Mark; 25] = [
    Mark::Revoked {
        adapter: 0,
        key: Key(0x00800001),
    },
    Mark::Remote {
        queue: OTHER_QUEUE,
        domain: THERE,
        envelope: None,
        key: Key(0x00000001),
        kind: Kind::FetchAdd,
        address: 0x100000400,
        length: 8,
        verdict: Verdict::Swapped { found: 0, put: 5 },
    },
    Mark::Remote {
        queue: QueueId {
            adapter: 0,
            number: 768,
        },
        domain: DomainId {
            adapter: 0,
            domain: 2,
        },
        envelope: Some(1),
        key: Key(0x02000101),
        kind: Kind::CmpSwap,
        address: 0x100000c60,
        length: 8,
        verdict: Verdict::Swapped { found: 0, put: 0 },
    },
    Mark::Remote {
        queue: QueueId {
            adapter: 0,
            number: 512,
        },
        domain: DomainId {
            adapter: 0,
            domain: 1,
        },
        envelope: Some(0),
        key: Key(0x01000307),
        kind: Kind::Read,
        address: 0x19fd,
        length: 4,
        verdict: Verdict::Denied(Denial::NoGrant),
    },
    Mark::Remote {
        queue: QueueId {
            adapter: 1,
            number: 257,
        },
        domain: THERE,
        envelope: Some(0),
        key: Key(0x00800009),
        kind: Kind::Write,
        address: 0x100000000,
        length: 1,
        verdict: Verdict::Denied(Denial::WrongQueue),
    },
    Mark::Remote {
        queue: QueueId {
            adapter: 1,
            number: 258,
        },
        domain: THERE,
        envelope: Some(2),
        key: Key(0x00000001),
        kind: Kind::FetchAdd,
        address: 0x1000004d0,
        length: 8,
        verdict: Verdict::Denied(Denial::NoRight),
    },
    Mark::Remote {
        queue: OTHER_QUEUE,
        domain: THERE,
        envelope: None,
        key: Key(0x00000001),
        kind: Kind::Write,
        address: 0x1ff000000,
        length: 1,
        verdict: Verdict::Denied(Denial::OutOfRange),
    },
    Mark::Local {
        queue: QUEUE,
        domain: HERE,
        key: Key(0x00000001),
        kind: Kind::Read,
        address: 0x0,
        length: 39,
        verdict: Verdict::Denied(Denial::OutOfRange),
    },
    Mark::Local {
        queue: QueueId {
            adapter: 0,
            number: 512,
        },
        domain: DomainId {
            adapter: 0,
            domain: 1,
        },
        key: Key(0x01000101),
        kind: Kind::Write,
        address: 0x20000cc71,
        length: 256,
        verdict: Verdict::Denied(Denial::NoRight),
    },
    Mark::Lost {
        target: QueueId {
            adapter: 0,
            number: 257,
        },
        index: None,
    },
    Mark::Lost {
        target: QUEUE,
        index: Some(0),
    },
    Mark::Arrived {
        target: QUEUE,
        index: None,
    },
    Mark::Arrived {
        target: OTHER_QUEUE,
        index: Some(0),
    },
    Mark::Dropped {
        target: QueueId {
            adapter: 0,
            number: 512,
        },
        cause: Drop1::Partition,
    },
    Mark::Dropped {
        target: OTHER_QUEUE,
        cause: Drop1::Queue,
    },
    Mark::Dropped {
        target: QUEUE,
        cause: Drop1::Stale,
    },
    Mark::Dropped {
        target: OTHER_QUEUE,
        cause: Drop1::State,
    },
    Mark::Dropped {
        target: OTHER_QUEUE,
        cause: Drop1::Unsaved,
    },
    Mark::Dropped {
        target: OTHER_QUEUE,
        cause: Drop1::Wire(WireError::Length),
    },
    Mark::Dropped {
        target: OTHER_QUEUE,
        cause: Drop1::Wire(WireError::Opcode),
    },
    Mark::Dropped {
        target: OTHER_QUEUE,
        cause: Drop1::Wire(WireError::Pad),
    },
    Mark::Dropped {
        target: OTHER_QUEUE,
        cause: Drop1::Wire(WireError::TooShort),
    },
    Mark::Dropped {
        target: OTHER_QUEUE,
        cause: Drop1::Wire(WireError::Version),
    },
    Mark::Timer {
        queue: QUEUE,
        silent: true,
    },
    Mark::Timer {
        queue: QueueId {
            adapter: 1,
            number: 512,
        },
        silent: false,
    },
];

#[test]
fn marks_without_lists_print(rt: HostRuntime) -> Result<(), Fail> {
    rows_are(&rt, MARKS.as_slice(), LINES)
}

/// The lines of grants.
const GRANTED: &str = " granted 0/0 0x00000107 region any 0xffa 12 lrwab 0/0:16378+6,0/0:4096+6
 granted 0/0 0x00000001 region any 0x200000000 35000 - 0/1:0+35000
 granted 0/0 0x00800001 window any 0x100000000 64 w 0/0:0+64
 granted 0/0 0x00800009 window 0/256 0x100000000 64 w 0/0:0+64";

/// The key, whether it is an L_Key, for which queue pair, the address, the length, the rights and the runs.
type GrantRow = (Key, bool, Option<QueueId>, u64, u32, Rights, &'static [Run]);

const GRANTS: &[GrantRow] = &[
    (
        Key(0x00000107),
        true,
        None,
        0xffa,
        12,
        Rights {
            local_write: true,
            remote_read: true,
            remote_write: true,
            remote_atomic: true,
            window_bind: true,
        },
        &[
            Run {
                adapter: 0,
                buffer: 0,
                offset: 16378,
                length: 6,
            },
            Run {
                adapter: 0,
                buffer: 0,
                offset: 4096,
                length: 6,
            },
        ],
    ),
    (
        Key(0x00000001),
        true,
        None,
        0x200000000,
        35000,
        Rights {
            local_write: false,
            remote_read: false,
            remote_write: false,
            remote_atomic: false,
            window_bind: false,
        },
        &[Run {
            adapter: 0,
            buffer: 1,
            offset: 0,
            length: 35000,
        }],
    ),
    (
        Key(0x00800001),
        false,
        None,
        0x100000000,
        64,
        Rights {
            local_write: false,
            remote_read: false,
            remote_write: true,
            remote_atomic: false,
            window_bind: false,
        },
        &[Run {
            adapter: 0,
            buffer: 0,
            offset: 0,
            length: 64,
        }],
    ),
    (
        Key(0x00800009),
        false,
        Some(QUEUE),
        0x100000000,
        64,
        Rights {
            local_write: false,
            remote_read: false,
            remote_write: true,
            remote_atomic: false,
            window_bind: false,
        },
        &[Run {
            adapter: 0,
            buffer: 0,
            offset: 0,
            length: 64,
        }],
    ),
];

fn grant_of(alloc: Global, row: &GrantRow) -> Result<Mark, Memory> {
    let (key, local, queue, address, length, rights, runs) = *row;
    let runs = Runs::copy_of(alloc, runs)?;
    Ok(Mark::Granted(Grant {
        key,
        domain: HERE,
        queue,
        local,
        address,
        length,
        rights,
        runs,
    }))
}

impl Row for GrantRow {
    fn text(&self, alloc: Global) -> Result<Vec<u8>, Memory> {
        let mark = grant_of(alloc, self)?;
        mark_text(alloc, mark)
    }
}

#[test]
fn grants_print_their_runs(rt: HostRuntime) -> Result<(), Fail> {
    rows_are(&rt, GRANTS, GRANTED)
}

/// The lines of packets that were sent.
const SENT: &str = " sent 0/256 0/257 - - 1100ffff000001010000000062000000
 sent 3/256 1/256 - 0 0400ffff0000010080fffffe
 sent 1/256 0/256 1 - 1100ffff000001000000000162000001
 sent 0/769 0/768 0 0 0400ffff0000030080000000";

/// The source, the target, the index, the posting place and the bytes.
type Packet = (QueueId, QueueId, Option<u64>, Option<u64>, &'static [u8]);

const PACKETS: &[Packet] = &[
    (
        QUEUE,
        QueueId {
            adapter: 0,
            number: 257,
        },
        None,
        None,
        b"\x11\x00\xff\xff\x00\x00\x01\x01\x00\x00\x00\x00\x62\x00\x00\x00",
    ),
    (
        QueueId {
            adapter: 3,
            number: 256,
        },
        OTHER_QUEUE,
        None,
        Some(0),
        b"\x04\x00\xff\xff\x00\x00\x01\x00\x80\xff\xff\xfe",
    ),
    (
        OTHER_QUEUE,
        QUEUE,
        Some(1),
        None,
        b"\x11\x00\xff\xff\x00\x00\x01\x00\x00\x00\x00\x01\x62\x00\x00\x01",
    ),
    (
        QueueId {
            adapter: 0,
            number: 769,
        },
        QueueId {
            adapter: 0,
            number: 768,
        },
        Some(0),
        Some(0),
        b"\x04\x00\xff\xff\x00\x00\x03\x00\x80\x00\x00\x00",
    ),
];

fn packet_of(alloc: Global, row: &Packet) -> Result<Mark, Memory> {
    let (source, target, index, request, bytes) = *row;
    let bytes = Bytes::copy_of(alloc, bytes)?;
    Ok(Mark::Sent {
        source,
        target,
        index,
        request,
        bytes,
    })
}

impl Row for Packet {
    fn text(&self, alloc: Global) -> Result<Vec<u8>, Memory> {
        let mark = packet_of(alloc, self)?;
        mark_text(alloc, mark)
    }
}

#[test]
fn packets_print_their_bytes(rt: HostRuntime) -> Result<(), Fail> {
    rows_are(&rt, PACKETS, SENT)
}

/// The lines of packets that read or wrote.
const REACHED: &str = " remote 0/256 0/0 0 0x00000001 read 0x1000010f7 1 read 00
 remote 0/257 0/0 1 0x00000001 read 0x100002e63 0 read -
 remote 0/256 0/0 - 0x00000001 write 0x100000000 1 wrote ab
 remote 1/256 1/0 0 0xdeadbeef write 0x0 0 wrote -";

/// The queue pair, the domain, the envelope, the key, the kind, the address, the length and the bytes.
type Access = (
    QueueId,
    DomainId,
    Option<u64>,
    Key,
    Kind,
    u64,
    u32,
    &'static [u8],
);

const ACCESSES: &[Access] = &[
    (
        QUEUE,
        HERE,
        Some(0),
        Key(0x00000001),
        Kind::Read,
        0x1000010f7,
        1,
        b"\x00",
    ),
    (
        QueueId {
            adapter: 0,
            number: 257,
        },
        HERE,
        Some(1),
        Key(0x00000001),
        Kind::Read,
        0x100002e63,
        0,
        b"",
    ),
    (
        QUEUE,
        HERE,
        None,
        Key(0x00000001),
        Kind::Write,
        0x100000000,
        1,
        b"\xab",
    ),
    (
        OTHER_QUEUE,
        THERE,
        Some(0),
        Key(0xdeadbeef),
        Kind::Write,
        0x0,
        0,
        b"",
    ),
];

fn verdict_of(kind: Kind, bytes: Bytes) -> Verdict {
    match kind {
        Kind::Read => Verdict::Read(bytes),
        _ => Verdict::Wrote(bytes),
    }
}

fn access_of(alloc: Global, row: &Access) -> Result<Mark, Memory> {
    let (queue, domain, envelope, key, kind, address, length, bytes) = *row;
    let verdict = verdict_of(kind, Bytes::copy_of(alloc, bytes)?);
    Ok(Mark::Remote {
        queue,
        domain,
        envelope,
        key,
        kind,
        address,
        length,
        verdict,
    })
}

impl Row for Access {
    fn text(&self, alloc: Global) -> Result<Vec<u8>, Memory> {
        let mark = access_of(alloc, self)?;
        mark_text(alloc, mark)
    }
}

#[test]
fn accesses_by_packets_print_their_bytes(rt: HostRuntime) -> Result<(), Fail> {
    rows_are(&rt, ACCESSES, REACHED)
}

fn list_read(bytes: Bytes) -> Mark {
    Mark::Local {
        queue: QUEUE,
        domain: HERE,
        key: Key(1),
        kind: Kind::Read,
        address: 0x1_0000_0000,
        length: 1,
        verdict: Verdict::Read(bytes),
    }
}

fn store(bytes: Bytes) -> Mark {
    let place = Place {
        adapter: 0,
        buffer: 0,
        offset: 0,
    };
    Mark::Stored { place, bytes }
}

#[test]
fn accesses_by_lists_and_stores_print_their_bytes(rt: HostRuntime) -> Result<(), Fail> {
    let read = list_read(Bytes::copy_of(rt.alloc(), b"\x00".as_slice())?);
    let line = " local 0/256 0/0 0x00000001 read 0x100000000 1 read 00";
    mark_is(&rt, read, line)?;
    let stored = store(Bytes::copy_of(rt.alloc(), b"\xab".as_slice())?);
    mark_is(&rt, stored, " stored 0/0 0 ab")
}
