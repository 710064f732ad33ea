use super::{entry, lines_are, mark_is, rows_are};
use crate::longest::{DOMAIN, KEY, LONG, QUEUE, WORD};
use crate::{RIGHTS, text_of};
use ca_base::{
    Bytes, Completion, Grant, Kind, OpRefusal, Run, Runs, Verdict, WcOp, WcStatus, WindowError,
};
use ca_model::{Event, Mark};
use std::test::Fail;

/// The lines of the longest marks.
const LINES: &str =
    " remote 255/4294967295 255/255 18446744073709551615 0xffffffff write 0xffffffffffffffff 4294967295 found 18446744073709551615 put 18446744073709551615
 local 255/4294967295 255/255 0xffffffff write 0xffffffffffffffff 4294967295 found 18446744073709551615 put 18446744073709551615
 arrived 255/4294967295 18446744073709551615
 done 255/4294967295 send 18446744073709551615 18446744073709551615 fetch-add remote-invalid-request 4294967295 4294967295 0xffffffff window:rights-need-local-write";

const MARKS: [Mark; 4] = [
    Mark::Remote {
        queue: QUEUE,
        domain: DOMAIN,
        envelope: Some(LONG),
        key: KEY,
        kind: Kind::Write,
        address: LONG,
        length: WORD,
        verdict: Verdict::Swapped {
            found: LONG,
            put: LONG,
        },
    },
    Mark::Local {
        queue: QUEUE,
        domain: DOMAIN,
        key: KEY,
        kind: Kind::Write,
        address: LONG,
        length: WORD,
        verdict: Verdict::Swapped {
            found: LONG,
            put: LONG,
        },
    },
    Mark::Arrived {
        target: QUEUE,
        index: Some(LONG),
    },
    Mark::Done {
        queue: QUEUE,
        completion: Completion {
            id: LONG,
            queue: QUEUE,
            receive: false,
            place: LONG,
            status: WcStatus::RemoteInvalidRequest,
            op: WcOp::FetchAdd,
            bytes: WORD,
            imm: Some(WORD),
            invalidated: Some(KEY),
        },
        cause: Some(OpRefusal::Window(WindowError::RightsNeedLocalWrite)),
    },
];

#[test]
fn the_longest_marks_print(rt: HostRuntime) -> Result<(), Fail> {
    rows_are(&rt, MARKS.as_slice(), LINES)
}

const RUN: Run = Run {
    adapter: 255,
    buffer: 65_535,
    offset: WORD,
    length: WORD,
};

fn grant(runs: Runs) -> Grant {
    Grant {
        key: KEY,
        domain: DOMAIN,
        queue: Some(QUEUE),
        local: false,
        address: LONG,
        length: WORD,
        rights: RIGHTS,
        runs,
    }
}

#[test]
fn the_longest_grant_prints(rt: HostRuntime) -> Result<(), Fail> {
    let grant = grant(Runs::copy_of(rt.alloc(), [RUN, RUN].as_slice())?);
    let line =
        " granted 255/255 0xffffffff window 255/4294967295 0xffffffffffffffff 4294967295 lrwab 255/65535:4294967295+4294967295,255/65535:4294967295+4294967295";
    mark_is(&rt, Mark::Granted(grant), line)
}

#[test]
fn the_longest_packet_prints(rt: HostRuntime) -> Result<(), Fail> {
    let bytes = Bytes::copy_of(rt.alloc(), b"\xff".as_slice())?;
    let sent = Mark::Sent {
        source: QUEUE,
        target: QUEUE,
        index: Some(LONG),
        request: Some(LONG),
        bytes,
    };
    let line = " sent 255/4294967295 255/4294967295 18446744073709551615 18446744073709551615 ff";
    mark_is(&rt, sent, line)
}

#[test]
fn the_longest_turn_prints(rt: HostRuntime) -> Result<(), Fail> {
    let turn = Event::Deliver {
        queue: QUEUE,
        index: LONG,
    };
    let text = text_of(rt.alloc(), entry(rt.alloc(), LONG, WORD, turn))?;
    let line = "@18446744073709551615 p4294967295 deliver 255/4294967295 18446744073709551615";
    lines_are(&rt, text.as_slice(), line);
    Ok(())
}
