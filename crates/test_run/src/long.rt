use ca_outside::{FreeGate, SureSink, SureSource};
use ca_run::{Status, run};
use std::alloc::Global;
use std::process::Abort;
use std::sync::Wait;
use std::test::Fail;
use std::thread::Threads;

/// How many of the first's packets the weather repeats, as often as it can.
const REPEATED: u32 = 200;

/// The most events of a script.
const EVENTS: u64 = 131_072;

/// How many bytes an output may have here.
const ROOM: usize = 1 << 27;

const ADAPTERS: &str = "adapters 2
buffer 0 4096
buffer 1 4096
";

/// Two queue pairs of one consumer, connected.
const SETUP: &str = "c0 pd 0/0
c0 cq 0/0/0 16
c0 reg 0/0/0 0 0 4096 l
c0 qp 0/0/0 0 0 4 4 -
c0 init 0/0/0
c0 pd 1/0
c0 cq 1/0/0 16
c0 reg 1/0/0 0 0 4096 lrwa
c0 qp 1/0/0 0 0 4 4 -
c0 init 1/0/0
c0 rtr 0/0/0 1/256 1 0 1024 12
c0 rtr 1/0/0 0/256 1 0 1024 12
c0 rts 0/0/0 0 7 7 16
c0 store 0/0 0 68656c6c6f
";

/// An RDMA WRITE of five bytes, and its completion.
const WRITE: &str = "c0 post 0/0/0 1 s write 0x100000100 0x1 0x1:0x100000000:5
c0 wait 0/0/0 1
";

// A script whose events are spent before its lines are at their end: each of its packets comes 256 times.
fn long_script(alloc: Global) -> Option<String> {
    let mut text = String::from_str(alloc, ADAPTERS).ok()?;
    for index in 0..REPEATED {
        let line = format!(in alloc; "weather repeat 1/256 {index} 255\n").ok()?;
        text.push_str(&line).ok()?;
    }
    text.push_str(SETUP).ok()?;
    for _ in 0..REPEATED {
        text.push_str(WRITE).ok()?;
    }
    Some(text)
}

/// How a run ended, and what it wrote.
#[derive(Drop)]
struct Ending {
    status: Status,
    output: Vec<u8>,
}

// The ending of the long script under these words; None where there is no memory for it.
fn ending_under<R: Threads + Wait + Sync>(rt: &R, alloc: Global, words: &[&str]) -> Option<Ending> {
    let mut given = Vec::new(alloc);
    for word in words {
        given.push(String::from_str(alloc, word).ok()?).ok()?;
    }
    let script = long_script(alloc)?;
    let mut source = SureSource::new(Vec::from_slice(alloc, script.as_bytes()).ok()?);
    let mut sink = SureSink::new(alloc, ROOM).ok()?;
    let status = run(
        rt,
        alloc,
        given.as_slice(),
        &mut source,
        &mut sink,
        &FreeGate,
    );
    let output = Vec::from_slice(alloc, sink.taken()).ok()?;
    Some(Ending { status, output })
}

// Whether the run spent its events.
fn is_spent(ending: &Option<Ending>) -> bool {
    match ending {
        Some(Ending { status, .. }) => matches!(status, Status::BudgetSpent(EVENTS)),
        None => false,
    }
}

// How many bytes the run wrote.
fn written(ending: &Option<Ending>) -> usize {
    match ending {
        Some(Ending { output, .. }) => output.len(),
        None => 0,
    }
}

#[test]
fn a_script_of_as_many_events_as_there_may_be_ends_with_them(rt: HostRuntime) -> Result<(), Fail> {
    let worked = ending_under(&rt, rt.alloc(), &["script"]);
    assert!(rt; is_spent(&worked));
    assert!(rt; written(&worked) > 1_000_000);
    Ok(())
}

#[test]
fn so_does_the_lone_run_of_a_group(rt: HostRuntime) -> Result<(), Fail> {
    let worked = ending_under(&rt, rt.alloc(), &["alone", "--group", "0/0,1/0"]);
    assert!(rt; is_spent(&worked));
    assert!(rt; written(&worked) > 2_000_000);
    Ok(())
}
