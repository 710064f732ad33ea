use ca_outside::{FreeGate, Gate, SureSink, SureSource};
use ca_run::{exit_code, run};
use std::alloc::Global;
use std::process::Abort;
use std::sync::Wait;
use std::sync::atomic::{AtomicU64, Ordering};
use std::test::Fail;
use std::thread::{Threads, yield_now};

/// Two consumers at two adapters. A SEND, an RDMA WRITE and an RDMA READ of five bytes and a fetch and add go from the first to
/// the second, once both are ready.
const PAIR: &str = "adapters 2
buffer 0 4096
buffer 1 4096
c0 pd 0/0
c0 cq 0/0/0 16
c0 reg 0/0/0 0 0 4096 l
c0 qp 0/0/0 0 0 4 4 -
c0 init 0/0/0
c0 rtr 0/0/0 1/256 1 0 1024 12
c0 rts 0/0/0 0 7 7 16
c0 store 0/0 0 68656c6c6f
c1 pd 1/0
c1 cq 1/0/0 16
c1 reg 1/0/0 0 0 4096 lrwa
c1 qp 1/0/0 0 0 4 4 -
c1 init 1/0/0
c1 recv 1/0/0 100 0x1:0x100000000:64
c1 rtr 1/0/0 0/256 1 0 1024 12
c1 rts 1/0/0 0 7 7 16
c0 at 16
c0 post 0/0/0 1 s send 0x1:0x100000000:5
c0 wait 0/0/0 1
c0 post 0/0/0 2 s write 0x100000100 0x1 0x1:0x100000000:5
c0 wait 0/0/0 1
c0 post 0/0/0 3 s read 0x100000100 0x1 0x1:0x100000040:5
c0 wait 0/0/0 1
c0 load 0/0 64 5
c1 wait 1/0/0 1
c1 load 1/0 0 5
";

/// Four consumers, each with a domain of its own, who store and load.
const FOUR: &str = "buffer 0 4096
c0 pd 0/0
c0 store 0/0 0 00
c0 load 0/0 0 1
c1 pd 0/1
c1 store 0/0 1 01
c1 load 0/0 1 1
c2 pd 0/2
c2 store 0/0 2 02
c2 load 0/0 2 1
c3 pd 0/3
c3 store 0/0 3 03
c3 load 0/0 3 1
";

/// How many entries the four make.
const ENTRIES: u64 = 12;

/// What the two loads answer, whatever the order.
const LOADED: [&str; 2] = [
    " c0 load 0/0 64 5 -> bytes 68656c6c6f\n",
    " c1 load 1/0 0 5 -> bytes 68656c6c6f\n",
];

/// How many bytes an output may have here.
const ROOM: usize = 100_000;

/// How often the gate asks whether the other worker has come.
const TURNS: u32 = 1_000_000_000;

/// A gate that lets the first call of worker 0 through when a call of worker 1 was answered.
#[derive(Drop)]
struct LaterFirst<'a> {
    answered: &'a AtomicU64,
}

impl Gate for LaterFirst<'_> {
    fn at(&self, worker: u32, step: u64) {
        if worker == 1 && step > 0 {
            self.answered.store(1, Ordering::SeqCst);
        }
        if worker == 0 && step == 0 {
            for _ in 0..TURNS {
                if self.answered.load(Ordering::SeqCst) > 0 {
                    return;
                }
                yield_now();
            }
        }
    }
}

/// A gate that counts the calls of each of four workers, and notes whether one came out of its turn.
#[derive(Drop)]
struct Counting<'a> {
    first: &'a AtomicU64,
    second: &'a AtomicU64,
    third: &'a AtomicU64,
    fourth: &'a AtomicU64,
    wrong: &'a AtomicU64,
}

impl Gate for Counting<'_> {
    fn at(&self, worker: u32, step: u64) {
        let in_turn = match worker {
            0 => self.first.fetch_add(1, Ordering::SeqCst) == step,
            1 => self.second.fetch_add(1, Ordering::SeqCst) == step,
            2 => self.third.fetch_add(1, Ordering::SeqCst) == step,
            3 => self.fourth.fetch_add(1, Ordering::SeqCst) == step,
            _ => false,
        };
        if !in_turn {
            self.wrong.store(1, Ordering::SeqCst);
        }
    }
}

// The output of a script, raced with so many workers; None where it is not fine.
fn raced<R: Threads + Wait + Sync, G: Gate + Sync>(
    rt: &R,
    alloc: Global,
    script: &str,
    workers: &str,
    gate: &G,
) -> Option<String> {
    let mut words = Vec::new(alloc);
    words.push(String::from_str(alloc, "race").ok()?).ok()?;
    words.push(String::from_str(alloc, "--workers").ok()?).ok()?;
    words.push(String::from_str(alloc, workers).ok()?).ok()?;
    let mut source = SureSource::new(Vec::from_slice(alloc, script.as_bytes()).ok()?);
    let mut sink = SureSink::new(alloc, ROOM).ok()?;
    let status = run(rt, alloc, words.as_slice(), &mut source, &mut sink, gate);
    if exit_code(&status) != 0 {
        return None;
    }
    text_of(alloc, sink.taken())
}

// These bytes as a text.
fn text_of(alloc: Global, bytes: &[u8]) -> Option<String> {
    String::from_str(alloc, str::from_utf8(bytes).ok()?).ok()
}

// Whether both loads answered what they have to.
fn is_loaded(text: &str) -> bool {
    text.contains(LOADED[0]) && text.contains(LOADED[1])
}

#[test]
fn a_race_comes_to_the_same_bytes_with_any_number_of_workers(rt: HostRuntime) -> Result<(), Fail> {
    for workers in ["1", "2", "4", "16"].as_slice() {
        let loaded = match raced(&rt, rt.alloc(), PAIR, workers, &FreeGate) {
            Some(text) => is_loaded(&text),
            None => false,
        };
        assert!(rt; loaded);
    }
    Ok(())
}

#[test]
fn a_race_is_worked_by_several_threads(rt: HostRuntime) -> Result<(), Fail> {
    let answered = AtomicU64::new(0);
    let gate = LaterFirst {
        answered: &answered,
    };
    let loaded = match raced(&rt, rt.alloc(), PAIR, "2", &gate) {
        Some(text) => is_loaded(&text),
        None => false,
    };
    assert!(rt; loaded);
    assert!(rt; answered.load(Ordering::SeqCst) == 1);
    Ok(())
}

#[test]
fn the_gate_is_asked_at_each_step_of_each_worker(rt: HostRuntime) -> Result<(), Fail> {
    let first = AtomicU64::new(0);
    let second = AtomicU64::new(0);
    let third = AtomicU64::new(0);
    let fourth = AtomicU64::new(0);
    let wrong = AtomicU64::new(0);
    let gate = Counting {
        first: &first,
        second: &second,
        third: &third,
        fourth: &fourth,
        wrong: &wrong,
    };
    let fine = raced(&rt, rt.alloc(), FOUR, "4", &gate).is_some();
    assert!(rt; fine);
    assert!(rt; wrong.load(Ordering::SeqCst) == 0);
    let calls: [u64; 4] = [
        first.load(Ordering::SeqCst),
        second.load(Ordering::SeqCst),
        third.load(Ordering::SeqCst),
        fourth.load(Ordering::SeqCst),
    ];
    let mut all: u64 = 0;
    for asked in calls.as_slice() {
        assert!(rt; *asked > 0);
        all = all.saturating_add(*asked);
    }
    assert!(rt; all >= ENTRIES);
    Ok(())
}
