ghost use Rattle.test_fixture_fabric.specs.ca_verbs.Passes.{IsOf};

use arrayvec::ArrayVec;
use ca_base::{AdapterConfig, Config};
use std::alloc::Global;
use std::process::Abort;
use test_fixture_fabric::ca_verbs::{CloseError, Fabric, Pass};

// The bytes of each buffer.
pub(super) const BUFFER_BYTES: u32 = 64;

// An adapter of this many buffers and domains, each with so many completion queues and queue pairs.
fn adapter(buffers: u8, domains: u8, slots: u16) -> AdapterConfig {
    let mut adapter = AdapterConfig {
        buffers: ArrayVec::new(),
        domains,
        regions: 1,
        windows: 0,
        cqs: slots,
        srqs: 0,
        qps: slots,
    };
    for _ in 0..buffers {
        let _fits = adapter.buffers.try_push(BUFFER_BYTES);
    }
    adapter
}

// Adapter 0 has four domains of one queue pair each, and four buffers; adapter 1 has one domain of four queue pairs, and one
// buffer.
pub(super) fn config(events: u32) -> Config {
    let mut adapters = ArrayVec::new();
    let _fits = adapters.try_push(adapter(4, 4, 1));
    let _fits = adapters.try_push(adapter(1, 1, 4));
    Config { adapters, events }
}

// What was counted is what is wanted.
pub(super) fn is(rt: &impl Abort, what: &str, got: Option<u64>, want: u64) {
    assert!(rt; got == Some(want), "{what}");
}

// A verb was made.
pub(super) fn is_made(rt: &impl Abort, made: bool) {
    assert!(rt; made, "a verb is made");
}

// A fabric that starts, and its first pass.
pub(super) fn started(rt: &impl Abort, alloc: Global, config: Config) -> (Fabric, Pass)
    ensures { IsOf result.0 result.1 }
{
    match Fabric::start(alloc, config) {
        Ok(both) => both,
        Err(_) => panic!(rt; "the fabric starts"),
    }
}

// The upper half of a pass that has two numbers left.
pub(super) fn upper_half(rt: &impl Abort, fabric: &Fabric, pass: &mut Pass) -> Pass
    requires { IsOf fabric.now pass.old }
    ensures { IsOf fabric.now pass.new × IsOf fabric.now result }
{
    match fabric.split(pass) {
        Ok(upper) => upper,
        Err(_) => panic!(rt; "two numbers are left"),
    }
}

// Joins a pass to another.
pub(super) fn join_to(rt: &impl Abort, fabric: &Fabric, into: &mut Pass, other: Pass)
    requires { IsOf fabric.now into.old × IsOf fabric.now other }
    ensures { IsOf fabric.now into.new }
{
    if fabric.join(into, other).ok().is_none() {
        panic!(rt; "the passes are joined")
    }
}

// A fabric is not closed while a pass is out: what comes back is joined with the pass that is out.
pub(super) fn joined_when_refused(
    rt: &impl Abort,
    fabric: Fabric,
    pass: Pass,
    out: Pass,
) -> (Fabric, Pass)
    requires { IsOf fabric pass × IsOf fabric out }
    ensures { IsOf result.0 result.1 }
{
    match fabric.close(pass) {
        Err(CloseError::PassOut(kept, mut back)) => {
            join_to(rt, &kept, &mut back, out);
            (kept, back)
        }
        _ => panic!(rt; "a pass is out"),
    }
}
