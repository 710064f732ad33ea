//! Replays traces: the events of each are made on the fabric of its script, and what they do is printed as a trace.
//!
//! It promises nothing. Standard input holds cases, each a script, of which the setup lines alone are used, and behind it
//! the trace whose events are made. `tools/check_replays` compares what is printed with the traces that were given. With the
//! word `measure` it tells in place of the traces how long their events took, each made by the function of its kind, whose
//! instructions `bench/replay` and `bench/adapter` count.
#![tactic(auto)]

mod case;
mod cases;
mod kinds;
mod measure;
mod work;

use std::process::ExitCode;

fn main(rt: HostRuntime) -> ExitCode {
    work::start(&rt)
}
