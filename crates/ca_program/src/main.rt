//! The program `ca`: a software channel adapter that works a script of verbs and prints its history.
//!
//! It makes the real words, streams, threads and gate of `run`, tells its status, and promises nothing more: what the
//! program does is what `run` promises.
//!
//! Source: InfiniBand Architecture Specification Volume 1, the chapters on the software transport interface and on
//! the transport layer.
#![tactic(auto)]

mod command;

use std::process::ExitCode;

fn main(rt: HostRuntime) -> ExitCode {
    command::start(&rt)
}
