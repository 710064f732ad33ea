use ca_outside::{FreeGate, StdSink, StdSource};
use ca_run::{Status, exit_code, run, status_line};
use std::io::ErrorKind;
use std::process::ExitCode;
use std::rt::Env;
use std::sync::Wait;
use std::thread::Threads;
use std::{env, io};

/// Runs the program on the standard streams, with the words behind the program's name. The line of its status goes to
/// standard error; a fault there is told to nobody.
pub fn start<R: Env + Input + Print + Eprint + AllocGlobal + Threads + Wait + Sync>(
    rt: &R,
) -> ExitCode {
    let status = status_of(rt);
    tell(rt, &status);
    ExitCode::from(exit_code(&status))
}

fn status_of<R: Env + Input + Print + AllocGlobal + Threads + Wait + Sync>(rt: &R) -> Status {
    let words = match words(rt) {
        Ok(words) => words,
        Err(status) => return status,
    };
    let mut source = StdSource::over(rt.reader());
    let mut sink = StdSink::over(io::writer(rt));
    run(rt, rt.alloc(), &words, &mut source, &mut sink, &FreeGate)
}

// The words behind the program's name. One that is not UTF-8 makes a faulty command line.
fn words<R: Env + AllocGlobal>(rt: &R) -> Result<Vec<String>, Status> {
    let args = match env::args(rt) {
        Ok(args) => args,
        Err(error) if error.kind() == ErrorKind::OutOfMemory => return Err(Status::Memory),
        Err(_) => return Err(Status::Usage),
    };
    args.skip(1).collect(rt.alloc()).map_err(|_| Status::Memory)
}

fn tell<R: Eprint + AllocGlobal>(rt: &R, status: &Status) {
    let mut line = Vec::new(rt.alloc());
    if status_line(status, &mut line).is_err() {
        return;
    }
    if let Ok(text) = str::from_utf8(&line) {
        let _ = rt.eprint(text);
    }
}
