use ca_outside::{
    Failed, MemorySink, MemorySource, ReadStop, Sink, Source, StdSink, StdSource, SureSink,
    SureSource, read_up_to, write_all,
};
use std::alloc::{AllocError, Global};
use std::io;
use std::io::{ErrorKind, Read, Write};
use std::process::Abort;
use std::test::Fail;

/// A reader and a writer that answer an interruption once, and then read nothing and take all.
#[derive(Drop)]
struct Interrupted {
    calls: u64,
}

impl Interrupted {
    fn call(&mut self) -> io::Result<()> {
        self.calls = self.calls.saturating_add(1);
        if self.calls == 1 {
            return Err(io::Error::from(ErrorKind::Interrupted));
        }
        Ok(())
    }
}

impl Read for Interrupted {
    fn read(&mut self, _into: &mut [u8]) -> io::Result<usize> {
        self.call()?;
        Ok(0)
    }
}

impl Write for Interrupted {
    fn write(&mut self, bytes: &[u8]) -> io::Result<usize> {
        self.call()?;
        Ok(bytes.len())
    }

    fn flush(&mut self) -> io::Result<()> {
        Ok(())
    }
}

/// A reader that always fails, and a writer that takes nothing.
#[derive(Drop)]
struct Broken;

impl Read for Broken {
    fn read(&mut self, _into: &mut [u8]) -> io::Result<usize> {
        Err(io::Error::from(ErrorKind::Other))
    }
}

impl Write for Broken {
    fn write(&mut self, _bytes: &[u8]) -> io::Result<usize> {
        Ok(0)
    }

    fn flush(&mut self) -> io::Result<()> {
        Ok(())
    }
}

const ALPHABET: &[u8] = b"abcdefghijklmnopqrstuvwxyz";

fn are(rt: &impl Abort, bytes: &[u8], want: &[u8]) {
    assert_eq!(rt; bytes, want);
}

fn answers(rt: &impl Abort, answer: Result<usize, Failed>, want: Result<usize, Failed>) {
    assert_eq!(rt; answer, want);
}

// Bytes that count up, more than come in one read.
fn many_bytes(alloc: Global) -> Result<Vec<u8>, AllocError> {
    let mut bytes = Vec::new(alloc);
    for number in 0..10_000u32 {
        bytes.push((number % 251) as u8)?;
    }
    Ok(bytes)
}

#[test]
fn more_than_one_read_goes_through(rt: HostRuntime) -> Result<(), Fail> {
    let bytes = many_bytes(rt.alloc())?;
    let mut source = SureSource::new(bytes.to_vec(rt.alloc())?);
    let came = read_up_to(rt.alloc(), &mut source, 10_000)?;
    are(&rt, &came, &bytes);

    let mut sink = SureSink::new(rt.alloc(), 10_000)?;
    write_all(&mut sink, &came)?;
    are(&rt, sink.taken(), &bytes);
    Ok(())
}

// The second call fails, after all the bytes came: they are lost.
#[test]
fn a_failing_read_stops_the_transfer(rt: HostRuntime) -> Result<(), Fail> {
    let fail = [1].to_vec(rt.alloc())?;
    let mut source = MemorySource::new(ALPHABET.to_vec(rt.alloc())?, fail);
    let stop = read_up_to(rt.alloc(), &mut source, 100).err();
    assert!(rt; stop == Some(ReadStop::Failed));
    are(&rt, &read_up_to(rt.alloc(), &mut source, 100)?, b"");
    Ok(())
}

#[test]
fn a_failing_write_leaves_the_front(rt: HostRuntime) -> Result<(), Fail> {
    let mut sink = MemorySink::new(rt.alloc(), 20, [2].to_vec(rt.alloc())?, 7)?;
    assert!(rt; write_all(&mut sink, ALPHABET).is_err());
    are(&rt, sink.taken(), b"abcdefghijklmn");
    answers(&rt, sink.write(b"opqrstuvwxyz"), Ok(6));
    Ok(())
}

#[test]
fn readers_and_writers_of_std_are_read_and_written(rt: HostRuntime) -> Result<(), Fail> {
    let came = read_up_to(rt.alloc(), &mut StdSource::over(ALPHABET), 100)?;
    are(&rt, &came, ALPHABET);

    let mut bytes = Vec::new(rt.alloc());
    write_all(&mut StdSink::over(&mut bytes), &came)?;
    are(&rt, &bytes, ALPHABET);
    Ok(())
}

#[test]
fn an_error_is_a_fault(rt: HostRuntime) {
    answers(&rt, StdSource::over(Broken).read(&mut [0; 4]), Err(Failed));
    let mut sink = StdSink::over(Broken);
    answers(&rt, sink.write(b"a"), Err(Failed));
    answers(&rt, sink.write(b""), Ok(0));
}

// An interruption is answered as a fault at once; the next call is the second that the reader or the writer sees.
#[test]
fn an_interruption_is_a_fault_and_not_tried_again(rt: HostRuntime) {
    let mut source = StdSource::over(Interrupted { calls: 0 });
    answers(&rt, source.read(&mut [0; 4]), Err(Failed));
    answers(&rt, source.read(&mut [0; 4]), Ok(0));

    let mut sink = StdSink::over(Interrupted { calls: 0 });
    answers(&rt, sink.write(b"a"), Err(Failed));
    answers(&rt, sink.write(b"a"), Ok(1));
}
