mod completions;
mod histories;
mod longest;
mod marks;
mod turns;

use crate::{Row, line_of, lines_of};
use ca_base::Memory;
use ca_model::{Entry, Event, Mark, Marks};
use ca_trace::print_reply;
use std::alloc::Global;
use std::process::Abort;
use std::test::Fail;

// The text is these lines.
fn lines_are(rt: &impl Abort, text: &[u8], want: &str) {
    assert_eq!(rt; line_of(text), Some(want));
}

// These rows are these lines.
fn rows_are<R: Abort + AllocGlobal, T: Row>(rt: &R, rows: &[T], lines: &str) -> Result<(), Fail> {
    let text = lines_of(rt.alloc(), rows)?;
    lines_are(rt, text.as_slice(), lines);
    Ok(())
}

// The entry of a turn that has no marks.
fn entry(alloc: Global, stamp: u64, pass: u32, event: Event) -> Entry {
    Entry {
        stamp,
        pass,
        event,
        marks: Marks::empty(alloc),
    }
}

impl Row for Mark {
    fn text(&self, alloc: Global) -> Result<Vec<u8>, Memory> {
        let mut out = Vec::new(alloc);
        print_reply(self, &mut out)?;
        Ok(out)
    }
}

// The text of a mark that its caller needs no more.
fn mark_text(alloc: Global, mark: Mark) -> Result<Vec<u8>, Memory> {
    mark.text(alloc)
}

// The mark is this line.
fn mark_is<R: Abort + AllocGlobal>(rt: &R, mark: Mark, want: &str) -> Result<(), Fail> {
    let text = mark_text(rt.alloc(), mark)?;
    lines_are(rt, text.as_slice(), want);
    Ok(())
}
