ghost use Rattle.std.specs.Prelude.{◌≡◌, ◌∷◌, [], ◌++◌, IfOk, IfSome};
ghost use Rattle.ca_model.specs.Entries.{entry_of};
ghost use Rattle.ca_trace.specs.Trace.{entry_text};

use ca_base::Memory;
use ca_model::Entry;
use ca_trace::print;
use std::alloc::Global;

/// A row of a table: what it stands for prints as one line.
pub trait Row {
    /// The line, with its line feed.
    fn text(&self, alloc: Global) -> Result<Vec<u8>, Memory>;
}

// Whether a text is one line with its line feed.
fn is_one_line(text: &[u8]) -> bool {
    match text.split_last() {
        Some((b'\n', line)) => !line.contains(&b'\n'),
        _ => false,
    }
}

// Adds the line of a row, and before it another one where it is none.
fn put_row(text: &[u8], lines: &mut Vec<u8>) -> Result<(), Memory> {
    if !is_one_line(text) {
        lines.extend_from_slice(b"no line\n")?;
    }
    lines.extend_from_slice(text)?;
    Ok(())
}

/// The lines of rows, in their order. A row that prints other than one line is told by a further one, "no line".
pub fn lines_of<T: Row>(alloc: Global, rows: &[T]) -> Result<Vec<u8>, Memory> {
    let mut lines = Vec::new(alloc);
    for row in rows {
        let text = row.text(alloc)?;
        put_row(text.as_slice(), &mut lines)?;
    }
    Ok(lines)
}

/// A text without its last line feed; None where it has none there, or is not UTF-8.
pub fn line_of(text: &[u8]) -> Option<&str>
    ensures { IfSome result (λ line. text.now ≡ line.now ++ 10 ∷ []) }
{
    match text.split_last() {
        Some((b'\n', line)) => match str::from_utf8(line) {
            Ok(line) => Some(line),
            Err(_) => None,
        },
        _ => None,
    }
}

/// The text of an entry, which its caller needs no more.
pub fn text_of(alloc: Global, entry: Entry) -> Result<Vec<u8>, Memory>
    ensures { IfOk result (λ text. text.items ≡ entry_text (entry_of entry)) }
{
    let mut out = Vec::new(alloc);
    print(&entry, &mut out)?;
    Ok(out)
}
