use std::alloc::Global;

// Adds a byte once less than so often, for it stands once already, and then what stands behind the count.
fn put_again(byte: &str, part: &str, text: &mut String) -> Option<()> {
    let count = part.split_whitespace().next()?;
    for _ in 1..count.parse::<u16>().ok()? {
        text.push_str(byte).ok()?;
    }
    text.push_str(part.strip_prefix(count)?).ok()
}

// The two characters of the last byte.
fn last_byte(text: &str) -> Option<&str> {
    text.get(text.len().checked_sub(2)?..)
}

// Adds a text, with each byte as often as its count says.
fn put_plain(short: &str, text: &mut String) -> Option<()> {
    let mut before = None;
    for part in short.split('*') {
        match before {
            None => text.push_str(part).ok()?,
            Some(before) => put_again(last_byte(before)?, part, text)?,
        }
        before = Some(part);
    }
    Some(())
}

// The verb of a line, behind its stamp, its pass and its consumer.
fn verb_of(line: &str) -> &str {
    line.split(' ').nth(3).unwrap_or("")
}

// Adds the lines of a setup, and gives what is left of the run: a line of the run takes the place of one with its verb.
fn put_setup<'a>(setup: &str, run: &'a str, text: &mut String) -> Option<&'a str> {
    let mut rest = run;
    for line in setup.lines() {
        let (own, behind) = rest.split_once('\n').unwrap_or((rest, ""));
        if verb_of(own) == verb_of(line) {
            text.push_str(own).ok()?;
            rest = behind;
        } else {
            text.push_str(line).ok()?;
        }
        text.push_str("\n").ok()?;
    }
    Some(rest)
}

/// The text of a run as it stands in a trace. The lines of the setup stand before it, but for those in whose place the
/// run has one of the same verb; a run whose first line is `whole` stands without them. A byte that stands many times
/// at the end of a word is written once, with its count: `ab*3` is `ababab`.
pub fn full_text(alloc: Global, setup: &str, run: &str) -> Option<String> {
    let mut text = String::new(alloc);
    let rest = match run.strip_prefix("whole\n") {
        Some(rest) => rest,
        None => put_setup(setup, run, &mut text)?,
    };
    put_plain(rest, &mut text)?;
    Some(text)
}
