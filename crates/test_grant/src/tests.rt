mod binds;
mod checks;
mod turns;

use std::alloc::AllocError;
use std::process::Abort;

// A text that was made is the one that is wanted.
fn text_is(
    rt: &impl Abort,
    made: Result<String, AllocError>,
    want: &str,
) -> Result<(), AllocError> {
    texts_are(rt, made?.as_str(), want);
    Ok(())
}

fn texts_are(rt: &impl Abort, text: &str, want: &str) {
    assert_eq!(rt; text, want);
}

fn counts_are(rt: &impl Abort, counts: (u32, u32, u32), want: (u32, u32, u32)) {
    assert_eq!(rt; counts, want);
}
