mod buffers;
mod windows;

use std::process::Abort;

fn holds(rt: &impl Abort, is: bool, what: &str) {
    assert!(rt; is, "{what}");
}
