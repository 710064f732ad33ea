mod mail_runs;
mod mailboxes;
mod saved;
mod shared;
mod weathers;
mod work;

use rand_core::utils::NextWord;
use rand_pcg::Pcg32;
use std::fmt::Debug;
use std::process::Abort;

/// How many calls a drawn run makes.
const CALLS: u64 = 3000;

fn same<T: PartialEq + Debug + Drop>(rt: &impl Abort, got: T, want: T, what: &str) {
    assert_eq!(rt; got, want, "{what}");
}

// The draw of a call of a run: which call it is, below 4, and a number below 32.
fn draw(generator: &mut Pcg32) -> (u32, u64) {
    let word = generator.next_word();
    (word % 4, u64::from(word / 4 % 32))
}
