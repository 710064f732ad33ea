use super::{CALLS, draw, same};
use ca_saved::Saved;
use rand_pcg::Pcg32;
use std::process::Abort;
use std::test::Fail;

// What is found after 17 results were kept at the PSNs 0 to 16, each three times its PSN.
const AFTER_SEVENTEEN: [(u64, Option<u64>); 4] = [
    (0, None),
    (1, Some(3)),
    (16, Some(48)),
    (17, None),
];

#[test]
fn the_oldest_of_seventeen_results_goes(rt: HostRuntime) {
    let mut saved = Saved::empty();
    for psn in 0..17 {
        saved.keep(psn, psn * 3);
    }
    for (psn, found) in AFTER_SEVENTEEN.as_slice() {
        same(&rt, saved.find(*psn), *found, "after seventeen");
    }
    saved.keep(16, 7);
    same(&rt, saved.find(16), Some(7), "the latest of two at one PSN");
}

// The latest result at a PSN among the last 16 of a plain list, the newest last.
fn found_in(results: &[(u64, u64)], psn: u64) -> Option<u64> {
    let mut latest = None;
    for (other, found) in &results[results.len().saturating_sub(16)..] {
        if *other == psn {
            latest = Some(*found);
        }
    }
    latest
}

#[test]
fn drawn_results_are_those_of_a_plain_list(rt: HostRuntime) -> Result<(), Fail> {
    let mut generator = Pcg32::new(1, 1);
    let mut saved = Saved::empty();
    let mut plain = Vec::new(rt.alloc());
    for call in 0..CALLS {
        let (which, psn) = draw(&mut generator);
        if which == 0 {
            saved.keep(psn, call);
            plain.push((psn, call))?;
        }
        same(&rt, saved.find(psn), found_in(&plain, psn), "a drawn call");
    }
    Ok(())
}
