use ca_run_seed::ca_script_run::Status;
use ca_run_seed::make;
use std::process::Abort;
use std::test::Fail;

/// Seeds, each with the summary of its made script.
const SUMMARIES: &[(u64, &str)] = &[
    (
        0,
        "requests 800
success 800
failed 0
sent 2055
lost 139
atomics 407
events 5825
sum 31703
",
    ),
    (
        1,
        "requests 800
success 800
failed 0
sent 2049
lost 136
atomics 417
events 5781
sum 34799
",
    ),
    (
        2,
        "requests 800
success 800
failed 0
sent 2088
lost 143
atomics 383
events 5888
sum 42344
",
    ),
    (
        3,
        "requests 800
success 800
failed 0
sent 2053
lost 134
atomics 409
events 5796
sum 50339
",
    ),
    (
        12345,
        "requests 800
success 800
failed 0
sent 2067
lost 149
atomics 416
events 5847
sum 42378
",
    ),
    (
        u64::MAX,
        "requests 800
success 800
failed 0
sent 2061
lost 134
atomics 385
events 5810
sum 44067
",
    ),
];

/// A made script ends fine, with this summary.
fn is_made<R: Abort + AllocGlobal>(rt: &R, seed: u64, summary: &str) -> Result<(), Fail> {
    let made = make(rt.alloc(), seed)?;
    assert_eq!(rt;
        str::from_utf8(made.text.as_slice()).unwrap_or("no text"),
        summary,
        "the summary of a seed"
    );
    assert!(rt; made.ended == Status::Fine);
    Ok(())
}

#[test]
fn summaries_of_made_scripts_are_those_of_another_program(rt: HostRuntime) -> Result<(), Fail> {
    for (seed, summary) in SUMMARIES.iter() {
        is_made(&rt, *seed, summary)?;
    }
    Ok(())
}
