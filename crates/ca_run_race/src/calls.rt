ghost use Rattle.std.specs.Prelude.{◌-◌, ◌<◌, ◌^◌, IfSome, length, slice_index};
ghost use Rattle.ca_script_order.specs.Order.{lines_of};
ghost use Rattle.ca_run_race.specs.Calls.{IsNextCall};
ghost use Rattle.ca_script.specs.Script.{script_value};

use ca_model::Verb;
use ca_script::Script;
use ca_script_lines::{Line, What};

/// The line that calls a verb next: its place among the lines of its consumer, the clock that has to come before, and the
/// verb.
#[derive(Clone, Copy)]
pub(crate) struct NextCall<'a> {
    pub(crate) at: usize,
    pub(crate) clock: u64,
    pub(crate) verb: &'a Verb,
}

/// What a consumer calls next that has done so many of its lines. None comes where it calls nothing any more.
pub(crate) fn next_call<'a>(
    script: &'a Script,
    done: &[usize],
    consumer: u32,
) -> Option<NextCall<'a>>
    ensures call { IfSome result (λ next. IsNextCall (lines_of consumer (script_value script.now).consumers)
        (slice_index done.now consumer) next.at next.clock next.verb.now) }
    ensures few { IfSome result (λ next. next.at < 2 ^ 64 - 1) }
    ensures there { IfSome result (λ next. consumer < length done.now) }
{
    let lines = script.consumers.as_slice().get(consumer as usize)?;
    let passed = done.get(consumer as usize)?;
    call_behind(lines.as_slice(), *passed)
}

/// What is called next behind so many lines.
fn call_behind(lines: &[Line], passed: usize) -> Option<NextCall<'_>>
    ensures call { IfSome result (λ next. IsNextCall lines.now passed next.at next.clock next.verb.now) }
    ensures few { IfSome result (λ next. next.at < 2 ^ 64 - 1) }
{
    let mut clock = 0;
    for at in passed..lines.len() {
        match &lines[at].what {
            What::At(t) => clock = clock.max(*t),
            What::Verb(verb) => return Some(NextCall { at, clock, verb }),
        }
    }
    None
}
