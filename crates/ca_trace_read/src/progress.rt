ghost use Rattle.std.specs.Prelude.{◌≡◌, ◌<◌, ◌∷◌, [], ◌++◌, length, Some, None, OnOk, OnErr, IfOk, IfErr, option_map};
ghost use Rattle.ca_base.specs.declared.limits.TheConstants.{MAX_POLLED};
ghost use Rattle.ca_model.specs.Entries.{entry_of};
ghost use Rattle.ca_trace_read.specs.Steps as steps;
ghost use Rattle.ca_trace_read.specs.ProgressView.{HasRoom, stage_of};
ghost use Rattle.ca_trace_lex.specs.declared.stop.Stop.TheVariants as stops;
ghost use Rattle.ca_trace_read_fits.specs.ca_trace_read_lines.Answers.{IsTold};

use ca_base::{Completion, Memory};
use ca_model::{Answer, Completions, Entry, Event, Mark, Marks, Verb};
use ca_trace::Told;
use ca_trace_lex::Stop;
use std::alloc::Global;
use std::mem;

/// A poll whose completions have lines that are still to come.
#[derive(Drop)]
pub(crate) struct OpenPoll {
    pub stamp: u64,
    pub pass: u32,
    pub by: u32,
    pub verb: Verb,
    /// Those that came.
    pub given: Completions,
    /// How many are still to come.
    pub wanted: u8,
}

/// Where in a text a reader stands.
#[derive(Drop)]
pub(crate) enum Progress {
    /// At its first line.
    Start,
    /// Behind lines of a poll.
    Polling(OpenPoll),
    /// Behind the lines of this entry, or of a front of it.
    Open(Entry),
    /// Behind the last line.
    Over,
    /// Behind a line that was refused.
    Stopped,
}

/// Whether a new entry, or the last line, may follow.
pub(crate) fn may_end(progress: &Progress) -> bool
    ensures { result ≡ steps.may_end (stage_of progress.now) }
{
    matches!(progress, Progress::Start | Progress::Open(_))
}

/// Goes on to another place; the entry that this shows to be complete.
pub(crate) fn go_on(progress: &mut Progress, next: Progress) -> Option<Entry>
    ensures shown { option_map entry_of result ≡ steps.shown (stage_of progress.old) }
    ensures next { progress.new ≡ next }
{
    match mem::replace(progress, next) {
        Progress::Open(entry) => Some(entry),
        _ => None,
    }
}

/// The entry of a call, with room for its answer.
fn unanswered(alloc: Global, stamp: u64, pass: u32, by: u32, verb: &Verb) -> Result<Entry, Memory>
    ensures value { IfOk result (λ e. entry_of e ≡ steps.unanswered stamp pass by verb.now) }
    ensures room { IfOk result (λ e. 0 < e.marks.room) }
{
    let mut marks = Marks::empty(alloc);
    marks.reserve(1)?;
    let event = Event::Verb {
        by,
        verb: verb.clone()?,
    };
    Ok(Entry {
        stamp,
        pass,
        event,
        marks,
    })
}

/// The entry of a call with its answer.
fn answered(
    alloc: Global,
    stamp: u64,
    pass: u32,
    by: u32,
    verb: Verb,
    answer: Answer,
) -> Result<Entry, Memory>
    ensures { IfOk result (λ e. entry_of e ≡ steps.answered stamp pass by verb answer) }
{
    let mut entry = unanswered(alloc, stamp, pass, by, &verb)?;
    entry.marks.push(Mark::Verb { by, verb, answer });
    Ok(entry)
}

/// Behind the line of a call.
pub(crate) fn called(
    alloc: Global,
    stamp: u64,
    pass: u32,
    by: u32,
    verb: Verb,
    told: Told,
) -> Result<Progress, Memory>
    requires { IsTold told }
    ensures ok { IfOk result (λ next. stage_of next ≡ steps.called stamp pass by verb told) }
    ensures room { IfOk result HasRoom }
{
    match told {
        Told::Whole(answer) => Ok(Progress::Open(answered(alloc, stamp, pass, by, verb, answer)?)),
        Told::Polled(0) => {
            let answer = Answer::Polled(Completions::empty());
            Ok(Progress::Open(answered(alloc, stamp, pass, by, verb, answer)?))
        }
        Told::Polled(wanted) => Ok(Progress::Polling(OpenPoll {
            stamp,
            pass,
            by,
            verb,
            given: Completions::empty(),
            wanted,
        })),
    }
}

/// The entry of a poll to which this completion is the last; an error changes nothing.
fn polled(alloc: Global, poll: &mut OpenPoll, last: Completion) -> Result<Entry, Memory>
    requires { length poll.old.given < MAX_POLLED }
    ensures ok { IfOk result (λ e. entry_of e ≡ steps.polled poll.old (poll.old.given ++ last ∷ [])) }
    ensures err { OnErr result (poll.new ≡ poll.old) }
{
    let mut entry = unanswered(alloc, poll.stamp, poll.pass, poll.by, &poll.verb)?;
    let verb = poll.verb.clone()?;
    poll.given.push(alloc, last)?;
    let given = mem::replace(&mut poll.given, Completions::empty());
    entry.marks.push(Mark::Verb {
        by: poll.by,
        verb,
        answer: Answer::Polled(given),
    });
    Ok(entry)
}

/// Takes the line of a completion. `Outside` comes exactly where none may stand; an error changes nothing.
pub(crate) fn take_got(
    alloc: Global,
    progress: &mut Progress,
    completion: Completion,
) -> Result<(), Stop>
    requires { HasRoom progress.old }
    ensures ok { OnOk result (steps.with_got completion (stage_of progress.old) ≡ Some (stage_of progress.new)) }
    ensures room { OnOk result (HasRoom progress.new) }
    ensures outside { IfErr result (λ stop. stop ≡ stops.Outside
        → steps.with_got completion (stage_of progress.old) ≡ None) }
    ensures err { OnErr result (progress.new ≡ progress.old) }
{
    let Progress::Polling(poll) = progress else {
        return Err(Stop::Outside);
    };
    if poll.wanted <= 1 {
        *progress = Progress::Open(polled(alloc, poll, completion)?);
    } else {
        poll.given.push(alloc, completion)?;
        poll.wanted -= 1;
    }
    Ok(())
}

/// Takes the line of a mark. `Outside` comes exactly where none may stand; an error changes nothing.
pub(crate) fn take_mark(progress: &mut Progress, mark: Mark) -> Result<(), Stop>
    requires { HasRoom progress.old }
    ensures ok { OnOk result (steps.with_mark mark (stage_of progress.old) ≡ Some (stage_of progress.new)) }
    ensures room { HasRoom progress.new }
    ensures outside { IfErr result (λ stop. stop ≡ stops.Outside
        → steps.with_mark mark (stage_of progress.old) ≡ None) }
    ensures err { OnErr result (stage_of progress.new ≡ stage_of progress.old) }
{
    let Progress::Open(entry) = progress else {
        return Err(Stop::Outside);
    };
    entry.marks.reserve(1)?;
    entry.marks.push(mark);
    Ok(())
}
