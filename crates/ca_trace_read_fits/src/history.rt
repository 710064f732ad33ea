ghost use Rattle.std.specs.List.{AllByRecursion};
ghost use Rattle.ca_model.specs.Entries.{entry_of};
ghost use Rattle.ca_trace_read_fits.specs.Histories.{AnswerHolds, EntryHolds, HistoryFits, MarkHolds};

use crate::answer::{answer_fits, completions_fit};
use crate::event::event_fits;
use crate::mark::mark_fits;
use crate::word::{u32_fits, u64_fits};
use ca_model::{Answer, Entry, History, Mark};

fn completions_hold(answer: &Answer)
    ensures { AnswerHolds answer.now }
{
    if let Answer::Polled(completions) = answer {
        completions_fit(completions);
    }
}

fn mark_holds(mark: &Mark)
    ensures { MarkHolds mark.now }
{
    match mark {
        Mark::Verb { answer, .. } => {
            answer_fits(answer);
            completions_hold(answer);
        }
        _ => mark_fits(mark),
    }
}

fn marks_hold(marks: &[Mark])
    ensures { AllByRecursion MarkHolds marks.now }
{
    for mark in marks {
        mark_holds(mark);
    }
}

fn entry_holds(entry: &Entry)
    ensures { EntryHolds (entry_of entry.now) }
{
    u64_fits(entry.stamp);
    u32_fits(entry.pass);
    event_fits(&entry.event);
    marks_hold(entry.marks.as_slice());
}

fn entries_hold(entries: &[Entry])
    ensures { AllByRecursion (λ e. EntryHolds (entry_of e)) entries.now }
{
    for entry in entries {
        entry_holds(entry);
    }
}

/// A history that exists as a value fits. It changes nothing.
pub fn history_fits(history: &History)
    ensures { HistoryFits history.now }
{
    let entries = history.as_slice();
    entries_hold(entries);
    u64_fits(entries.len() as u64);
}
