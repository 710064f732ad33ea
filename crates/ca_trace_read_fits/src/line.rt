ghost use Rattle.std.specs.Prelude.{◌↔◌, IsTrue};
ghost use Rattle.ca_model.specs.History.{IsPlain};
ghost use Rattle.ca_trace_lex.specs.Fits.{AllFit};
ghost use Rattle.ca_trace_read_lines.specs.Fits.{IsShaped};
ghost use Rattle.ca_trace_read_lines.specs.Answers.{IsTold};
ghost use Rattle.ca_trace.specs.Lines.{answer_line_words, line_words};

use crate::answer::{answer_fits, completion_fits};
use crate::event::event_fits;
use crate::mark::mark_fits;
use crate::verb::verb_fits;
use crate::word::{u8_fits, u32_fits, u64_fits};
use ca_base::limits::MAX_POLLED;
use ca_model::{Answer, Event, Mark};
use ca_trace::{Line, Told};

fn told_fits(told: &Told)
    ensures { AllFit (answer_line_words told.now) }
{
    match told {
        Told::Whole(answer) => answer_fits(answer),
        Told::Polled(n) => u8_fits(*n),
    }
}

/// The words of a line.
pub fn line_fits(line: &Line)
    ensures { AllFit (line_words line.now) }
{
    match line {
        Line::Turn { stamp, pass, event } => {
            u64_fits(*stamp);
            u32_fits(*pass);
            event_fits(event);
        }
        Line::Call {
            stamp,
            pass,
            by,
            verb,
            told,
        } => {
            u64_fits(*stamp);
            u32_fits(*pass);
            u32_fits(*by);
            verb_fits(verb);
            told_fits(told);
        }
        Line::Got(completion) => completion_fits(*completion),
        Line::Mark(mark) => mark_fits(mark),
        Line::End(n) => u64_fits(*n),
    }
}

fn is_told(told: &Told) -> bool
    ensures { IsTrue result ↔ IsTold told.now }
{
    match told {
        Told::Whole(Answer::Polled(_)) => false,
        Told::Whole(_) => true,
        Told::Polled(n) => usize::from(*n) <= MAX_POLLED,
    }
}

fn is_plain(mark: &Mark) -> bool
    ensures { IsTrue result ↔ IsPlain mark.now }
{
    match mark {
        Mark::Verb { .. } => false,
        Mark::Done {
            queue,
            completion,
            ..
        } => completion.queue == *queue,
        _ => true,
    }
}

/// Whether a line has the shape of one of a trace: a turn's is no verb's, the completions of a poll have lines of their
/// own and are at most sixteen, and a mark is no answer.
pub fn is_shaped(line: &Line) -> bool
    ensures { IsTrue result ↔ IsShaped line.now }
{
    match line {
        Line::Turn { event, .. } => !matches!(event, Event::Verb { .. }),
        Line::Call { told, .. } => is_told(told),
        Line::Mark(mark) => is_plain(mark),
        Line::Got(_) | Line::End(_) => true,
    }
}
