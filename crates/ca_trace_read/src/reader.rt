use crate::error::TraceError;
use crate::progress::{Progress, called, go_on, may_end, take_got, take_mark};
use ca_model::{Entry, Event, Marks, Verb};
use ca_trace::{Line, Told};
use ca_trace_lex::Stop;
use ca_trace_read_fits::ca_trace_read_lines::read_line;
use ca_trace_read_fits::{is_shaped, line_fits};
use std::alloc::Global;
use std::marker::Model;

/// A reader of a trace, line by line. It holds one entry and never the text. Contracts see the number of the next line
/// and what is known behind the lines before it.
#[derive(Drop)]
pub struct TraceReader {
    next: u32,
    count: u64,
    progress: Progress,
}

impl Model for TraceReader {
    ghost use Rattle.ca_trace_read.specs.ReaderValue.{ReaderValue};
    ghost use Rattle.ca_trace_read.specs.ReaderView.{view_of, IsSound};

    ghost Value = { ReaderValue };

    ghost view = { view_of };

    ghost invariant = { IsSound };
}

impl TraceReader {
    ghost use Rattle.std.specs.Prelude.{◌≡◌, None, IfOk, IfErr, OnErr, OnOk, Some, false, option_map};
    ghost use Rattle.ca_model.specs.Entries.{entry_of};
    ghost use Rattle.ca_trace.specs.declared.line.Line.TheVariants as lines;
    ghost use Rattle.ca_trace_lex.specs.declared.stop.Stop.TheVariants as stops;
    ghost use Rattle.ca_trace_read_fits.specs.ca_trace_read_lines.Fits.{IsShaped};
    ghost use Rattle.ca_trace_read_fits.specs.ca_trace_read_lines.Answers.{IsTold};
    ghost use Rattle.ca_trace_read.specs.Steps as steps;
    ghost use Rattle.ca_trace_read.specs.Steps.{is_over};
    ghost use Rattle.ca_trace_read.specs.Taken.{IsTaken, IsRefused};
    ghost use Rattle.ca_trace_read.specs.ReaderValue.{at_start};
    ghost use Rattle.ca_trace_read.specs.Reader.{Takes, Refuses};
    ghost use Rattle.ca_trace_read.specs.declared.error.TraceError.TheVariants as errors;

    /// A reader before the first line. It takes no memory.
    pub fn start() -> TraceReader
        ensures { result ≡ at_start }
    {
        TraceReader {
            next: 1,
            count: 0,
            progress: Progress::Start,
        }
    }

    /// Takes the next line, without its line feed, and gives the entry that it shows to be complete. `Refused` has the
    /// number of the first line outside the grammar, and comes again at every later call. `Memory` leaves the reader as it
    /// was, and it takes the same line again.
    pub fn line(&mut self, alloc: Global, bytes: &[u8]) -> Result<Option<Entry>, TraceError>
        ensures taken { IfOk result (λ shown. Takes self.old bytes.now self.new (option_map entry_of shown)) }
        ensures refused { IfErr result (Refuses self.old bytes.now self.new) }
    {
        match self.take(alloc, bytes) {
            Ok(shown) => {
                self.next = self.next.saturating_add(1);
                Ok(shown)
            }
            Err(Stop::Outside) => {
                self.progress = Progress::Stopped;
                Err(TraceError::Refused(self.next))
            }
            Err(Stop::Memory) => Err(TraceError::Memory),
        }
    }

    /// Whether the trace ends here. `Refused` has the number of the line behind the last, and comes exactly where the
    /// last line was not the one that tells how many entries there are. It takes no memory.
    pub fn finish(&self) -> Result<(), TraceError>
        ensures ok { OnOk result (self.now.reading.stage ≡ steps.Over) }
        ensures refused { IfErr result (λ e. e ≡ errors.Refused self.now.next) }
        ensures only { OnErr result (is_over self.now.reading.stage ≡ false) }
    {
        match self.progress {
            Progress::Over => Ok(()),
            _ => Err(self.refusal()),
        }
    }

    /// What is answered where the next line is refused.
    pub fn refusal(&self) -> TraceError
        ensures { result ≡ errors.Refused self.now.next }
    {
        TraceError::Refused(self.next)
    }

    /// Takes a line, but for its number.
    fn take(&mut self, alloc: Global, bytes: &[u8]) -> Result<Option<Entry>, Stop>
        ensures taken { IfOk result
            (λ shown. IsTaken self.old.reading bytes.now self.new.reading (option_map entry_of shown)) }
        ensures refused { IfErr result (λ stop. stop ≡ stops.Outside → IsRefused self.old.reading bytes.now) }
        ensures next { self.new.next ≡ self.old.next }
        ensures err { OnErr result (self.new ≡ self.old) }
    {
        let line = read_line(alloc, bytes)?;
        line_fits(&line);
        if !is_shaped(&line) {
            return Err(Stop::Outside);
        }
        self.step(alloc, line)
    }

    /// Goes behind a line.
    fn step(&mut self, alloc: Global, line: Line) -> Result<Option<Entry>, Stop>
        requires { IsShaped line }
        ensures taken { IfOk result (λ shown. steps.step self.old.reading line
            ≡ Some (self.new.reading, option_map entry_of shown)) }
        ensures refused { IfErr result (λ stop. stop ≡ stops.Outside → steps.step self.old.reading line ≡ None) }
        ensures next { self.new.next ≡ self.old.next }
        ensures err { OnErr result (self.new ≡ self.old) }
    {
        match line {
            Line::Turn { stamp, pass, event } => self.turn(alloc, stamp, pass, event),
            Line::Call {
                stamp,
                pass,
                by,
                verb,
                told,
            } => self.call(alloc, stamp, pass, by, verb, told),
            Line::Got(completion) => {
                take_got(alloc, &mut self.progress, completion)?;
                Ok(None)
            }
            Line::Mark(mark) => {
                take_mark(&mut self.progress, mark)?;
                Ok(None)
            }
            Line::End(count) => self.end(count),
        }
    }
}

impl TraceReader {
    ghost use Rattle.std.specs.Prelude.{◌≡◌, Some, IfOk, IfErr, OnErr, option_map};
    ghost use Rattle.ca_model.specs.Entries.{entry_of};
    ghost use Rattle.ca_trace.specs.declared.line.Line.TheVariants as lines;
    ghost use Rattle.ca_trace_lex.specs.declared.stop.Stop.TheVariants as stops;
    ghost use Rattle.ca_trace_read_fits.specs.ca_trace_read_lines.Answers.{IsTold};
    ghost use Rattle.ca_trace_read.specs.Steps as steps;

    /// Whether an entry with this stamp may follow.
    fn may_begin(&self, stamp: u64) -> bool
        ensures { result ≡ steps.may_begin self.now.reading stamp }
    {
        may_end(&self.progress) && stamp == self.count && stamp < u64::MAX
    }

    /// Goes behind the line of a turn.
    fn turn(
        &mut self,
        alloc: Global,
        stamp: u64,
        pass: u32,
        event: Event,
    ) -> Result<Option<Entry>, Stop>
        ensures taken { IfOk result (λ shown.
            steps.step self.old.reading (lines.Turn stamp pass event)
            ≡ Some (self.new.reading, option_map entry_of shown)) }
        ensures refused { IfErr result (λ stop. stop ≡ stops.Outside
            → steps.step self.old.reading (lines.Turn stamp pass event) ≡ None) }
        ensures next { self.new.next ≡ self.old.next }
        ensures err { OnErr result (self.new ≡ self.old) }
    {
        if !self.may_begin(stamp) {
            return Err(Stop::Outside);
        }
        let marks = Marks::empty(alloc);
        let next = Progress::Open(Entry {
            stamp,
            pass,
            event,
            marks,
        });
        self.count += 1;
        Ok(go_on(&mut self.progress, next))
    }

    /// Goes behind the line of a call.
    fn call(
        &mut self,
        alloc: Global,
        stamp: u64,
        pass: u32,
        by: u32,
        verb: Verb,
        told: Told,
    ) -> Result<Option<Entry>, Stop>
        requires { IsTold told }
        ensures taken { IfOk result (λ shown.
            steps.step self.old.reading (lines.Call stamp pass by verb told)
            ≡ Some (self.new.reading, option_map entry_of shown)) }
        ensures refused { IfErr result (λ stop. stop ≡ stops.Outside
            → steps.step self.old.reading (lines.Call stamp pass by verb told) ≡ None) }
        ensures next { self.new.next ≡ self.old.next }
        ensures err { OnErr result (self.new ≡ self.old) }
    {
        if !self.may_begin(stamp) {
            return Err(Stop::Outside);
        }
        let next = called(alloc, stamp, pass, by, verb, told)?;
        self.count += 1;
        Ok(go_on(&mut self.progress, next))
    }

    /// Goes behind the last line.
    fn end(&mut self, count: u64) -> Result<Option<Entry>, Stop>
        ensures taken { IfOk result (λ shown.
            steps.step self.old.reading (lines.End count) ≡ Some (self.new.reading, option_map entry_of shown)) }
        ensures refused { IfErr result (λ stop. stop ≡ stops.Outside
            → steps.step self.old.reading (lines.End count) ≡ None) }
        ensures next { self.new.next ≡ self.old.next }
        ensures err { OnErr result (self.new ≡ self.old) }
    {
        if may_end(&self.progress) && count == self.count {
            Ok(go_on(&mut self.progress, Progress::Over))
        } else {
            Err(Stop::Outside)
        }
    }
}
