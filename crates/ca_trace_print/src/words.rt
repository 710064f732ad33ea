ghost use Rattle.std.specs.Prelude.{◌≡◌, [], if◌then◌else◌, Some};
ghost use Rattle.ca_base.specs.Side.{is_receives};
ghost use Rattle.ca_trace_print.specs.Words as words;

use ca_base::{QueueId, Side};
use std::fmt;

/// The flags of a send request, as they print.
#[derive(Clone, Copy)]
pub struct Flags {
    pub signalled: bool,
    pub fence: bool,
    pub solicited: bool,
}

fn letter(holds: bool, text: &'static str) -> &'static str
    ensures { result.now ≡ (if holds then text.now else []) }
{
    if holds { text } else { "" }
}

impl fmt::Display for Flags {
    ghost output = { λ flags. Some (words.flags_text flags.signalled flags.fence flags.solicited) };

    fn fmt<W: fmt::Write>(&self, f: &mut fmt::Formatter<W>) -> fmt::Result {
        if !(self.signalled || self.fence || self.solicited) {
            return f.write_str("-");
        }
        let s = letter(self.signalled, "s");
        let fence = letter(self.fence, "f");
        let e = letter(self.solicited, "e");
        write!(f, "{s}{fence}{e}")
    }
}

/// The queue pair that a grant serves, as it prints: one, or any of the domain.
#[derive(Clone, Copy)]
pub struct Queues(pub Option<QueueId>);

impl fmt::Display for Queues {
    ghost output = { λ queues. Some (words.queues_text queues.0) };

    fn fmt<W: fmt::Write>(&self, f: &mut fmt::Formatter<W>) -> fmt::Result {
        match self.0 {
            None => f.write_str("any"),
            Some(queue) => write!(f, "{queue}"),
        }
    }
}

/// What stands for a grant's key: of a region, which may be used as an L_Key, or of a window.
pub fn object(local: bool) -> &'static str
    ensures { result.now ≡ words.object_text local }
{
    if local { "region" } else { "window" }
}

/// What stands for the side of a queue pair that a completion is of.
pub fn side(side: Side) -> &'static str
    ensures { result.now ≡ words.side_text (is_receives side) }
{
    match side {
        Side::Receives => "recv",
        Side::Sends => "send",
    }
}

/// What stands for a timer that was silent, or only hastened.
pub fn alarm(silent: bool) -> &'static str
    ensures { result.now ≡ words.alarm_text silent }
{
    if silent { "silent" } else { "hasten" }
}
