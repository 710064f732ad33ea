ghost use Rattle.ca_trace_lex.specs.Fits.{AllFit};
ghost use Rattle.ca_trace.specs.Table.{event_words};

use crate::verb::verb_fits;
use crate::word::{lot_fits, queue_fits, u32_fits, u64_fits};
use ca_model::Event;

/// The words of a call or a turn.
pub fn event_fits(event: &Event)
    ensures { AllFit (event_words event.now) }
{
    match event {
        Event::Verb { by, verb } => {
            u32_fits(*by);
            verb_fits(verb);
        }
        Event::Request { queue, lot } | Event::Respond { queue, lot } => {
            queue_fits(*queue);
            lot_fits(*lot);
        }
        Event::Deliver { queue, index } => {
            queue_fits(*queue);
            u64_fits(*index);
        }
        Event::Timeout { queue, .. } | Event::RnrWake { queue } => queue_fits(*queue),
    }
}
