ghost use Rattle.ca_trace_lex.specs.Names as names;
ghost use Rattle.ca_trace_lex.specs.Words as words;
ghost use Rattle.ca_trace_lex.specs.Words.{Reads};

use crate::pieces::Pieces;
use crate::stop::Stop;
use ca_base::QueueId;

/// A number of 32 bits behind a letter, by the first word.
pub fn take_lettered_u32(line: &mut Pieces) -> Result<u32, Stop>
    ensures { Reads (λ x. x) result line.new (words.field (words.lettered_in u32.MAX) line.old) }
{
    crate::id::lettered_u32_in(line.take_word()?)
}

/// Any queue pair of a domain, or one, by the first word.
pub fn take_queues(line: &mut Pieces) -> Result<Option<QueueId>, Stop>
    ensures { Reads (λ x. x) result line.new (words.field (words.queues_in) line.old) }
{
    crate::id::queues_in(line.take_word()?)
}

/// An address, by the first word.
pub fn take_address(line: &mut Pieces) -> Result<u64, Stop>
    ensures { Reads (λ x. x) result line.new (words.field (words.address_in) line.old) }
{
    crate::id::address_in(line.take_word()?)
}

/// Whether a region stands there, or a window, by the first word.
pub fn take_object(line: &mut Pieces) -> Result<bool, Stop>
    ensures { Reads (λ x. x) result line.new (words.field (names.object_in) line.old) }
{
    crate::name::object_in(line.take_word()?)
}

/// Whether the receive side stands there, or the send side, by the first word.
pub fn take_side(line: &mut Pieces) -> Result<bool, Stop>
    ensures { Reads (λ x. x) result line.new (words.field (names.side_in) line.old) }
{
    crate::name::side_in(line.take_word()?)
}

/// Whether a timer was silent, or only hastened, by the first word.
pub fn take_alarm(line: &mut Pieces) -> Result<bool, Stop>
    ensures { Reads (λ x. x) result line.new (words.field (names.alarm_in) line.old) }
{
    crate::name::alarm_in(line.take_word()?)
}
