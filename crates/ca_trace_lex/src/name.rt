ghost use Rattle.std.specs.Prelude.{refl};
ghost use Rattle.ca_trace_lex.specs.Names as names;
ghost use Rattle.ca_trace_lex.specs.Words.{Gives};

use crate::find::Named;
use crate::in_word::InWord;
use crate::pieces::Pieces;
use crate::stop::Stop;
use crate::word::is_name;
use ca_base::{
    Denial, Field, Kind, Lot, OpRefusal, RegionError, Side, State, WcOp, WcStatus, WindowError,
};
use ca_trace_print::ca_model::{Drop1, Refusal};
use ca_trace_print::{alarm, object, side};
use ca_wire::WireError;

/// Which of two names a word is: the first, or the second.
fn choice_in(word: &[u8], first: &str, second: &str) -> Result<bool, Stop>
    ensures { Gives result (names.choice_in first.now second.now word.now) }
{
    if is_name(word, first) {
        Ok(true)
    } else if is_name(word, second) {
        Ok(false)
    } else {
        Err(Stop::Outside)
    }
}

/// Whether a region stands there, or a window.
#[tactic(auto, unfolding(crate::specs::Names::object_in, crate::specs::Names::find_named))]
pub(crate) fn object_in(word: &[u8]) -> Result<bool, Stop>
    ensures { Gives result (names.object_in word.now) }
{
    choice_in(word, object(true), object(false))
}

/// Whether the receive side stands there, or the send side.
#[tactic(auto, unfolding(crate::specs::Names::side_in, crate::specs::Names::find_named))]
pub(crate) fn side_in(word: &[u8]) -> Result<bool, Stop>
    ensures { Gives result (names.side_in word.now) }
{
    choice_in(word, side(Side::Receives), side(Side::Sends))
}

/// Whether a timer was silent, or only hastened.
#[tactic(auto, unfolding(crate::specs::Names::alarm_in, crate::specs::Names::find_named))]
pub(crate) fn alarm_in(word: &[u8]) -> Result<bool, Stop>
    ensures { Gives result (names.alarm_in word.now) }
{
    choice_in(word, alarm(true), alarm(false))
}

/// What an access does.
impl Named for Kind {
    ghost use Rattle.ca_keys.specs.Spelling.{kind_text};
    ghost use Rattle.ca_trace_lex.specs.Names.{all_kinds};

    ghost text = { kind_text };

    ghost all = { all_kinds };

    ghost shows = { λ _. refl };

    #[tactic(auto, unfolding(crate::specs::Names::all_kinds))]
    fn all() -> &'static [Kind] {
        &[Kind::Read, Kind::Write, Kind::CmpSwap, Kind::FetchAdd]
    }
}

/// The part of the key check that failed.
impl Named for Denial {
    ghost use Rattle.ca_keys.specs.Spelling.{denial_text};
    ghost use Rattle.ca_trace_lex.specs.Names.{all_denials};

    ghost text = { denial_text };

    ghost all = { all_denials };

    ghost shows = { λ _. refl };

    #[tactic(auto, unfolding(crate::specs::Names::all_denials))]
    fn all() -> &'static [Denial] {
        &[
            Denial::NoGrant,
            Denial::WrongQueue,
            Denial::NoRight,
            Denial::OutOfRange,
        ]
    }
}

/// The state of a queue pair.
impl Named for State {
    ghost use Rattle.ca_base.specs.Spelling.{state_text};
    ghost use Rattle.ca_trace_lex.specs.Names.{all_states};

    ghost text = { state_text };

    ghost all = { all_states };

    ghost shows = { λ _. refl };

    #[tactic(auto, unfolding(crate::specs::Names::all_states))]
    fn all() -> &'static [State] {
        &[
            State::Reset,
            State::Init,
            State::Rtr,
            State::Rts,
            State::Sqd,
            State::Error,
        ]
    }
}

/// What the request of a completion asked for.
impl Named for WcOp {
    ghost use Rattle.ca_base.specs.Spelling.{operation_text};
    ghost use Rattle.ca_trace_lex.specs.Names.{all_operations};

    ghost text = { operation_text };

    ghost all = { all_operations };

    ghost shows = { λ _. refl };

    #[tactic(auto, unfolding(crate::specs::Names::all_operations))]
    fn all() -> &'static [WcOp] {
        &[
            WcOp::Send,
            WcOp::Write,
            WcOp::Read,
            WcOp::CmpSwap,
            WcOp::FetchAdd,
            WcOp::Bind,
            WcOp::FastReg,
            WcOp::LocalInv,
            WcOp::Recv,
            WcOp::RecvImm,
        ]
    }
}

/// How a request ended.
impl Named for WcStatus {
    ghost use Rattle.ca_base.specs.Spelling.{status_text};
    ghost use Rattle.ca_trace_lex.specs.Names.{all_statuses};

    ghost text = { status_text };

    ghost all = { all_statuses };

    ghost shows = { λ _. refl };

    #[tactic(auto, unfolding(crate::specs::Names::all_statuses))]
    fn all() -> &'static [WcStatus] {
        &[
            WcStatus::Success,
            WcStatus::LocalLength,
            WcStatus::LocalProtection,
            WcStatus::Flushed,
            WcStatus::MemoryManagement,
            WcStatus::BadResponse,
            WcStatus::RemoteInvalidRequest,
            WcStatus::RemoteAccess,
            WcStatus::RemoteOperation,
            WcStatus::RetryExceeded,
            WcStatus::RnrRetryExceeded,
        ]
    }
}

/// Why a bind, a fast registration or an invalidation is refused.
impl Named for OpRefusal {
    ghost use Rattle.ca_base.specs.Spelling.{op_refusal_text};
    ghost use Rattle.ca_trace_lex.specs.Names.{all_causes};

    ghost text = { op_refusal_text };

    ghost all = { all_causes };

    ghost shows = { λ _. refl };

    #[tactic(auto, unfolding(crate::specs::Names::all_causes))]
    fn all() -> &'static [OpRefusal] {
        &[
            OpRefusal::Region(RegionError::Empty),
            OpRefusal::Region(RegionError::OutsideBuffer),
            OpRefusal::Region(RegionError::RightsNeedLocalWrite),
            OpRefusal::Region(RegionError::NotFree),
            OpRefusal::Region(RegionError::BadPages),
            OpRefusal::Region(RegionError::NotValid),
            OpRefusal::Region(RegionError::KeyDiffers),
            OpRefusal::Region(RegionError::NotFastRegistered),
            OpRefusal::Region(RegionError::WindowsBound),
            OpRefusal::Region(RegionError::Vacant),
            OpRefusal::Window(WindowError::NoWindow),
            OpRefusal::Window(WindowError::WrongType),
            OpRefusal::Window(WindowError::RegionNotValid),
            OpRefusal::Window(WindowError::NoBindRight),
            OpRefusal::Window(WindowError::RightsNeedLocalWrite),
            OpRefusal::Window(WindowError::OutsideRegion),
            OpRefusal::Window(WindowError::StillBound),
            OpRefusal::Window(WindowError::Empty),
            OpRefusal::Window(WindowError::Type1),
            OpRefusal::Window(WindowError::NotBound),
            OpRefusal::Window(WindowError::KeyDiffers),
            OpRefusal::Window(WindowError::WrongQueue),
        ]
    }
}

/// Why a verb is refused.
impl Named for Refusal {
    ghost use Rattle.ca_trace_print.specs.ca_model.Answers.{refusal_text};
    ghost use Rattle.ca_trace_lex.specs.Names.{all_refusals};

    ghost text = { refusal_text };

    ghost all = { all_refusals };

    ghost shows = { λ _. refl };

    #[tactic(auto, unfolding(crate::specs::Names::all_refusals))]
    fn all() -> &'static [Refusal] {
        &[
            Refusal::NoSuch,
            Refusal::NoDomain,
            Refusal::DomainTaken,
            Refusal::DomainInUse,
            Refusal::SlotTaken,
            Refusal::Empty,
            Refusal::OutsideBuffer,
            Refusal::RightsNeedLocalWrite,
            Refusal::WindowsBound,
            Refusal::CqTooSmall,
            Refusal::CqInUse,
            Refusal::SrqInUse,
            Refusal::HasSrq,
            Refusal::TooLong,
            Refusal::QueueState,
            Refusal::QueueFull,
            Refusal::Transition,
            Refusal::OutOfRange(Field::Peer),
            Refusal::OutOfRange(Field::Incarnation),
            Refusal::OutOfRange(Field::Psn),
            Refusal::OutOfRange(Field::Mtu),
            Refusal::OutOfRange(Field::RnrCode),
            Refusal::OutOfRange(Field::Retry),
            Refusal::OutOfRange(Field::RnrRetry),
            Refusal::OutOfRange(Field::Reads),
            Refusal::OutOfRange(Field::Depth),
            Refusal::OutOfRange(Field::Capacity),
            Refusal::OutOfRange(Field::Pages),
            Refusal::OutOfRange(Field::Length),
            Refusal::OutOfRange(Field::List),
            Refusal::OutOfRange(Field::Kind),
        ]
    }
}

/// Why a packet was dropped.
impl Named for Drop1 {
    ghost use Rattle.ca_trace_print.specs.ca_model.Answers.{drop_text};
    ghost use Rattle.ca_trace_lex.specs.Names.{all_drops};

    ghost text = { drop_text };

    ghost all = { all_drops };

    ghost shows = { λ _. refl };

    #[tactic(auto, unfolding(crate::specs::Names::all_drops))]
    fn all() -> &'static [Drop1] {
        &[
            Drop1::Wire(WireError::TooShort),
            Drop1::Wire(WireError::Version),
            Drop1::Wire(WireError::Opcode),
            Drop1::Wire(WireError::Length),
            Drop1::Wire(WireError::Pad),
            Drop1::Partition,
            Drop1::Queue,
            Drop1::State,
            Drop1::Stale,
            Drop1::Unsaved,
        ]
    }
}

/// What the weather does to a packet.
impl InWord for Lot {
    ghost use Rattle.ca_trace_lex.specs.Names.{lot_in};

    ghost reading = { lot_in };

    #[tactic(auto, unfolding(crate::specs::Names::lot_in))]
    fn in_word(word: &[u8]) -> Result<Lot, Stop> {
        if is_name(word, "pass") {
            return Ok(Lot::Pass);
        }
        if is_name(word, "lose") {
            return Ok(Lot::Lose);
        }
        let mut parts = Pieces::of(b':', word);
        let name = parts.take_word()?;
        let count = parts.take()?;
        if is_name(name, "repeat") {
            Ok(Lot::Repeat(count))
        } else if is_name(name, "hold") {
            Ok(Lot::Hold(count))
        } else {
            Err(Stop::Outside)
        }
    }
}
