ghost use Rattle.std.specs.Prelude.{◌≤◌, length};
ghost use Rattle.ca_base.specs.declared.limits.TheConstants.{MAX_PIECES};
ghost use Rattle.ca_model.specs.Requests.{list_of};
ghost use Rattle.ca_model.specs.machine.Sound.{CanBeMade, HasFewPieces};

use ca_base::SendOp;
use ca_model::{Event, Verb};

/// Says of an event's value that it can be made: the list of what it posts has as few pieces as its type allows. It does
/// nothing.
pub fn lists_fit(event: &Event)
    ensures { CanBeMade event.now }
{
    if let Event::Verb { verb, .. } = event {
        verb_fits(verb);
    }
}

/// The same of a verb.
pub(crate) fn verb_fits(verb: &Verb)
    ensures { HasFewPieces verb.now }
{
    match verb {
        Verb::PostSend { request, .. } => operation_fits(&request.op),
        Verb::PostRecv { request, .. } | Verb::PostSrq { request, .. } => {
            let _pieces = request.list.as_slice();
        }
        _ => {}
    }
}

/// The same of what a request asks for.
fn operation_fits(op: &SendOp)
    ensures { length (list_of op.now) ≤ MAX_PIECES }
{
    match op {
        SendOp::Send { list }
        | SendOp::SendImm { list, .. }
        | SendOp::SendInv { list, .. }
        | SendOp::Write { list, .. }
        | SendOp::WriteImm { list, .. }
        | SendOp::Read { list, .. }
        | SendOp::CmpSwap { list, .. }
        | SendOp::FetchAdd { list, .. } => {
            let _pieces = list.as_slice();
        }
        SendOp::Bind1 { .. }
        | SendOp::Bind2 { .. }
        | SendOp::FastReg { .. }
        | SendOp::LocalInv { .. } => {}
    }
}
