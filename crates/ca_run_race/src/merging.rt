ghost use Rattle.std.specs.Prelude.{◌≡◌, ◌≤◌, ℕ, IfOk, length};
ghost use Rattle.ca_run_race.specs.Workers.{AreBoth, IsWorkOf};
ghost use Rattle.ca_script.specs.Script.{ScriptValue};
ghost use Rattle.ca_verbs.specs.Passes.{IsOf};

use crate::work::Work;
use ca_base::Memory;
use ca_verbs::Fabric;

/// What some workers and others did, as the work of all of them. Want of memory is the only refusal.
pub(crate) fn merge(fabric: &Fabric, lower: Work, upper: Work) -> Result<Work, Memory>
    requires lower { IsOf fabric.now lower.pass }
    requires upper { IsOf fabric.now upper.pass }
    requires count { length lower.done.items ≡ length upper.done.items }
    ensures { (s : ScriptValue) (first middle end workers : ℕ) → first ≤ middle → middle ≤ end
        → IsWorkOf fabric.now s first middle workers lower → IsWorkOf fabric.now s middle end workers upper
        → IfOk result (λ both. IsWorkOf fabric.now s first end workers both) }
{
    let Work { mut pass, mut done } = lower;
    let Work {
        pass: other,
        done: more,
    } = upper;
    if fabric.join(&mut pass, other).is_err() {
        return Err(Memory);
    }
    add_done(&mut done, more.as_slice());
    Ok(Work { pass, done })
}

/// Takes over how many lines others have done, of each consumer that has done none.
fn add_done(done: &mut Vec<usize>, more: &[usize])
    requires { length done.old.items ≡ length more.now }
    ensures { AreBoth done.old.items more.now done.new.items }
{
    for consumer in 0..more.len() {
        if done[consumer] == 0 {
            done[consumer] = more[consumer];
        }
    }
}
