ghost use Rattle.std.specs.Prelude.{◌≡◌, ◌∷◌, IfErr, IfNone, IfOk, None, OnOk, Some};
ghost use Rattle.std.specs.List.{AllByRecursion};
ghost use Rattle.ca_base.specs.Sight as sights;
ghost use Rattle.ca_grant.specs.Reaching.{IsFound};
ghost use Rattle.ca_qp_rows.specs.Asks.{CanJudge, IsGranted};

use ca_base::{Ask, Denial, DeniedAsk, Span};
use ca_grant::Reach;

/// Judges an ask, by what `check` said of it, and those behind it: the first that is denied, or else what was found of
/// this one. One access alone needs to be judged no more.
#[inline(always)]
pub fn judge_all<'a, R: Reach>(
    reach: &R,
    ask: &Ask,
    checked: &'a Result<Span, Denial>,
    behind: &[Ask],
) -> Result<&'a Span, DeniedAsk>
    requires judges { CanJudge R.judges reach.now behind.now }
    requires denied { IfErr checked.now (λ d. sights.denial_in (R.sight reach.now) ask.now ≡ Some d) }
    requires found { IfOk checked.now (IsFound (R.sight reach.now) ask.now) }
    ensures denied { IfErr result (λ d. sights.first_denied (R.sight reach.now) (ask.now ∷ behind.now) ≡ Some d) }
    ensures none { OnOk result (sights.first_denied (R.sight reach.now) (ask.now ∷ behind.now) ≡ None) }
    ensures allowed { OnOk result (AllByRecursion (IsGranted (R.sight reach.now)) (ask.now ∷ behind.now)) }
    ensures found { IfOk result (λ f. IsFound (R.sight reach.now) ask.now f.now) }
{
    match checked {
        Err(denial) => Err(DeniedAsk {
            ask: *ask,
            denial: *denial,
        }),
        Ok(found) => match first_denied(reach, behind) {
            Some(denied) => Err(denied),
            None => Ok(found),
        },
    }
}

/// The first ask that is denied. None comes exactly where all are allowed.
pub fn first_denied<R: Reach>(reach: &R, asks: &[Ask]) -> Option<DeniedAsk>
    requires { CanJudge R.judges reach.now asks.now }
    ensures first { result ≡ sights.first_denied (R.sight reach.now) asks.now }
    ensures allowed { IfNone result (AllByRecursion (IsGranted (R.sight reach.now)) asks.now) }
{
    for ask in asks {
        if let Err(denial) = reach.check(ask) {
            return Some(DeniedAsk { ask: *ask, denial });
        }
    }
    None
}
