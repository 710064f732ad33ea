ghost use Rattle.std.specs.Prelude.{◌≡◌, ◌<◌, ℕ, [], Some, length};
ghost use Rattle.ca_adapter_parts.specs.HeldView.{holding};
ghost use Rattle.ca_parts.specs.Rows.{view_of};
ghost use Rattle.ca_verbs_taking.specs.Hands.{IsEmpty};
ghost use Rattle.ca_verbs.specs.Kept.{AreFew, few_prop, kept_of, told_by};

use ca_adapter_parts::Held;
use ca_model::{Entry, PartName};
use ca_parts::PartPass;
use ca_verbs_machine::SharedPart;
use ca_verbs_taking::InHand;

/// A caller's token. It keeps the entries of the calls that were made with it, and room for what is in hand during a call.
///
/// A pass that is dropped keeps its share, so the fabric can then not be closed.
#[derive(Drop)]
pub struct Pass {
    pub(crate) parts: PartPass<SharedPart>,
    pub(crate) held: Held,
    pub(crate) names: Vec<PartName>,
    pub(crate) out: Vec<InHand<SharedPart>>,
    pub(crate) entries: Vec<Entry>,
    pub(crate) latest: Option<usize>,
    ghost idle: { (view_of parts).hand ≡ [] },
    ghost empty: { IsEmpty (holding held) },
    ghost none: { out.items ≡ [] },
    ghost kept: { kept_of entries.items ≡ told_by (view_of parts).entries },
    ghost few: { AreFew (view_of parts) } by { few_prop (view_of parts) },
    ghost within: { (i : ℕ) → latest ≡ Some i → i < length entries.items },
}

/// What a call answers that was made: the number of the entries before its own.
#[derive(Clone, Copy)]
pub struct Receipt {
    pub stamp: u64,
}
