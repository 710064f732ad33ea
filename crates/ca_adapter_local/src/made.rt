ghost use Rattle.std.specs.Prelude.{◌≡◌, ◌+◌, ◌≤◌, ◌++◌, [], ◌∷◌};
ghost use Rattle.std.specs.Option.{option_map_or};
ghost use Rattle.ca_model.specs.declared.mark.Mark.TheVariants as told;

use ca_base::WindowCount;
use ca_localops::Marks2;
use ca_model::{Mark, Marks};

/// What a local operation made: what it revoked and granted, and how many type 2 windows are bound to its queue pair
/// now.
#[derive(Drop)]
pub(crate) struct Made {
    pub(crate) marks: Marks2,
    pub(crate) windows: WindowCount,
}

/// How many marks a local operation that succeeds has at most: Revoked, Granted, and that of its completion.
pub(crate) const SUCCESS_MARKS: u32 = 3;

/// Adds what an operation at an adapter revoked and granted, in the room for two marks.
pub(crate) fn tell(made: Marks2, adapter: u8, marks: &mut Marks)
    requires { 2 ≤ marks.old.room }
    ensures marks { marks.new.marks ≡ marks.old.marks
        ++ (option_map_or (λ key. told.Revoked adapter key ∷ []) made.revoked []
        ++ option_map_or (λ g. told.Granted g ∷ []) made.granted []) }
    ensures room { marks.old.room ≤ marks.new.room + 2 }
{
    if let Some(key) = made.revoked {
        marks.push(Mark::Revoked { adapter, key });
    }
    if let Some(grant) = made.granted {
        marks.push(Mark::Granted(grant));
    }
}
