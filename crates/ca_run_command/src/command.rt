use ca_base::{DomainId, Items, Memory};

/// What the program is to do.
#[derive(Drop)]
pub enum Command {
    /// Read a script, work it in its order, and write the text of its history.
    Script,
    /// Read a script, race it with so many workers, from 1 to 16, and write the text of its history.
    Race(u32),
    /// Work a script in its order as `Script` does, and then write the replies that the group gets in its lone run. It has
    /// from 1 to 128 domains, all distinct.
    Alone(Items<DomainId>),
    /// Work the script that is made of this seed, and write a summary. Nothing is read.
    Make(u64),
}

/// Why words give no command.
#[derive(Clone, Copy)]
pub enum WordsError {
    /// They are none.
    Usage,
    /// Out of memory.
    Memory,
}

impl From<Memory> for WordsError {
    ghost use Rattle.std.specs.Prelude.{◌≡◌};
    ghost use Rattle.ca_run_command.specs.declared.command.WordsError.TheVariants as errors;

    ghost from_gives = { λ m e. e ≡ errors.Memory };

    fn from(_: Memory) -> WordsError {
        WordsError::Memory
    }
}
