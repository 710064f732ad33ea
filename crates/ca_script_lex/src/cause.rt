ghost use Rattle.std.specs.Prelude.{Some};
ghost use Rattle.ca_script_lex.specs.Causes.{cause_text};

use std::fmt;

/// Why a line of a script is refused.
#[derive(Clone, Copy, PartialEq, Eq)]
pub enum ScriptCause {
    /// The script is longer than a script may be, and this line has the first byte too many.
    TooLarge,
    /// A byte is no printable character of ASCII and no space.
    NotText,
    /// A word is none of those that may stand there.
    UnknownWord,
    /// A setup line stands where it may stand no longer.
    SetupLate,
    /// A word is not there.
    Missing,
    /// A name, flags or rights are not of their form.
    BadName,
    /// Bytes are not of their form.
    BadHex,
    /// A number or a list is not of its form.
    BadNumber,
    /// A number, a list or the setup exceeds a limit.
    OutOfLimit,
    /// A word is left over.
    Extra,
}

impl fmt::Display for ScriptCause {
    ghost output = { λ cause. Some (cause_text cause) };

    fn fmt<W: fmt::Write>(&self, f: &mut fmt::Formatter<W>) -> fmt::Result {
        f.write_str(match self {
            ScriptCause::TooLarge => "too large",
            ScriptCause::NotText => "not text",
            ScriptCause::UnknownWord => "unknown word",
            ScriptCause::SetupLate => "setup late",
            ScriptCause::Missing => "missing",
            ScriptCause::BadName => "bad name",
            ScriptCause::BadHex => "bad hex",
            ScriptCause::BadNumber => "bad number",
            ScriptCause::OutOfLimit => "out of limit",
            ScriptCause::Extra => "extra",
        })
    }
}
