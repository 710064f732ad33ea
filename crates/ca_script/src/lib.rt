//! Scripts: the text of a script becomes the script that it means, or is refused at its first wrong line with the first
//! cause there.
//!
//! To the layer above it promises both ways: a text that means a script is read as exactly this script, and any other is
//! refused with exactly that line and that cause. The grammar stands as tables of rows in specs/, here for the setup and
//! in `ca_script_lines` for the lines of consumers.
//!
//! Source: this profile's choice; scripts are no matter of the InfiniBand Architecture Specification.
#![tactic(auto)]

mod draft;
mod line;
mod read;
mod room;
mod script;
mod script_error;
mod setting;
mod setup;
mod setup_line;

pub use ca_mailbox::{Weather, WeatherLine, WeatherList};
pub use ca_script_lines::ca_script_lex::ScriptCause;
pub use ca_script_lines::{Line, What};
pub use read::read_script;
pub use script::{Consumers, Lines, Script};
pub use script_error::ScriptError;
pub use setup::plain_adapter;
