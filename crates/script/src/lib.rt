// Session files: commands one after another, each behind its length. And bytes in hex, as answers are printed.

#![tactic(auto)]

mod digits;
mod split;

pub use digits::hex_text;
pub use split::{ScriptError, split_commands};
