// Programs that are known to be valid: the bytes of a command that loads one.

#![tactic(auto)]

mod command;
mod held;

pub use command::load_command;
pub use held::ValidProgram;
