// The commands of a session file.
ghost use Rattle.std.specs.Prelude.{◌≡◌, Some};
ghost use Rattle.script.specs.Script.{Begins, Splits, error_words};
ghost use Rattle.script.specs.declared.split.ScriptError.TheVariants.{NoMemory};

use scanner::read_number;
use std::alloc::{AllocFailed, Global};
use std::error::Error;
use std::fmt;

#[derive(Clone, Copy, PartialEq, Eq, Debug)]
pub enum ScriptError {
    // The file ends within a length or a command.
    Damaged,
    NoMemory,
}

impl fmt::Display for ScriptError {
    ghost output = { λ e. Some (error_words e) };

    fn fmt<W: fmt::Write>(&self, f: &mut fmt::Formatter<W>) -> fmt::Result {
        f.write_str(match self {
            ScriptError::Damaged => "damaged: it ends within a command",
            ScriptError::NoMemory => "out of memory",
        })
    }
}

impl Error for ScriptError {}

// By hand, since a derived one doesn't tell callers which error a `?` gives.
impl<T: Drop> From<AllocFailed<T>> for ScriptError {
    ghost from_gives = { λ _ e. e ≡ NoMemory };

    fn from(_e: AllocFailed<T>) -> ScriptError {
        ScriptError::NoMemory
    }
}

// The first command and what stands behind it.
fn first_command(file: &[u8]) -> Option<(&[u8], &[u8])>
    ensures { Begins file.now result }
{
    let size = read_number(file, 0)?;
    file[8..].split_at_checked(size as usize)
}

// All commands, in order.
pub fn split_commands(heap: Global, file: &[u8]) -> Result<Vec<&[u8]>, ScriptError>
    ensures { Splits file.now result }
{
    let mut commands = Vec::new(heap);
    let mut rest = file;
    while !rest.is_empty() {
        let (command, behind) = first_command(rest).ok_or(ScriptError::Damaged)?;
        commands.push(command)?;
        rest = behind;
    }
    Ok(commands)
}
