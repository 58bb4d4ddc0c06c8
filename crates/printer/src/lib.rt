// Prints encoded programs as text, which reads back as the same program.

#![tactic(auto)]

ghost use Rattle.std.specs.Prelude.{◌≡◌, Some, IfOk, string_bytes};
ghost use Rattle.reader.specs.Request.{Loads};
ghost use Rattle.printer.specs.Whole.{LoadedText, ProgramPrinted, error_words};
ghost use Rattle.printer.specs.declared.PrintError.TheVariants.{NoMemory};

mod condition;
mod declaration;
mod expression;
mod statement;
mod write;

use reader::{Header, Request, read_command};
use std::alloc::{AllocError, Global};
use std::error::Error;
use std::fmt;
use valid::load_command;
use write::Printer;

/// Why nothing was printed.
#[derive(Clone, Copy, PartialEq, Eq, Debug)]
pub enum PrintError {
    /// There was no memory.
    NoMemory,
    /// The bytes are no valid program.
    NoProgram,
}

impl fmt::Display for PrintError {
    ghost output = { λ e. Some (error_words e) };

    fn fmt<W: fmt::Write>(&self, f: &mut fmt::Formatter<W>) -> fmt::Result {
        f.write_str(match self {
            PrintError::NoMemory => "out of memory",
            PrintError::NoProgram => "no program",
        })
    }
}

impl Error for PrintError {}

// By hand, since a derived one doesn't tell callers which error a `?` gives.
impl From<AllocError> for PrintError {
    ghost from_gives = { λ _ r. r ≡ NoMemory };

    fn from(_e: AllocError) -> PrintError {
        PrintError::NoMemory
    }
}

// The text of the program that a command loads.
fn print_loaded(heap: Global, text: &[u8], header: &Header) -> Result<String, AllocError>
    requires { Loads text.now header.now }
    ensures { IfOk result (λ s. LoadedText text.now header.now (string_bytes s)) }
{
    let mut printer = Printer::new(heap, text, header.body);
    printer.variables(header.vars)?;
    printer.arrays(header.lengths())?;
    printer.stmt(text.len(), 0)?;
    printer.put("\n")?;
    Ok(printer.out)
}

/// The text of an encoded program (the bytes behind the first one of the command that loads it).
pub fn print_program(heap: Global, program: &[u8]) -> Result<String, PrintError>
    ensures { ProgramPrinted program.now result }
{
    let command = load_command(heap, program)?;
    let text = command.as_slice();
    let Some(request) = read_command(text) else {
        return Err(PrintError::NoProgram);
    };
    match request {
        Request::Load(header) => Ok(print_loaded(heap, text, &header)?),
        _ => Err(PrintError::NoProgram),
    }
}
