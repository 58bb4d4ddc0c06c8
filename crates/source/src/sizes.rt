// Whether an encoded program is valid, and has so many statements, variables and arrays.
ghost use Rattle.std.specs.Prelude.{◌≡◌, true, length, IfSome, IfOk};
ghost use Rattle.program.specs.Validity.{stmt_numbers};
ghost use Rattle.reader.specs.Request.{Loads};
ghost use Rattle.source.specs.Valid.{Encodes};
ghost use Rattle.source.specs.Sizes.{HasSizes};

use program::{FIRST, LOOPS, NESTING};
use reader::{Header, Request, read_command};
use scanner::scan_stmt;
use std::alloc::{AllocError, Global};
use valid::load_command;

// The header of a valid program.
fn header_of(command: &[u8]) -> Option<Header>
    ensures { IfSome result (λ h. Loads command.now h) }
{
    match read_command(command)? {
        Request::Load(header) => Some(header),
        _ => None,
    }
}

// How many numbered statements a program has.
fn count_statements(command: &[u8], header: Header) -> Option<u64>
    ensures { IfSome result (λ n. (l : Loads command.now header) → n ≡ length (stmt_numbers l.program.body)) }
{
    if header.body == 0 {
        return None;
    }
    let last = scan_stmt(
        command,
        header.body,
        header.vars,
        header.arrays,
        FIRST,
        NESTING,
        LOOPS,
    )?;
    last.next.checked_sub(FIRST)
}

// The numbers of statements, variables and arrays.
#[derive(Clone, Copy, PartialEq, Eq)]
pub struct Sizes {
    pub statements: u64,
    pub vars: u64,
    pub arrays: u64,
}

fn sizes_of(command: &[u8]) -> Option<Sizes>
    ensures { IfSome result (λ s. HasSizes command.now s) }
{
    let header = header_of(command)?;
    let statements = count_statements(command, header)?;
    Some(Sizes {
        statements,
        vars: header.vars,
        arrays: header.arrays,
    })
}

// Whether the bytes are a valid program of these sizes.
pub fn is_valid(heap: Global, program: &[u8], sizes: Sizes) -> Result<bool, AllocError>
    ensures { IfOk result (λ b. b ≡ true → Encodes program.now sizes.statements sizes.vars sizes.arrays) }
{
    let command = load_command(heap, program)?;
    let Some(found) = sizes_of(command.as_slice()) else {
        return Ok(false);
    };
    Ok(found == sizes)
}

#[cfg(test)]
mod tests {
    use std::test::Fail;
    use valid::load_command;

    // A command is made, and has its first byte before the program's.
    #[test]
    fn command_of_a_program(rt: HostRuntime) -> Result<(), Fail> {
        let command = load_command(rt.alloc(), &[7, 8])?;
        assert!(rt; command.len() == 3);
        assert!(rt; command.as_slice().first() == Some(&1));
        Ok(())
    }
}
