// Programs behind the first byte of a command: variables, arrays, and the statement.
ghost use Rattle.std.specs.Prelude.{◌≡◌, ◌+◌, ◌≤◌, ◌&&◌, nat_le};
ghost use Rattle.scanner.specs.Bytes.{ByteAt};
ghost use Rattle.scanner.specs.Form.{Scanned};
ghost use Rattle.scanner.specs.Trees.{stmt_form};
ghost use Rattle.reader.specs.Request.{array_length, LengthsRead, HeaderRead};

use super::Header;
use program::{ARRAYS, BYTES, ELEMENTS, FIRST, LOOPS, NESTING, VARIABLES};
use scanner::{StmtEnd, byte_at, read_number, scan_stmt};

fn are_allowed(vars: u64, arrays: u64, bytes: usize) -> bool
    ensures { result ≡ (nat_le vars 64 && (nat_le arrays 16 && nat_le bytes 32768)) }
{
    vars <= VARIABLES && arrays <= ARRAYS && bytes <= BYTES
}

fn is_length(n: u64) -> bool
    ensures { result ≡ array_length n }
{
    (1..=ELEMENTS).contains(&n)
}

// The lengths of `count` arrays. One index says which bytes are read and which place is filled.
fn read_lengths(text: &[u8], pos: usize, count: usize) -> Option<[u64; 16]>
    requires { (count ≤ 16) × (pos ≤ 16) }
    ensures { LengthsRead text.now pos count result }
{
    let mut lengths = [0; 16];
    for i in 0..count {
        let n = read_number(text, pos + 8 * i)?;
        if !is_length(n) {
            return None;
        }
        lengths[i] = n;
    }
    Some(lengths)
}

// The statement of a program.
fn scan_body(text: &[u8], pos: usize, vars: u64, arrays: u64) -> Option<StmtEnd>
    requires { 1 ≤ pos }
    ensures { Scanned (stmt_form vars arrays 32 3 1) text.now pos result }
{
    scan_stmt(text, pos, vars, arrays, FIRST, NESTING, LOOPS)
}

// The program that is to be loaded.
pub fn read_header(text: &[u8]) -> Option<Header>
    requires { ByteAt text.now 0 1 }
    ensures { HeaderRead text.now result }
{
    let vars = byte_at(text, 1)? as u64;
    let arrays = read_number(text, 2)?;
    if !are_allowed(vars, arrays, text.len() - 1) {
        return None;
    }
    let lengths = read_lengths(text, 10, arrays as usize)?;
    let body = 10 + 8 * arrays as usize;
    let last = scan_body(text, body, vars, arrays)?;
    if last.end != text.len() {
        return None;
    }
    Some(Header {
        vars,
        lengths,
        arrays,
        body,
    })
}
