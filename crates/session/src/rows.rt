// A row that a command shows.
ghost use Rattle.std.specs.Prelude.{◌≡◌, ◌⊎◌, ◌++◌, take, IfOk};
ghost use Rattle.session.specs.Rows.{row_bytes, Words};

use scanner::read_number;
use std::alloc::{AllocError, Global};
use tables::ROW;

#[derive(Clone, Copy, PartialEq, Eq, Debug)]
pub enum Row {
    // A statement that can go wrong, and how: the byte that the machine shows, since a row stands for any nine bytes.
    Alarm { stmt: u64, kind: u8 },
    // The ends of a variable's interval.
    Bounds { lo: u64, hi: u64 },
}

// The bytes of both, one behind the other.
fn joined(heap: Global, first: &[u8], second: &[u8]) -> Result<Vec<u8>, AllocError>
    ensures { IfOk result (λ v. v.items ≡ first.now ++ second.now) }
{
    let mut both = Vec::from_slice(heap, first)?;
    both.extend_from_slice(second)?;
    Ok(both)
}

impl Row {
    // The bytes in which the machine shows it.
    pub fn bytes(self, heap: Global) -> Result<Vec<u8>, AllocError>
        ensures { IfOk result (λ v. v.items ≡ row_bytes self) }
    {
        match self {
            Row::Alarm { stmt, kind } => joined(heap, &stmt.to_be_bytes(), &[kind]),
            Row::Bounds { lo, hi } => joined(heap, &lo.to_be_bytes(), &hi.to_be_bytes()),
        }
    }
}

// The row in the first `n` bytes, as many as `Told::Shows` tells.
pub fn read_row(out: &[u8; ROW], n: u64) -> Row
    requires { (n ≡ 9) ⊎ (n ≡ 16) }
    ensures bytes { row_bytes result ≡ take n out.now }
    ensures words { Words result }
{
    let first = read_number(out, 0).unwrap();
    if n == 9 {
        return Row::Alarm {
            stmt: first,
            kind: out[8],
        };
    }
    Row::Bounds {
        lo: first,
        hi: read_number(out, 8).unwrap(),
    }
}
