// Pieces of the encoding.
ghost use Rattle.std.specs.Prelude.{◌≡◌, ◌≤◌, vec_len};
ghost use Rattle.parser.specs.Reading.{ReadsOn, ReadsExpr};

use crate::parser::{Array, Parser};
use grammar::Operator;
use std::alloc::{AllocError, Global};

// A number as eight bytes, the highest first.
pub fn push_number(out: &mut Vec<u8>, n: u64) -> Result<(), AllocError>
    ensures { vec_len out.old ≤ vec_len out.new }
{
    out.extend_from_slice(&n.to_be_bytes())
}

// The number of variables, the number of arrays and their lengths.
pub fn header(heap: Global, variables: u8, arrays: &[Array]) -> Result<Vec<u8>, AllocError> {
    let mut out = Vec::new(heap);
    out.push(variables)?;
    push_number(&mut out, arrays.len() as u64)?;
    for array in arrays {
        push_number(&mut out, array.length)?;
    }
    Ok(out)
}

impl<'a> Parser<'a> {
    // The head of a numbered statement that begins at a place: its tag and its number. Each tag stands once, where its statement is written.
    pub fn write_head(&mut self, tag: u8, place: usize) -> Result<(), AllocError>
        ensures on { ReadsOn self.old self.new }
        ensures stays { self.new.at ≡ self.old.at }
    {
        self.places.push(place)?;
        self.program.push(tag)?;
        let number = self.places.len() as u64;
        push_number(&mut self.program, number)
    }

    // An operator, before its operands that stand from `start` on.
    pub fn write_operator(&mut self, start: usize, operator: Operator) -> Result<(), AllocError>
        requires { start ≤ vec_len self.old.program }
        ensures on { ReadsExpr self.old self.new }
        ensures stays { self.new.at ≡ self.old.at }
    {
        match operator {
            Operator::Arithmetic(op) => {
                self.program.insert(start, op.code())?;
                self.program.insert(start, 2)?;
            }
            Operator::Less => self.program.insert(start, 0)?,
            Operator::Equal => self.program.insert(start, 1)?,
            Operator::And => self.program.insert(start, 3)?,
            Operator::Or => self.program.insert(start, 4)?,
        }
        Ok(())
    }
}
