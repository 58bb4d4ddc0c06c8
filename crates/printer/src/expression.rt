// Expressions printed from their bytes. The first byte is matched as a number: a type of kinds between would be a second match over the same numbers.
ghost use Rattle.std.specs.Prelude.{◌≡◌, OnOk};
ghost use Rattle.program.specs.Kinds.{operator_code};
ghost use Rattle.printer.specs.Text.{sign_text};
ghost use Rattle.printer.specs.Printing.{ExprPrinted};

use crate::write::Printer;
use program::Operator;
use std::alloc::AllocError;

// An operator's sign, with spaces around it. No Display, since it is put as it is.
fn sign(op: Operator) -> &'static str
    ensures { result.now ≡ sign_text (operator_code op) }
{
    match op {
        Operator::Sum => " + ",
        Operator::Difference => " - ",
        Operator::Product => " * ",
        Operator::Quotient => " / ",
        Operator::Remainder => " % ",
    }
}

impl Printer<'_> {
    // The next expression, of at most `left` bytes. As an operand it stands in brackets, unless it is an atom.
    pub fn expr(&mut self, left: usize, operand: bool) -> Result<(), AllocError>
        ensures { OnOk result (ExprPrinted left operand self.old self.new) }
    {
        if left == 0 {
            return Ok(());
        }
        match self.byte() {
            0 => {
                let n = self.word();
                self.number("", n)
            }
            1 => {
                let x = self.byte();
                self.number("x", u64::from(x))
            }
            2 => {
                let op = self.byte();
                self.bracket("(", operand)?;
                self.expr(left - 1, true)?;
                self.put(sign(Operator::from(u64::from(op))))?;
                self.expr(left - 1, true)?;
                self.bracket(")", operand)
            }
            3 => {
                let r = self.byte();
                self.number("row", u64::from(r))?;
                self.put("[")?;
                self.expr(left - 1, false)?;
                self.put("]")
            }
            _ => Ok(()),
        }
    }
}
