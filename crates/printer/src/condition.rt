// Tests printed from their bytes. The first byte is matched as a number, as that of an expression.
ghost use Rattle.std.specs.Prelude.{OnOk};
ghost use Rattle.printer.specs.Printing.{SidesPrinted, TestPrinted, TestsPrinted};

use crate::write::Printer;
use std::alloc::AllocError;

impl Printer<'_> {
    // The next two expressions, with a word between them.
    fn sides(&mut self, left: usize, word: &str) -> Result<(), AllocError>
        ensures { OnOk result (SidesPrinted left word.now self.old self.new) }
    {
        self.expr(left, false)?;
        self.put(word)?;
        self.expr(left, false)
    }

    // The next test, of at most `left` bytes.
    #[cycle(conditions)]
    pub fn test(&mut self, left: usize) -> Result<(), AllocError>
        ensures { OnOk result (TestPrinted left self.old self.new) }
    {
        if left == 0 {
            return Ok(());
        }
        match self.byte() {
            0 => self.sides(left - 1, " < "),
            1 => self.sides(left - 1, " = "),
            2 => {
                self.put("not (")?;
                self.test(left - 1)?;
                self.put(")")
            }
            3 => self.tests(left - 1, ") and ("),
            4 => self.tests(left - 1, ") or ("),
            _ => Ok(()),
        }
    }

    // The next two tests in brackets, with a word between them.
    #[cycle(conditions)]
    fn tests(&mut self, left: usize, word: &str) -> Result<(), AllocError>
        ensures { OnOk result (TestsPrinted left word.now self.old self.new) }
    {
        self.put("(")?;
        self.test(left)?;
        self.put(word)?;
        self.test(left)?;
        self.put(")")
    }
}
