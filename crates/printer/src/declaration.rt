// The declarations of a program's variables and arrays.
ghost use Rattle.std.specs.Prelude.{◌≡◌, OnOk};
ghost use Rattle.printer.specs.Text.{separator as separator_text, line_end, variables_line, arrays_line};
ghost use Rattle.printer.specs.Printing.{Prints};

use crate::write::Printer;
use std::alloc::AllocError;

// What stands before the declared word with this index.
fn separator(first: &'static str, i: u64) -> &'static str
    ensures { result.now ≡ separator_text first.now i }
{
    if i == 0 { first } else { ", " }
}

impl Printer<'_> {
    // The end of a line, where something was declared.
    fn end_line(&mut self, declared: u64) -> Result<(), AllocError>
        ensures { OnOk result (Prints 0 (line_end declared) self.old self.new) }
    {
        self.put(if declared == 0 { "" } else { "\n" })
    }

    // So many variables.
    pub fn variables(&mut self, count: u64) -> Result<(), AllocError>
        ensures { OnOk result (Prints 0 (variables_line count) self.old self.new) }
    {
        for i in 0..count {
            self.put(separator("names ", i))?;
            self.number("x", i)?;
        }
        self.end_line(count)
    }

    // Arrays of these lengths.
    pub fn arrays(&mut self, lengths: &[u64]) -> Result<(), AllocError>
        ensures { OnOk result (Prints 0 (arrays_line lengths.now) self.old self.new) }
    {
        for (i, n) in lengths.iter().enumerate() {
            self.put(separator("rows ", i as u64))?;
            self.number("row", i as u64)?;
            self.number("[", *n)?;
            self.put("]")?;
        }
        self.end_line(lengths.len() as u64)
    }
}
