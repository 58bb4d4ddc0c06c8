// Statements printed from their bytes, a line each. The first byte is matched as a number, as that of an expression.
ghost use Rattle.std.specs.Prelude.{◌≡◌, ◌+◌, ◌^◌, ◌<◌, [], slice_index, OnOk};
ghost use Rattle.printer.specs.Text.{deeper as deeper_level};
ghost use Rattle.printer.specs.Printing.{Passes, StmtPrinted, BlockPrinted, FirstPrinted, ElsePrinted, AssignPrinted, StorePrinted, InputPrinted, CheckPrinted, BranchPrinted, LoopPrinted, head_size};

use crate::write::Printer;
use std::alloc::AllocError;

// Deeper levels are not indented more than this one.
const DEEPEST: usize = 16;

// The first bytes of a statement that does nothing, and of a sequence: they have no number. They are asked for ahead of the match that prints
// statements, where brackets and `else` depend on them.
const SKIP: u8 = 0;

const SEQ: u8 = 5;

// One level more.
fn deeper(depth: usize) -> usize
    ensures { result ≡ deeper_level depth }
{
    if depth < DEEPEST { depth + 1 } else { depth }
}

impl Printer<'_> {
    // The first byte of the next statement; its number, if it has one, is behind too.
    fn kind(&mut self) -> u8
        ensures value { result ≡ slice_index self.old.text.now self.old.pos }
        ensures passed { Passes (head_size result) self.old self.new }
    {
        let kind = self.peek();
        self.pass(if kind == SKIP || kind == SEQ { 1 } else { 9 });
        kind
    }

    // An assignment, behind its number.
    fn assign(&mut self, left: usize, depth: usize) -> Result<(), AllocError>
        ensures { OnOk result (AssignPrinted left depth self.old self.new) }
    {
        let x = self.byte();
        self.indent(depth)?;
        self.number("x", u64::from(x))?;
        self.put(" is ")?;
        self.expr(left, false)
    }

    // A store, behind its number.
    fn store(&mut self, left: usize, depth: usize) -> Result<(), AllocError>
        ensures { OnOk result (StorePrinted left depth self.old self.new) }
    {
        let r = self.byte();
        self.indent(depth)?;
        self.number("row", u64::from(r))?;
        self.put("[")?;
        self.expr(left, false)?;
        self.put("] is ")?;
        self.expr(left, false)
    }

    // An input, behind its number.
    fn input(&mut self, depth: usize) -> Result<(), AllocError>
        ensures { OnOk result (InputPrinted depth self.old self.new) }
    {
        let x = self.byte();
        let low = self.word();
        let high = self.word();
        self.indent(depth)?;
        self.number("x", u64::from(x))?;
        self.number(" takes ", low)?;
        self.number(" to ", high)
    }

    // A check, behind its number.
    fn check(&mut self, left: usize, depth: usize) -> Result<(), AllocError>
        ensures { OnOk result (CheckPrinted left depth self.old self.new) }
    {
        self.indent(depth)?;
        self.put("check ")?;
        self.test(left)
    }

    // The next statement on lines of its own, one level deeper; what comes behind it is indented.
    #[cycle(statements)]
    fn block(&mut self, left: usize, depth: usize) -> Result<(), AllocError>
        ensures { OnOk result (BlockPrinted left depth self.old self.new) }
    {
        self.put("\n")?;
        self.stmt(left, deeper(depth))?;
        self.put("\n")?;
        self.indent(depth)
    }

    // The first of two statements: a sequence stands in brackets.
    #[cycle(statements)]
    fn first(&mut self, left: usize, depth: usize) -> Result<(), AllocError>
        ensures { OnOk result (FirstPrinted left depth self.old self.new) }
    {
        if self.peek() != SEQ {
            return self.stmt(left, depth);
        }
        self.indent(depth)?;
        self.put("(")?;
        self.block(left, depth)?;
        self.put(")")
    }

    // The second part of a branch, if it does something.
    #[cycle(statements)]
    fn otherwise(&mut self, left: usize, depth: usize) -> Result<(), AllocError>
        ensures { OnOk result (ElsePrinted left depth self.old self.new) }
    {
        if self.peek() == SKIP {
            self.pass(1);
            return Ok(());
        }
        self.put("else")?;
        self.block(left, depth)
    }

    // A branch, behind its number.
    #[cycle(statements)]
    fn branch(&mut self, left: usize, depth: usize) -> Result<(), AllocError>
        ensures { OnOk result (BranchPrinted left depth self.old self.new) }
    {
        self.indent(depth)?;
        self.put("if ")?;
        self.test(left)?;
        self.put(" then")?;
        self.block(left, depth)?;
        self.otherwise(left, depth)?;
        self.put("end")
    }

    // A loop, behind its number.
    #[cycle(statements)]
    fn repeat(&mut self, left: usize, depth: usize) -> Result<(), AllocError>
        ensures { OnOk result (LoopPrinted left depth self.old self.new) }
    {
        self.indent(depth)?;
        self.put("while ")?;
        self.test(left)?;
        self.put(" do")?;
        self.block(left, depth)?;
        self.put("end")
    }

    // The next statement, of at most `left` bytes, indented by `depth` levels.
    #[cycle(statements)]
    pub fn stmt(&mut self, left: usize, depth: usize) -> Result<(), AllocError>
        ensures { OnOk result (StmtPrinted left depth self.old self.new) }
    {
        if left == 0 {
            return Ok(());
        }
        match self.kind() {
            SKIP => {
                self.indent(depth)?;
                self.put("nothing")
            }
            1 => self.assign(left - 1, depth),
            2 => self.store(left - 1, depth),
            3 => self.input(depth),
            4 => self.check(left - 1, depth),
            SEQ => {
                self.first(left - 1, depth)?;
                self.put(";\n")?;
                self.stmt(left - 1, depth)
            }
            6 => self.branch(left - 1, depth),
            7 => self.repeat(left - 1, depth),
            _ => Ok(()),
        }
    }
}
