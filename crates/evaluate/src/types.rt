// What is found where an expression or a test stands.
use interval::{EvalResult, Faults, Interval};
use state::Abstract;

// What a program's expressions are worked out over.
#[derive(Clone, Copy)]
pub struct Code<'a> {
    // The command's bytes.
    pub text: &'a [u8],
    // How many elements each array has.
    pub lengths: &'a [u64],
}

// What an expression comes to, and where it ends.
#[derive(Clone, Copy, PartialEq, Eq, Debug)]
pub struct Evaluated {
    pub result: EvalResult,
    pub end: usize,
}

// What is known if a test holds, and if it does not, what may go wrong in it, and where it ends.
#[derive(Clone, Copy)]
pub struct Ways {
    pub yes: Abstract,
    pub no: Abstract,
    pub faults: Faults,
    pub end: usize,
}

// A side of a comparison: the variable that it is, if it is one, and the interval in which it lies.
#[derive(Clone, Copy, PartialEq, Eq, Debug)]
pub struct Side {
    pub variable: Option<usize>,
    pub interval: Interval,
}

// How two expressions are compared. It says which test of the language it is, and so no closure stands for it.
#[derive(Clone, Copy, PartialEq, Eq, Debug)]
pub enum Comparison {
    Less,
    Equal,
}
