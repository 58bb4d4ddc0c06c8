// What a running program holds, and how its run ends.

use program::Fault;

// The variables' values, the arrays' elements, and how many inputs have been read.
#[derive(Drop)]
pub struct State {
    pub values: Vec<u64>,
    pub arrays: Vec<Vec<u64>>,
    pub read: usize,
}

// What stays the same while a program runs: its bytes, what comes in, and how often each loop may go round.
#[derive(Clone, Copy)]
pub struct Task<'a> {
    pub text: &'a [u8],
    pub inputs: &'a [u64],
    pub rounds: u64,
}

// Why an expression or a test comes to nothing: a fault, or bytes that are none.
#[derive(Clone, Copy)]
pub enum EvalError {
    Fault(Fault),
    NoProgram,
}

// Why a run stops before its end: a fault at a statement, no more rounds, or bytes that are no statement.
#[derive(Clone, Copy)]
pub enum Stop {
    Fault { stmt: u64, fault: Fault },
    OutOfRounds,
    NoProgram,
}

// An expression's value, and where the expression ends. It and the two behind it share no function, so each says in its own words what it holds.
#[derive(Clone, Copy)]
pub struct Value {
    pub value: u64,
    pub end: usize,
}

// Whether a test holds, and where the test ends.
#[derive(Clone, Copy)]
pub struct Verdict {
    pub holds: bool,
    pub end: usize,
}

// Two expressions' values, and where the second expression ends.
#[derive(Clone, Copy)]
pub struct Pair {
    pub first: u64,
    pub second: u64,
    pub end: usize,
}

// How a program's run went: to its end, in a state; to a fault of a kind at a statement; or it used up its rounds. The kind is its number, as a
// row has it: a report may be asked for a fault of any.
#[derive(Drop)]
pub enum Outcome {
    Finished(State),
    Fault { stmt: u64, kind: u64 },
    OutOfRounds,
}

// Why nothing was run: there was no memory, or the text loads no program.
#[derive(Clone, Copy)]
pub enum RunError {
    NoMemory,
    NoProgram,
}
