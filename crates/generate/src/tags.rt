// What expressions, tests and statements are: the first byte of each is its place among these.
use program::Operator;

// The first bytes of an expression.
#[derive(Clone, Copy)]
pub(crate) enum Term {
    Number(u64),
    Variable(u8),
    Operation(Operator),
    Element(u8),
}

#[derive(Clone, Copy)]
pub(crate) enum Test {
    Less,
    Equal,
    Not,
    And,
    Or,
}

#[derive(Clone, Copy)]
pub(crate) enum Statement {
    Nothing,
    Set,
    Store,
    Input,
    Check,
    Pair,
    Branch,
    Loop,
}
