// Terms, tests and operators, and why tokens are no program.

#[derive(Clone, Copy, PartialEq, Eq, Debug)]
pub enum Kind {
    Term,
    Test,
}

// Operators: those of terms, and those that make tests.
#[derive(Clone, Copy, PartialEq, Eq, Debug)]
pub enum Operator {
    Arithmetic(program::Operator),
    Less,
    Equal,
    And,
    Or,
}

// What should stand at a place.
#[derive(Clone, Copy, PartialEq, Eq, Debug)]
pub enum Expected {
    Statement,
    Term,
    Test,
    Word,
    Number,
    Is,
    IsOrTakes,
    To,
    Then,
    Do,
    End,
    OpenIndex,
    CloseIndex,
    Close,
    EndOfText,
}

// Each place is the index of a token, or the number of tokens at the end.
#[derive(Clone, Copy, PartialEq, Eq, Debug)]
pub enum ParseError {
    NoMemory,
    Expected { at: usize, what: Expected },
    // A word that is not declared, or not as what it is used for.
    Undeclared(usize),
    // A word that is declared twice.
    Twice(usize),
    // One variable or array too many.
    TooMany(usize),
    // An array's length that is 0 or above 65536.
    Length(usize),
    // An input's range that is out of order.
    Range(usize),
    // Parentheses, brackets, `not`, `if` and `while` stand too deep in one another.
    TooDeep(usize),
}
