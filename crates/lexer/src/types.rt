// Tokens of the text language.

// Keywords and symbols.
#[derive(Clone, Copy, PartialEq, Eq, Debug)]
pub enum Key {
    Names,
    Rows,
    Is,
    Takes,
    To,
    Check,
    If,
    Then,
    Else,
    End,
    While,
    Do,
    Nothing,
    Not,
    And,
    Or,
    Plus,
    Minus,
    Times,
    Over,
    Percent,
    Less,
    Equals,
    Open,
    Close,
    OpenIndex,
    CloseIndex,
    Comma,
    Semicolon,
}

// A word is its index among the words of the text.
#[derive(Clone, Copy, PartialEq, Eq, Debug)]
pub enum Token {
    Word(usize),
    Number(u64),
    Key(Key),
}
