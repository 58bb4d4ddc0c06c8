// Why a text is no program.
use grammar::Expected;
use std::fmt;

#[derive(Clone, Copy)]
pub enum Reason {
    NoMemory,
    NotText,
    Character,
    TooLarge,
    Expected(Expected),
    Undeclared,
    Twice,
    TooMany,
    Length,
    Range,
    TooDeep,
    // Choices and loops more than 32 deep, and loops alone more than 3.
    Nesting,
    Loops,
    // A test of more than 63 tests, and a program of more than 32,768 bytes.
    LongTest,
    LongProgram,
    // The reader refuses the program, and no limit is found that it passes.
    Invalid,
}

impl fmt::Display for Reason {
    fn fmt<W: fmt::Write>(&self, f: &mut fmt::Formatter<W>) -> fmt::Result {
        match *self {
            Reason::NoMemory => f.write_str("no memory is left"),
            Reason::NotText => f.write_str("not a text"),
            Reason::Character => f.write_str("a character that has no meaning here"),
            Reason::TooLarge => f.write_str("a number of 2^32 or more"),
            Reason::Expected(what) => write!(f, "expected {what}"),
            Reason::Undeclared => f.write_str("a word that is not declared so"),
            Reason::Twice => f.write_str("a word that is declared twice"),
            Reason::TooMany => f.write_str("one name or row too many"),
            Reason::Length => f.write_str("a row has 1 to 65536 entries"),
            Reason::Range => f.write_str("a range that is out of order"),
            Reason::TooDeep => f.write_str("nested too deep"),
            Reason::Nesting => f.write_str("choices and loops more than 32 deep"),
            Reason::Loops => f.write_str("loops more than 3 deep"),
            Reason::LongTest => f.write_str("a test of more than 63 tests"),
            Reason::LongProgram => f.write_str("a program of more than 32768 bytes"),
            Reason::Invalid => f.write_str("not a valid program"),
        }
    }
}
