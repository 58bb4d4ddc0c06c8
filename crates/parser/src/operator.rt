// The operators, by levels: 1 products, 2 sums, 3 comparisons, 4 conjunctions, 5 disjunctions. Levels are numbers, since the recursion counts them down.
ghost use Rattle.std.specs.Prelude.{◌≡◌, ◌+◌, ◌<◌, ◌≤◌, None, length, OnSome, vec_len};
ghost use Rattle.parser.specs.Reading.{Skips};

use crate::parser::Parser;
use grammar::{Kind, Operator};
use lexer::{Key, Token};
use program::Operator as Arithmetic;

// The operator that a key is.
fn operator_of(key: Key) -> Option<Operator> {
    match key {
        Key::Times => Some(Operator::Arithmetic(Arithmetic::Product)),
        Key::Over => Some(Operator::Arithmetic(Arithmetic::Quotient)),
        Key::Percent => Some(Operator::Arithmetic(Arithmetic::Remainder)),
        Key::Plus => Some(Operator::Arithmetic(Arithmetic::Sum)),
        Key::Minus => Some(Operator::Arithmetic(Arithmetic::Difference)),
        Key::Less => Some(Operator::Less),
        Key::Equals => Some(Operator::Equal),
        Key::And => Some(Operator::And),
        Key::Or => Some(Operator::Or),
        _ => None,
    }
}

// An operator's level.
fn level_of(operator: Operator) -> usize {
    match operator {
        Operator::Arithmetic(Arithmetic::Product) => 1,
        Operator::Arithmetic(Arithmetic::Quotient) => 1,
        Operator::Arithmetic(Arithmetic::Remainder) => 1,
        Operator::Arithmetic(Arithmetic::Sum) => 2,
        Operator::Arithmetic(Arithmetic::Difference) => 2,
        Operator::Less => 3,
        Operator::Equal => 3,
        Operator::And => 4,
        Operator::Or => 5,
    }
}

// What an operator joins.
fn joined_by(operator: Operator) -> Kind {
    match operator {
        Operator::And | Operator::Or => Kind::Test,
        _ => Kind::Term,
    }
}

// What an operator makes of its operands.
pub fn made_by(operator: Operator) -> Kind {
    match operator {
        Operator::Arithmetic(_) => Kind::Term,
        _ => Kind::Test,
    }
}

impl<'a> Parser<'a> {
    // Goes past an operator of a level that joins such operands, if one is next.
    pub fn operator(&mut self, level: usize, kind: Kind) -> Option<Operator>
        ensures on { Skips self.old self.new }
        ensures past { OnSome result (self.new.at ≡ self.old.at + 1) }
        ensures stays { result ≡ None → self.new.at ≡ self.old.at }
    {
        let Some(Token::Key(key)) = self.peek() else {
            return None;
        };
        let operator = operator_of(key)?;
        if level_of(operator) != level || joined_by(operator) != kind {
            return None;
        }
        self.advance();
        Some(operator)
    }
}
