// Keywords and symbols by their text. Both give an option and no conversion's error: most words are no keywords, which is nothing wrong.
ghost use Rattle.std.specs.Prelude.{◌≡◌};
ghost use Rattle.lexer.specs.Keys.{keyword, symbol};

use crate::types::Key;

// The keyword that a word is.
#[tactic(auto, unfolding(crate::specs::Keys::keyword))]
pub fn key_of(word: &str) -> Option<Key>
    ensures { result ≡ keyword word.now }
{
    match word {
        "names" => Some(Key::Names),
        "rows" => Some(Key::Rows),
        "is" => Some(Key::Is),
        "takes" => Some(Key::Takes),
        "to" => Some(Key::To),
        "check" => Some(Key::Check),
        "if" => Some(Key::If),
        "then" => Some(Key::Then),
        "else" => Some(Key::Else),
        "end" => Some(Key::End),
        "while" => Some(Key::While),
        "do" => Some(Key::Do),
        "nothing" => Some(Key::Nothing),
        "not" => Some(Key::Not),
        "and" => Some(Key::And),
        "or" => Some(Key::Or),
        _ => None,
    }
}

// The symbol that a byte is.
#[tactic(auto, unfolding(crate::specs::Keys::symbol))]
pub fn symbol_of(byte: u8) -> Option<Key>
    ensures { result ≡ symbol byte }
{
    match byte {
        b'+' => Some(Key::Plus),
        b'-' => Some(Key::Minus),
        b'*' => Some(Key::Times),
        b'/' => Some(Key::Over),
        b'%' => Some(Key::Percent),
        b'<' => Some(Key::Less),
        b'=' => Some(Key::Equals),
        b'(' => Some(Key::Open),
        b')' => Some(Key::Close),
        b'[' => Some(Key::OpenIndex),
        b']' => Some(Key::CloseIndex),
        b',' => Some(Key::Comma),
        b';' => Some(Key::Semicolon),
        _ => None,
    }
}
