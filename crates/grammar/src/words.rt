// What is missing at a place, in words.
ghost use Rattle.std.specs.Prelude.{◌≡◌, Some};
ghost use Rattle.grammar.specs.Words.{expected_words};

use crate::types::Expected;
use std::fmt;

/// What should stand at a place.
pub fn expected_text(what: Expected) -> &'static str
    ensures { result.now ≡ expected_words what }
{
    match what {
        Expected::Statement => "a statement",
        Expected::Term => "a term",
        Expected::Test => "a test",
        Expected::Word => "a word",
        Expected::Number => "a number",
        Expected::Is => "\"is\"",
        Expected::IsOrTakes => "\"is\" or \"takes\"",
        Expected::To => "\"to\"",
        Expected::Then => "\"then\"",
        Expected::Do => "\"do\"",
        Expected::End => "\"end\"",
        Expected::OpenIndex => "\"[\"",
        Expected::CloseIndex => "\"]\"",
        Expected::Close => "\")\"",
        Expected::EndOfText => "\";\" or the end of the text",
    }
}

impl fmt::Display for Expected {
    ghost output = { λ what. Some (expected_words what) };

    fn fmt<W: fmt::Write>(&self, f: &mut fmt::Formatter<W>) -> fmt::Result {
        f.write_str(expected_text(*self))
    }
}
