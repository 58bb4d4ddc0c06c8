// The different words of a text, numbered as they first appear.
ghost use Rattle.lexer.specs.Tokens.{texts, Finds, Numbers};

use std::alloc::AllocError;

// Where a word stands among others. They are one list, which the tokens' numbers point into: a map beside it would hold each word twice.
fn find_word(words: &[&str], word: &str) -> Option<usize>
    ensures { Finds (texts words.now) word.now result }
{
    words.iter().position(|other| *other == word)
}

// A word's number; a new word is put behind the others.
pub fn number_of<'a>(words: &mut Vec<&'a str>, word: &'a str) -> Result<usize, AllocError>
    ensures { Numbers (texts words.old.items) (texts words.new.items) word.now result }
{
    if let Some(i) = find_word(words.as_slice(), word) {
        return Ok(i);
    }
    let i = words.len();
    words.push(word)?;
    Ok(i)
}
