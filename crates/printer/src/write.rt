// A program that is being printed, and how its next bytes are read and words, numbers and indentation are added.
ghost use Rattle.std.specs.Prelude.{◌≡◌, ◌+◌, ◌≤◌, cond, [], ◌++◌, length, decimal, slice_index, string_bytes, OnOk};
ghost use Rattle.encoding.specs.Standing.{word_at as standing_word};

use bytes_at::{byte_at, word_at};
use std::alloc::{AllocError, Global};

/// The bytes of a program, how many of them are behind, and what was printed so far. The methods that print a part are told
/// how many bytes it may have at most: by that number their recursion ends, whatever the bytes are.
#[derive(Drop)]
pub struct Printer<'a> {
    pub text: &'a [u8],
    pub pos: usize,
    pub out: String,
}

impl<'a> Printer<'a> {
    ghost use Rattle.printer.specs.Text.{indent as indentation};
    ghost use Rattle.printer.specs.Printing.{Prints, Passes};

    // Nothing is printed yet, and so many bytes are behind.
    pub fn new(heap: Global, text: &'a [u8], pos: usize) -> Printer<'a>
        ensures text { result.text.now ≡ text.now }
        ensures pos { result.pos ≡ pos }
        ensures out { string_bytes result.out ≡ [] }
    {
        Printer {
            text,
            pos,
            out: String::new(heap),
        }
    }

    // The next byte, which stays the next one.
    pub fn peek(&self) -> u8
        ensures { result ≡ slice_index self.now.text.now self.now.pos }
    {
        byte_at(self.text, self.pos)
    }

    // So many bytes more are behind.
    pub fn pass(&mut self, count: usize)
        ensures { Passes count self.old self.new }
    {
        self.pos = self.pos.saturating_add(count);
    }

    // The next byte.
    pub fn byte(&mut self) -> u8
        ensures value { result ≡ slice_index self.old.text.now self.old.pos }
        ensures passed { Passes 1 self.old self.new }
    {
        let byte = self.peek();
        self.pass(1);
        byte
    }

    // The number in the next eight bytes.
    pub fn word(&mut self) -> u64
        ensures value { self.old.pos + 8 ≤ length self.old.text.now → result ≡ standing_word self.old.text.now self.old.pos }
        ensures passed { Passes 8 self.old self.new }
    {
        let word = word_at(self.text, self.pos);
        self.pass(8);
        word
    }

    // These words.
    pub fn put(&mut self, words: &str) -> Result<(), AllocError>
        ensures { OnOk result (Prints 0 words.now self.old self.new) }
    {
        self.out.push_str(words)
    }

    // A number, with a word before it.
    pub fn number(&mut self, word: &str, n: u64) -> Result<(), AllocError>
        ensures { OnOk result (Prints 0 (word.now ++ decimal n) self.old self.new) }
    {
        write!(self.out, "{word}{n}")
    }

    // A bracket, where one is wanted.
    pub fn bracket(&mut self, sign: &str, wanted: bool) -> Result<(), AllocError>
        ensures { OnOk result (Prints 0 (cond wanted sign.now []) self.old self.new) }
    {
        if wanted { self.put(sign) } else { Ok(()) }
    }

    // Two spaces for each level.
    pub fn indent(&mut self, depth: usize) -> Result<(), AllocError>
        ensures { OnOk result (Prints 0 (indentation depth) self.old self.new) }
    {
        for _ in 0..depth {
            self.put("  ")?;
        }
        Ok(())
    }
}
