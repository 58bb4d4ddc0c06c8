// What the parser holds while it reads.
ghost use Rattle.std.specs.Prelude.{◌≡◌, ◌<◌, ◌≤◌, length, slice_get, vec_len, IfSome};

use lexer::Token;
use std::alloc::Global;

// An array by its word, and how many elements it has.
#[derive(Clone, Copy)]
pub struct Array {
    pub word: usize,
    pub length: u64,
}

// The tokens and how many of them are read; the words that are declared; and what is written so far, the encoding and the token at which each numbered statement begins.
#[derive(Drop)]
pub struct Parser<'a> {
    pub tokens: &'a [Token],
    pub at: usize,
    pub variables: Vec<usize>,
    pub arrays: Vec<Array>,
    pub program: Vec<u8>,
    pub places: Vec<usize>,
    ghost within: { at ≤ length tokens.now },
    ghost few_variables: { vec_len variables ≤ 64 },
    ghost few_arrays: { vec_len arrays ≤ 16 },
}

impl<'a> Parser<'a> {
    // Before the first token.
    pub fn new(heap: Global, tokens: &'a [Token]) -> Parser<'a> {
        Parser {
            tokens,
            at: 0,
            variables: Vec::new(heap),
            arrays: Vec::new(heap),
            program: Vec::new(heap),
            places: Vec::new(heap),
        }
    }

    // A variable's number, by its word.
    pub fn variable(&self, word: usize) -> Option<u8>
        ensures { IfSome result (λ x. slice_get self.now.variables.items x ≡ Some word) }
    {
        self.variables
            .iter()
            .position(|other| *other == word)
            .map(|i| i as u8)
    }

    // An array's number, by its word.
    pub fn array(&self, word: usize) -> Option<u8>
        ensures { IfSome result (λ r. r < vec_len self.now.arrays) }
    {
        self.arrays
            .iter()
            .position(|array| array.word == word)
            .map(|i| i as u8)
    }
}
