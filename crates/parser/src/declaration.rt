// Declarations of variables and arrays.
ghost use Rattle.std.specs.Prelude.{◌≡◌, ◌+◌, ◌<◌, ◌≤◌, length, OnOk, OnSome, vec_len};
ghost use Rattle.parser.specs.Reading.{Declares, Skips};

use crate::parser::{Array, Parser};
use grammar::{Expected, ParseError};
use lexer::Key;
use program::{ARRAYS, ELEMENTS, VARIABLES};

// What a declaration's words are.
#[derive(Clone, Copy)]
enum Sort {
    Variable,
    Array,
}

impl<'a> Parser<'a> {
    // A word that is not declared yet.
    fn new_word(&mut self) -> Result<usize, ParseError>
        ensures on { Skips self.old self.new }
        ensures past { OnOk result (self.new.at ≡ self.old.at + 1) }
    {
        let place = self.at;
        let word = self.word(Expected::Word)?;
        if self.variable(word).is_some() || self.array(word).is_some() {
            return Err(ParseError::Twice(place));
        }
        Ok(word)
    }

    // One variable.
    fn declare_variable(&mut self) -> Result<(), ParseError>
        ensures on { Declares self.old self.new }
        ensures arrays { self.new.arrays ≡ self.old.arrays }
    {
        let place = self.at;
        let word = self.new_word()?;
        if self.variables.len() as u64 >= VARIABLES {
            return Err(ParseError::TooMany(place));
        }
        self.variables.push(word)?;
        Ok(())
    }

    // One array with its length.
    fn declare_array(&mut self) -> Result<(), ParseError>
        ensures on { Declares self.old self.new }
        ensures variables { self.new.variables ≡ self.old.variables }
    {
        let place = self.at;
        let word = self.new_word()?;
        if self.arrays.len() as u64 >= ARRAYS {
            return Err(ParseError::TooMany(place));
        }
        self.expect(Key::OpenIndex, Expected::OpenIndex)?;
        let inner = self.at;
        let length = self.number()?;
        if length < 1 || length > ELEMENTS {
            return Err(ParseError::Length(inner));
        }
        self.expect(Key::CloseIndex, Expected::CloseIndex)?;
        self.arrays.push(Array { word, length })?;
        Ok(())
    }

    // One variable or array.
    fn declare(&mut self, sort: Sort) -> Result<(), ParseError>
        ensures { Declares self.old self.new }
    {
        match sort {
            Sort::Variable => self.declare_variable(),
            Sort::Array => self.declare_array(),
        }
    }

    // Variables or arrays between commas.
    fn declare_all(&mut self, sort: Sort) -> Result<(), ParseError>
        ensures { Declares self.old self.new }
    {
        self.declare(sort)?;
        while self.eat(Key::Comma) {
            self.declare(sort)?;
        }
        Ok(())
    }

    // What the next words are declared as, if a declaration begins here.
    fn declares(&mut self) -> Option<Sort>
        ensures on { Skips self.old self.new }
        ensures past { OnSome result (self.old.at < self.new.at) }
    {
        if self.eat(Key::Names) {
            Some(Sort::Variable)
        } else if self.eat(Key::Rows) {
            Some(Sort::Array)
        } else {
            None
        }
    }

    // All declarations.
    pub fn declarations(&mut self) -> Result<(), ParseError>
        ensures { Declares self.old self.new }
    {
        while let Some(sort) = self.declares() {
            self.declare_all(sort)?;
        }
        Ok(())
    }
}
