//! What is left of a text, for any grammar.
ghost use Rattle.std.specs.Prelude.{◌≡◌, length};
ghost use Rattle.exact_json.specs.Parsing as spec;

use crate::stop::Stop;
use std::marker::Model;

/// What is left of a text that is read from the left. Contracts see it as the list of the bytes left.
#[derive(Drop)]
pub struct Cursor<'a> {
    rest: &'a [u8],
}

impl<'a> Model for Cursor<'a> {
    ghost use Rattle.std.specs.Prelude.{List, ℕ};

    ghost Value = { List ℕ };

    ghost view = { λ c. c.rest.now };
}

impl<'a> Cursor<'a> {
    /// The whole text.
    pub fn new(text: &'a [u8]) -> Cursor<'a>
        ensures { result ≡ text.now }
    {
        Cursor { rest: text }
    }

    /// The bytes that are left.
    pub fn rest(&self) -> &'a [u8]
        ensures { result.now ≡ self.now }
    {
        self.rest
    }

    /// Goes on with these bytes.
    pub fn go_on(&mut self, rest: &'a [u8])
        ensures { self.new ≡ rest.now }
    {
        self.rest = rest;
    }

    /// How many bytes are left.
    pub fn left(&self) -> usize
        ensures { result ≡ length self.now }
    {
        self.rest.len()
    }

    /// The next byte; None at the end.
    pub fn peek(&self) -> Option<u8>
        ensures { result ≡ spec.front self.now }
    {
        match self.rest {
            [] => None,
            [b, ..] => Some(*b),
        }
    }

    /// Takes this byte, if it comes next.
    pub fn eat(&mut self, byte: u8) -> bool
        ensures answer { result ≡ spec.sees byte self.old }
        ensures left { self.new ≡ spec.after byte self.old }
    {
        match self.rest {
            [] => false,
            [b, rest @ ..] => {
                if *b != byte {
                    return false;
                }
                self.rest = rest;
                true
            }
        }
    }

    /// A fault at the next byte.
    pub fn refuse<K>(&self, kind: K) -> Stop<K>
        ensures { result ≡ Stop.At (length self.now) kind }
    {
        Stop::At(self.rest.len(), kind)
    }
}
