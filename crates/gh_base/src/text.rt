//! Text.
ghost use Rattle.std.specs.Prelude.{◌≡◌, [], ◌++◌, ◌↔◌, length, string_bytes, decimal, IsTrue, OnOk, OnErr};
ghost use Rattle.std.specs.Fmt.{signed_decimal};

use crate::faults::NoMemory;
use std::alloc::Global;
use std::marker::Model;

/// Text that contracts see as the list of its bytes, which are UTF-8.
#[derive(Debug, Drop)]
pub struct Text {
    text: String,
}

impl Model for Text {
    ghost use Rattle.std.specs.Prelude.{List, ℕ, string_bytes};

    ghost Value = { List ℕ };

    ghost view = { λ a. string_bytes a.text };
}

impl Text {
    /// The empty text. It takes no memory.
    pub fn new(alloc: Global) -> Text
        ensures { result ≡ [] }
    {
        Text {
            text: String::new(alloc),
        }
    }

    /// The same text. It takes no memory.
    pub fn from_string(text: String) -> Text
        ensures { result ≡ string_bytes text }
    {
        Text { text }
    }

    /// The same text. It takes no memory.
    pub fn into_string(self) -> String
        ensures { string_bytes result ≡ self }
    {
        let Text { text } = self;
        text
    }

    /// The number of bytes.
    pub fn len(&self) -> usize
        ensures { result ≡ length self.now }
    {
        self.text.len()
    }

    pub fn is_empty(&self) -> bool
        ensures { IsTrue result ↔ (self.now ≡ []) }
    {
        self.text.is_empty()
    }

    pub fn as_str(&self) -> &str
        ensures { result.now ≡ self.now }
    {
        self.text.as_str()
    }

    pub fn as_bytes(&self) -> &[u8]
        ensures { result.now ≡ self.now }
    {
        self.text.as_bytes()
    }

    /// Appends a text. After `NoMemory` it is as before.
    pub fn push(&mut self, text: &str) -> Result<(), NoMemory>
        ensures ok { OnOk result (self.new ≡ self.old ++ text.now) }
        ensures err { OnErr result (self.new ≡ self.old) }
    {
        self.text.push_str(text).map_err(|_| NoMemory)
    }

    /// Appends a number in decimal digits. After `NoMemory` the text is as before.
    pub fn push_number(&mut self, number: u128) -> Result<(), NoMemory>
        ensures ok { OnOk result (self.new ≡ self.old ++ decimal number) }
        ensures err { OnErr result (self.new ≡ self.old) }
    {
        let digits = number.to_string(*self.text.allocator())?;
        self.push(digits.as_str())
    }

    /// Appends a signed number in decimal digits. After `NoMemory` the text is as before.
    pub fn push_signed(&mut self, number: i64) -> Result<(), NoMemory>
        ensures ok { OnOk result (self.new ≡ self.old ++ signed_decimal number) }
        ensures err { OnErr result (self.new ≡ self.old) }
    {
        let digits = number.to_string(*self.text.allocator())?;
        self.push(digits.as_str())
    }
}
