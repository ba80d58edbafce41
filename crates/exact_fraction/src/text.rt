//! Text and bytes that contracts see as a list of bytes.
ghost use Rattle.std.specs.Prelude.{◌≡◌, [], string_bytes, IsUtf8};

use std::alloc::Global;
use std::marker::Model;

/// A text of any length, in UTF-8.
#[derive(Drop, Debug)]
pub struct Text {
    string: String,
}

impl Model for Text {
    ghost use Rattle.std.specs.Prelude.{List, ℕ, IsUtf8, string_bytes};

    ghost Value = { List ℕ };

    ghost view = { λ a. string_bytes a.string };

    ghost invariant = { λ a. IsUtf8 (string_bytes a.string) };
}

impl Text {
    /// The empty text.
    pub fn new(alloc: Global) -> Text
        ensures { result ≡ [] }
    {
        Text::from_string(String::new(alloc))
    }

    /// The text of a string, whose memory it takes over.
    pub fn from_string(string: String) -> Text
        ensures { result ≡ string_bytes string }
    {
        let _ = string.as_str();
        Text { string }
    }

    /// The string, with its memory.
    pub fn into_string(self) -> String
        ensures { string_bytes result ≡ self }
    {
        self.string
    }

    /// The text, as a string.
    pub fn as_str(&self) -> &str
        ensures text { result.now ≡ self.now }
        ensures utf8 { IsUtf8 self.now }
    {
        self.string.as_str()
    }

    /// The text, in UTF-8.
    pub fn as_bytes(&self) -> &[u8]
        ensures text { result.now ≡ self.now }
        ensures utf8 { IsUtf8 self.now }
    {
        self.string.as_bytes()
    }
}

/// Any bytes.
#[derive(Drop, Debug)]
pub struct Bytes {
    items: Vec<u8>,
}

impl Model for Bytes {
    ghost use Rattle.std.specs.Prelude.{List, ℕ};

    ghost Value = { List ℕ };

    ghost view = { λ a. a.items.items };
}

impl Bytes {
    /// No bytes.
    pub fn new(alloc: Global) -> Bytes
        ensures { result ≡ [] }
    {
        Bytes {
            items: Vec::new(alloc),
        }
    }

    /// The bytes of a vector, whose memory they take over.
    pub fn from_vec(items: Vec<u8>) -> Bytes
        ensures { result ≡ items.items }
    {
        Bytes { items }
    }

    /// The vector, with its memory.
    pub fn into_vec(self) -> Vec<u8>
        ensures { result.items ≡ self }
    {
        self.items
    }

    /// The bytes.
    pub fn as_bytes(&self) -> &[u8]
        ensures { result.now ≡ self.now }
    {
        self.items.as_slice()
    }
}
