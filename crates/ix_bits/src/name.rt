ghost use Rattle.std.specs.Prelude.{◌≡◌, ◌≤◌, length, IfOk, string_bytes};

use crate::Memory;
use std::alloc::Global;
use std::marker::Model;

/// A short text of at most 80 bytes, long enough for the name of a module. Contracts see the list of its bytes.
#[derive(Debug, Drop)]
pub struct Name {
    text: String,
}

impl Model for Name {
    ghost use Rattle.std.specs.Prelude.{List, ℕ, ◌≤◌, length};
    ghost use Rattle.std.specs.String.{string_bytes};

    ghost Value = { List ℕ };

    ghost view = { λ name. string_bytes name.text };

    ghost invariant = { λ name. length (string_bytes name.text) ≤ 80 };
}

impl Name {
    /// The greatest length of a name, in bytes.
    pub const MOST: usize = 80;

    /// A name with this text, of at most 80 bytes.
    pub fn from_text(alloc: Global, text: &str) -> Result<Name, Memory>
        requires { length text.now ≤ 80 }
        ensures { IfOk result (λ name. name ≡ text.now) }
    {
        match String::from_str(alloc, text) {
            Ok(text) => Ok(Name { text }),
            Err(_) => Err(Memory),
        }
    }

    /// The text.
    pub fn as_str(&self) -> &str
        ensures text { result.now ≡ self.now }
        ensures short { length self.now ≤ 80 }
    {
        self.text.as_str()
    }

    /// The length in bytes, at most 80.
    pub fn len(&self) -> usize
        ensures value { result ≡ length self.now }
        ensures short { length self.now ≤ 80 }
    {
        self.text.len()
    }
}
