// A name, which a contract sees as the list of its characters.
ghost use Rattle.std.specs.Prelude.{◌≡◌, ℕ, List, IfOk, IsAscii, bytes_eq, chars, encode_utf8_all};

use crate::{Memory, Text};
use std::alloc::Global;
use std::marker::Model;

/// A name of the module under test, such as that of a variable, a function, a class or an attribute.
#[derive(Debug, Drop)]
pub struct Name {
    text: Text,
}

impl Model for Name {
    ghost Value = { List ℕ };

    ghost view = { λ n. n.text };
}

impl Name {
    /// The name that a text spells.
    pub fn from_str(alloc: Global, name: &str) -> Result<Self, Memory>
        ensures { IfOk result (λ n. n ≡ chars name.now) }
    {
        Ok(Name {
            text: Text::from_str(alloc, name)?,
        })
    }

    /// A name of ASCII characters, from their bytes.
    pub fn from_ascii(alloc: Global, name: &[u8]) -> Result<Self, Memory>
        requires { IsAscii name.now }
        ensures { IfOk result (λ n. n ≡ name.now) }
    {
        Ok(Name {
            text: Text::from_ascii(alloc, name)?,
        })
    }

    /// The name that a text spells, without a copy.
    pub fn from_text(text: Text) -> Self
        ensures { result ≡ text }
    {
        Name { text }
    }

    /// The name as text.
    pub fn as_str(&self) -> &str
        ensures chars { chars result.now ≡ self.now }
        ensures bytes { result.now ≡ encode_utf8_all self.now }
    {
        self.text.as_str()
    }

    /// Whether a text spells it.
    pub fn is(&self, other: &str) -> bool
        ensures { result ≡ bytes_eq self.now (chars other.now) }
    {
        self.text.is(other)
    }

    /// Whether another name is spelled alike.
    pub fn is_same(&self, other: &Name) -> bool
        ensures { result ≡ bytes_eq self.now other.now }
    {
        self.text.is_same(&other.text)
    }

    /// A copy.
    pub fn to_owned(&self, alloc: Global) -> Result<Self, Memory>
        ensures { IfOk result (λ n. n ≡ self.now) }
    {
        Ok(Name {
            text: self.text.to_owned(alloc)?,
        })
    }
}
