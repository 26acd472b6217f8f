//! Texts of at most 65,535 bytes.
ghost use Rattle.std.specs.Prelude.{◌≡◌, ◌≤◌, length, string_bytes, IfOk, IsUtf8};

use std::alloc::{AllocError, Global};
use std::marker::Model;

/// A text of at most 65,535 bytes. Contracts see its bytes.
#[derive(Debug, Drop)]
pub struct Txt {
    text: String,
}

impl Model for Txt {
    ghost use Rattle.std.specs.Prelude.{ℕ, List, ◌≤◌, length, string_bytes};

    ghost Value = { List ℕ };

    ghost view = { λ t. string_bytes t.text };

    ghost invariant = { λ t. length (string_bytes t.text) ≤ 65535 };
}

impl Txt {
    /// The text of these bytes.
    pub fn of(alloc: Global, bytes: &[u8]) -> Result<Txt, AllocError>
        requires text { IsUtf8 bytes.now }
        requires short { length bytes.now ≤ 65535 }
        ensures { IfOk result (λ text. text ≡ bytes.now) }
    {
        let text = std::str::from_utf8(bytes).unwrap();
        let text = String::from_str(alloc, text)?;
        Ok(Txt { text })
    }

    /// The text of these bytes, in the memory that they have.
    pub fn from_bytes(bytes: Vec<u8>) -> Txt
        requires text { IsUtf8 bytes.items }
        requires short { length bytes.items ≤ 65535 }
        ensures { result ≡ bytes.items }
    {
        Txt {
            text: String::from_utf8(bytes).unwrap(),
        }
    }

    pub fn as_bytes(&self) -> &[u8]
        ensures bytes { result.now ≡ self.now }
        ensures text { IsUtf8 result.now }
        ensures short { length result.now ≤ 65535 }
    {
        self.text.as_str().as_bytes()
    }

    pub fn as_str(&self) -> &str
        ensures bytes { result.now ≡ self.now }
        ensures short { length result.now ≤ 65535 }
    {
        self.text.as_str()
    }

    /// The same text, in memory of its own.
    pub fn copy(&self, alloc: Global) -> Result<Txt, AllocError>
        ensures { IfOk result (λ text. text ≡ self.now) }
    {
        let text = String::from_str(alloc, self.text.as_str())?;
        Ok(Txt { text })
    }
}
