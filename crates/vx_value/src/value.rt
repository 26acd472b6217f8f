//! Kinds and values.
ghost use Rattle.std.specs.Prelude.{◌≡◌, IfOk};

use crate::text::Txt;
use std::alloc::{AllocError, Global};

/// The kind of a column.
#[derive(Clone, Copy, Debug, PartialEq, Eq)]
pub enum Kind {
    Bool,
    Int,
    Text,
}

/// One cell of a row: null, or a value of the column's kind.
#[derive(Debug, Drop)]
pub enum Value {
    Null,
    Bool(bool),
    Int(i64),
    Text(Txt),
}

/// A value that borrows its text, which is UTF-8 of at most 65,535 bytes.
#[derive(Clone, Copy, Debug)]
pub enum ValueRef<'a> {
    Null,
    Bool(bool),
    Int(i64),
    Text(&'a [u8]),
}

impl Value {
    ghost use Rattle.vx_value.specs.Value.{owned, kind_of, IsLawful};

    /// None for null, which any column may hold.
    pub fn kind(&self) -> Option<Kind>
        ensures { result ≡ kind_of self.now }
    {
        match self {
            Value::Null => None,
            Value::Bool(_) => Some(Kind::Bool),
            Value::Int(_) => Some(Kind::Int),
            Value::Text(_) => Some(Kind::Text),
        }
    }

    pub fn as_ref(&self) -> ValueRef<'_>
        ensures is { owned result ≡ self.now }
        ensures lawful { IsLawful (owned result) }
    {
        match self {
            Value::Null => ValueRef::Null,
            Value::Bool(b) => ValueRef::Bool(*b),
            Value::Int(n) => ValueRef::Int(*n),
            Value::Text(text) => ValueRef::Text(text.as_bytes()),
        }
    }

    /// The same value, a text in memory of its own.
    pub fn copy(&self, alloc: Global) -> Result<Value, AllocError>
        ensures { IfOk result (λ value. value ≡ self.now) }
    {
        match self {
            Value::Null => Ok(Value::Null),
            Value::Bool(b) => Ok(Value::Bool(*b)),
            Value::Int(n) => Ok(Value::Int(*n)),
            Value::Text(text) => Ok(Value::Text(text.copy(alloc)?)),
        }
    }
}

impl ValueRef<'_> {
    ghost use Rattle.vx_value.specs.Value.{owned, is_null};

    pub fn is_null(self) -> bool
        ensures { result ≡ is_null (owned self.entry) }
    {
        matches!(self, ValueRef::Null)
    }
}
