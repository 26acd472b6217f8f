//! The kinds of a node's columns, in a list of fixed room.
ghost use Rattle.std.specs.Prelude.{◌≡◌, ◌≤◌, ◌<◌, ◌+◌, ◌++◌, ◌∷◌, [], length};

use std::marker::Model;
use vx_value::Kind;

/// The kinds of a node's columns, at most 64. Contracts see their list.
#[derive(Debug, Drop)]
pub struct Kinds {
    all: [Kind; 64],
    len: usize,
}

impl Model for Kinds {
    ghost use Rattle.std.specs.Prelude.{List, ◌≤◌, take};
    ghost use Rattle.vx_value.specs.declared.value.Kind.{Kind};

    ghost Value = { List Kind };

    ghost view = { λ kinds. take kinds.len kinds.all };

    ghost invariant = { λ kinds. kinds.len ≤ 64 };
}

impl Kinds {
    pub fn new() -> Kinds
        ensures { result ≡ [] }
    {
        Kinds {
            all: [Kind::Bool; 64],
            len: 0,
        }
    }

    pub fn as_slice(&self) -> &[Kind]
        ensures is { result.now ≡ self.now }
        ensures few { length result.now ≤ 64 }
    {
        &self.all[..self.len]
    }

    pub fn push(&mut self, kind: Kind)
        requires { length self.old < 64 }
        ensures { self.new ≡ self.old ++ kind ∷ [] }
    {
        self.all[self.len] = kind;
        self.len += 1;
    }

    pub fn append(&mut self, more: &[Kind])
        requires { length self.old + length more.now ≤ 64 }
        ensures { self.new ≡ self.old ++ more.now }
    {
        for kind in more {
            self.push(*kind);
        }
    }
}
