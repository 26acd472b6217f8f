//! Vectors: lists of values of one kind.
ghost use Rattle.std.specs.Prelude.{◌≡◌, ◌<◌, length, map, replicate, All, IfOk, IsTrue, ◌↔◌};
ghost use Rattle.std.specs.Bool.{OnFalse};
ghost use Rattle.std.specs.Cow.{cow_value};
ghost use Rattle.std.specs.List.{range_with_len};
ghost use Rattle.vx_value.specs.Value.{owned, IsLawful};
ghost use Rattle.vx_value.specs.declared.value.Kind.TheVariants as kinds;
ghost use Rattle.vx_value.specs.Row.{value_at};
ghost use Rattle.vx_vector.specs.Column.{column, wrapped, FitsKind, IsNoText};
ghost use Rattle.vx_vector.specs.Lane.{value_of};
ghost use Rattle.vx_vector.specs.Lanes.{kind_of, rows_of, lane_at};

use crate::form::{Form, are_all_of};
use crate::lanes::Lanes;
use crate::selection::Selection;
use crate::store::lanes_of;
use std::alloc::{AllocError, Global};
use std::borrow::Cow;
use std::marker::Model;
use vx_value::{Kind, Value, ValueRef};

/// A list of values of one kind.
#[derive(Debug, Drop)]
pub struct Vector {
    form: Form,
}

impl Model for Vector {
    ghost use Rattle.vx_vector.specs.Column.{Column};
    ghost use Rattle.vx_vector.specs.Form.{column_of, IsSound};

    ghost Value = { Column };

    ghost view = { λ v. column_of v.form };

    ghost invariant = { λ v. IsSound v.form };
}

/// A vector as places in a base that stores each of its values, and nulls where there is no place.
#[derive(Debug, Drop)]
pub struct Decoded {
    pub base: Vector,
    pub index: Vec<Option<u32>>,
}

impl Vector {
    ghost use Rattle.vx_vector.specs.Settles.{HoldsRows};
    ghost use Rattle.vx_vector.specs.Decoding.{Decodes};

    /// The values of these buffers, where any mark but `FINE` means null.
    pub fn of_lanes(lanes: Lanes) -> Vector
        ensures { result ≡ column (kind_of lanes) (map (λ k. value_of (lane_at lanes k)) (range_with_len 0 (rows_of lanes))) }
    {
        Vector {
            form: Form::Flat(lanes),
        }
    }

    /// These values, each stored.
    pub fn flat(alloc: Global, kind: Kind, values: &[Value]) -> Result<Vector, AllocError>
        requires { All (FitsKind kind) values.now }
        ensures { IfOk result (λ v. v ≡ column kind values.now) }
    {
        let lanes = lanes_of(alloc, kind, values)?;
        Ok(Vector {
            form: Form::Flat(lanes),
        })
    }

    /// One value, `len` times.
    pub fn constant(
        alloc: Global,
        kind: Kind,
        value: &Value,
        len: u32,
    ) -> Result<Vector, AllocError>
        requires { FitsKind kind value.now }
        ensures { IfOk result (λ v. v ≡ column kind (replicate len value.now)) }
    {
        let one = [value.copy(alloc)?];
        let lanes = lanes_of(alloc, kind, &one)?;
        Ok(Vector {
            form: Form::Constant(lanes, len as usize),
        })
    }

    /// The kind of its values.
    pub fn kind(&self) -> Kind
        ensures { result ≡ self.now.kind }
    {
        self.form.kind()
    }

    /// Whether its kind is `Text`. Where it isn't, no value is a text.
    #[inline]
    pub fn holds_texts(&self) -> bool
        ensures is { IsTrue result ↔ (self.now.kind ≡ kinds.Text) }
        ensures none { OnFalse result (All IsNoText self.now.values) }
    {
        match self.form.kind() {
            Kind::Bool => false,
            Kind::Int => false,
            Kind::Text => true,
        }
    }

    /// The number of values.
    pub fn len(&self) -> usize
        ensures { result ≡ length self.now.values }
    {
        self.form.len()
    }

    /// The value of a row.
    pub fn get(&self, row: u32) -> ValueRef<'_>
        requires { row < length self.now.values }
        ensures is { owned result ≡ value_at self.now.values row }
        ensures lawful { IsLawful (owned result) }
        ensures kind { FitsKind self.now.kind (owned result) }
    {
        self.form.get(row as usize)
    }

    /// At each row the value at its index, and null where the mask says so.
    pub fn wrap(self, alloc: Global, indices: &[u32], nulls: &[bool]) -> Result<Vector, AllocError>
        requires rows { length nulls.now ≡ length indices.now }
        requires places { All (λ p. p < length self.values) indices.now }
        ensures { IfOk result (λ v. v ≡ column self.kind (wrapped self.values indices.now nulls.now)) }
    {
        let form = self.form.wrap(alloc, indices, nulls)?;
        Ok(Vector { form })
    }

    /// The values of these rows.
    pub fn select(&self, alloc: Global, rows: &Selection) -> Result<Vector, AllocError>
        requires { All (λ p. p < length self.now.values) rows.now }
        ensures { IfOk result (λ v. v ≡ column self.now.kind (map (value_at self.now.values) rows.now)) }
    {
        let form = self.form.select(alloc, rows)?;
        Ok(Vector { form })
    }

    /// The same values, each stored.
    pub fn flatten(&self, alloc: Global) -> Result<Vector, AllocError>
        ensures { IfOk result (λ v. v ≡ self.now) }
    {
        let lanes = self.form.lanes(alloc)?;
        Ok(Vector {
            form: Form::Flat(lanes),
        })
    }

    /// The same values in the same encoding, in memory of their own.
    pub fn copy(&self, alloc: Global) -> Result<Vector, AllocError>
        ensures { IfOk result (λ v. v ≡ self.now) }
    {
        let form = self.form.copy(alloc)?;
        Ok(Vector { form })
    }

    /// The same values as places in a base that stores each of its own.
    pub fn decode(&self, alloc: Global) -> Result<Decoded, AllocError>
        ensures { IfOk result (λ d. Decodes self.now d.base d.index.items) }
    {
        let (base, index) = self.form.decode(alloc)?;
        Ok(Decoded {
            base: Vector {
                form: Form::Flat(base),
            },
            index,
        })
    }

    /// The values of these rows in typed buffers, with the marks `FINE` and `NULL` alone. Where the vector's own
    /// buffers are just that they are lent, and else its rows are copied.
    pub fn lanes_at(&self, alloc: Global, rows: &Selection) -> Result<Cow<'_, Lanes>, AllocError>
        requires { All (λ p. p < length self.now.values) rows.now }
        ensures { IfOk result (λ l. HoldsRows self.now rows.now (cow_value l)) }
    {
        if let Form::Flat(lanes) = &self.form {
            if are_all_of(rows, lanes) && !lanes.has_fault() {
                return Ok(Cow::Borrowed(lanes));
            }
        }
        let mut lanes = self.form.lanes_at(alloc, rows)?;
        lanes.settle();
        Ok(Cow::Owned(lanes))
    }
}
