//! Typed buffers with a mark for each row.
ghost use Rattle.std.specs.Prelude.{◌≡◌, ◌<◌, length, get_or, All, IfOk};
ghost use Rattle.std.specs.Cow.{cow_value};
ghost use Rattle.vx_value.specs.Value.{owned, IsLawful};
ghost use Rattle.vx_vector.specs.Index.{IsIn};
ghost use Rattle.vx_vector.specs.Column.{FitsKind};
ghost use Rattle.vx_vector.specs.Lane.{value_of, settled};

use crate::gather::{gathered, gathered_or};
use crate::marks::settle_marks;
use crate::scan::has_fault;
use crate::texts::Texts;
use std::alloc::{AllocError, Global};
use std::borrow::Cow;
use vx_value::{Kind, ValueRef};

/// The mark of a row that has its value.
pub const FINE: u8 = 0;

/// The mark of a null.
pub const NULL: u8 = 1;

/// The least mark that is free for a caller's own faults. A vector reads these as nulls.
pub const FIRST_FAULT: u8 = 2;

/// Bools with a mark each. Under any mark but `FINE` the value says nothing.
#[derive(Debug, Drop)]
pub struct Bools {
    pub values: Vec<bool>,
    pub marks: Vec<u8>,
    ghost even: { length values.items ≡ length marks.items },
}

/// Ints with a mark each. Under any mark but `FINE` the value says nothing.
#[derive(Debug, Drop)]
pub struct Ints {
    pub values: Vec<i64>,
    pub marks: Vec<u8>,
    ghost even: { length values.items ≡ length marks.items },
}

/// The rows of a column in typed buffers.
#[derive(Debug, Drop)]
pub enum Lanes {
    Bools(Bools),
    Ints(Ints),
    Texts(Texts),
}

impl Lanes {
    ghost use Rattle.vx_vector.specs.Lanes.{kind_of, rows_of, lane_at, lane_or_null, holds_fault, AreLanes};

    /// The kind of the rows' values.
    pub fn kind(&self) -> Kind
        ensures { result ≡ kind_of self.now }
    {
        match self {
            Lanes::Bools(_) => Kind::Bool,
            Lanes::Ints(_) => Kind::Int,
            Lanes::Texts(_) => Kind::Text,
        }
    }

    /// The number of rows.
    pub fn len(&self) -> usize
        ensures { result ≡ rows_of self.now }
    {
        match self {
            Lanes::Bools(bools) => bools.marks.len(),
            Lanes::Ints(ints) => ints.marks.len(),
            Lanes::Texts(texts) => texts.len(),
        }
    }

    /// Whether a row has a mark that is neither `FINE` nor `NULL`.
    pub fn has_fault(&self) -> bool
        ensures { result ≡ holds_fault self.now }
    {
        match self {
            Lanes::Bools(bools) => has_fault(bools.marks.as_slice()),
            Lanes::Ints(ints) => has_fault(ints.marks.as_slice()),
            Lanes::Texts(texts) => texts.has_fault(),
        }
    }

    /// The value of a row, where any mark but `FINE` means null.
    pub fn get(&self, row: usize) -> ValueRef<'_>
        requires { row < rows_of self.now }
        ensures is { owned result ≡ value_of (lane_at self.now row) }
        ensures lawful { IsLawful (owned result) }
        ensures kind { FitsKind (kind_of self.now) (owned result) }
    {
        match self {
            Lanes::Bools(bools) => {
                if bools.marks[row] == FINE {
                    return ValueRef::Bool(bools.values[row]);
                }
                ValueRef::Null
            }
            Lanes::Ints(ints) => {
                if ints.marks[row] == FINE {
                    return ValueRef::Int(ints.values[row]);
                }
                ValueRef::Null
            }
            Lanes::Texts(texts) => {
                if texts.mark(row) == FINE {
                    return ValueRef::Text(texts.get(row));
                }
                ValueRef::Null
            }
        }
    }

    /// The same rows, in memory of their own.
    pub fn copy(&self, alloc: Global) -> Result<Lanes, AllocError>
        ensures { IfOk result (AreLanes (kind_of self.now) (rows_of self.now) (lane_at self.now)) }
    {
        match self {
            Lanes::Bools(bools) => Ok(Lanes::Bools(Bools {
                values: Vec::from_slice(alloc, bools.values.as_slice())?,
                marks: Vec::from_slice(alloc, bools.marks.as_slice())?,
            })),
            Lanes::Ints(ints) => Ok(Lanes::Ints(Ints {
                values: Vec::from_slice(alloc, ints.values.as_slice())?,
                marks: Vec::from_slice(alloc, ints.marks.as_slice())?,
            })),
            Lanes::Texts(texts) => Ok(Lanes::Texts(texts.copy(alloc)?)),
        }
    }

    /// Rows that are lent are copied, and others are left where they are.
    pub fn owned(alloc: Global, rows: Cow<'_, Lanes>) -> Result<Lanes, AllocError>
        ensures { IfOk result (AreLanes (kind_of (cow_value rows.entry)) (rows_of (cow_value rows.entry)) (lane_at (cow_value rows.entry))) }
    {
        match rows {
            Cow::Borrowed(lanes) => lanes.copy(alloc),
            Cow::Owned(lanes) => Ok(lanes),
        }
    }

    /// The rows at these places, in their order.
    pub fn gather(&self, alloc: Global, places: &[u32]) -> Result<Lanes, AllocError>
        requires { All (λ p. p < rows_of self.now) places.now }
        ensures { IfOk result (AreLanes (kind_of self.now) (length places.now) (λ k. lane_at self.now (get_or places.now k 0))) }
    {
        match self {
            Lanes::Bools(bools) => Ok(Lanes::Bools(Bools {
                values: gathered(alloc, bools.values.as_slice(), places, false)?,
                marks: gathered(alloc, bools.marks.as_slice(), places, NULL)?,
            })),
            Lanes::Ints(ints) => Ok(Lanes::Ints(Ints {
                values: gathered(alloc, ints.values.as_slice(), places, 0)?,
                marks: gathered(alloc, ints.marks.as_slice(), places, NULL)?,
            })),
            Lanes::Texts(texts) => Ok(Lanes::Texts(texts.gather(alloc, places)?)),
        }
    }

    /// The rows at these places, and nulls where there is no place.
    pub fn spread(&self, alloc: Global, index: &[Option<u32>]) -> Result<Lanes, AllocError>
        requires { All (IsIn (rows_of self.now)) index.now }
        ensures { IfOk result (AreLanes (kind_of self.now) (length index.now) (λ k. lane_or_null self.now (get_or index.now k None))) }
    {
        match self {
            Lanes::Bools(bools) => Ok(Lanes::Bools(Bools {
                values: gathered_or(alloc, bools.values.as_slice(), index, false)?,
                marks: gathered_or(alloc, bools.marks.as_slice(), index, NULL)?,
            })),
            Lanes::Ints(ints) => Ok(Lanes::Ints(Ints {
                values: gathered_or(alloc, ints.values.as_slice(), index, 0)?,
                marks: gathered_or(alloc, ints.marks.as_slice(), index, NULL)?,
            })),
            Lanes::Texts(texts) => Ok(Lanes::Texts(texts.spread(alloc, index)?)),
        }
    }

    /// Turns each mark but `FINE` into `NULL`.
    pub fn settle(&mut self)
        ensures { AreLanes (kind_of self.old) (rows_of self.old) (λ k. settled (lane_at self.old k)) self.new }
    {
        match self {
            Lanes::Bools(bools) => settle_marks(&mut bools.marks),
            Lanes::Ints(ints) => settle_marks(&mut ints.marks),
            Lanes::Texts(texts) => texts.settle(),
        }
    }
}
