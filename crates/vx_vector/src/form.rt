//! How a vector stores its rows: flat, constant or dictionary.
ghost use Rattle.std.specs.Prelude.{◌≡◌, ◌<◌, ◌↔◌, length, get_or, map, All, IfOk, IsTrue};
ghost use Rattle.std.specs.List.{range_with_len};
ghost use Rattle.vx_value.specs.Value.{owned, IsLawful};
ghost use Rattle.vx_vector.specs.Column.{wrapped, FitsKind};
ghost use Rattle.vx_vector.specs.Lanes.{kind_of, rows_of, lane_at, AreLanes};

use crate::gather::{gathered, repeated};
use crate::index::{first_places, indices_through, indices_unless};
use crate::lanes::Lanes;
use crate::selection::Selection;
use std::alloc::{AllocError, Global};
use vx_value::{Kind, ValueRef};

/// How a vector stores its rows. The base of a dictionary stores each of its own.
#[derive(Debug, Drop)]
pub(crate) enum Form {
    Flat(Lanes),
    /// One row, as often as said.
    Constant(Lanes, usize),
    /// Rows of the base by their places, and nulls where there is no place.
    Dictionary(Lanes, Vec<Option<u32>>),
}

impl Form {
    ghost use Rattle.vx_vector.specs.Form.{form_kind, form_rows, form_lane, form_value, values_of, IsSound};
    ghost use Rattle.vx_vector.specs.Decoding.{DecodesForm};

    pub(crate) fn kind(&self) -> Kind
        ensures { result ≡ form_kind self.now }
    {
        match self {
            Form::Flat(lanes) => lanes.kind(),
            Form::Constant(lanes, _) => lanes.kind(),
            Form::Dictionary(base, _) => base.kind(),
        }
    }

    pub(crate) fn len(&self) -> usize
        ensures { result ≡ form_rows self.now }
    {
        match self {
            Form::Flat(lanes) => lanes.len(),
            Form::Constant(_, count) => *count,
            Form::Dictionary(_, index) => index.len(),
        }
    }

    pub(crate) fn get(&self, row: usize) -> ValueRef<'_>
        requires sound { IsSound self.now }
        requires row { row < form_rows self.now }
        ensures is { owned result ≡ form_value self.now row }
        ensures lawful { IsLawful (owned result) }
        ensures kind { FitsKind (form_kind self.now) (owned result) }
    {
        match self {
            Form::Flat(lanes) => lanes.get(row),
            Form::Constant(lanes, _) => lanes.get(0),
            Form::Dictionary(base, index) => match index[row] {
                Some(place) => base.get(place as usize),
                None => ValueRef::Null,
            },
        }
    }

    pub(crate) fn copy(&self, alloc: Global) -> Result<Form, AllocError>
        requires { IsSound self.now }
        ensures kind { IfOk result (λ f. form_kind f ≡ form_kind self.now) }
        ensures values { IfOk result (λ f. values_of f ≡ values_of self.now) }
        ensures sound { IfOk result IsSound }
    {
        match self {
            Form::Flat(lanes) => Ok(Form::Flat(lanes.copy(alloc)?)),
            Form::Constant(lanes, count) => Ok(Form::Constant(lanes.copy(alloc)?, *count)),
            Form::Dictionary(base, index) => {
                let index = Vec::from_slice(alloc, index.as_slice())?;
                Ok(Form::Dictionary(base.copy(alloc)?, index))
            }
        }
    }

    pub(crate) fn wrap(
        self,
        alloc: Global,
        indices: &[u32],
        nulls: &[bool],
    ) -> Result<Form, AllocError>
        requires sound { IsSound self }
        requires rows { length nulls.now ≡ length indices.now }
        requires places { All (λ p. p < form_rows self) indices.now }
        ensures kind { IfOk result (λ f. form_kind f ≡ form_kind self) }
        ensures values { IfOk result (λ f. values_of f ≡ wrapped (values_of self) indices.now nulls.now) }
        ensures sound { IfOk result IsSound }
    {
        match self {
            Form::Flat(base) => {
                let index = indices_unless(alloc, indices, nulls)?;
                Ok(Form::Dictionary(base, index))
            }
            Form::Constant(base, _) => {
                let first = repeated(alloc, 0, indices.len())?;
                let index = indices_unless(alloc, first.as_slice(), nulls)?;
                Ok(Form::Dictionary(base, index))
            }
            Form::Dictionary(base, index) => {
                let index = indices_through(alloc, index.as_slice(), indices, nulls)?;
                Ok(Form::Dictionary(base, index))
            }
        }
    }

    /// All rows in buffers of their own.
    pub(crate) fn lanes(&self, alloc: Global) -> Result<Lanes, AllocError>
        requires { IsSound self.now }
        ensures { IfOk result (AreLanes (form_kind self.now) (form_rows self.now) (form_lane self.now)) }
    {
        match self {
            Form::Flat(lanes) => lanes.copy(alloc),
            Form::Constant(lanes, count) => {
                let first = repeated(alloc, 0, *count)?;
                lanes.gather(alloc, first.as_slice())
            }
            Form::Dictionary(base, index) => base.spread(alloc, index.as_slice()),
        }
    }

    /// These rows in buffers of their own.
    pub(crate) fn lanes_at(&self, alloc: Global, rows: &Selection) -> Result<Lanes, AllocError>
        requires sound { IsSound self.now }
        requires places { All (λ p. p < form_rows self.now) rows.now }
        ensures { IfOk result (AreLanes (form_kind self.now) (length rows.now) (λ k. form_lane self.now (get_or rows.now k 0))) }
    {
        match self {
            Form::Flat(lanes) => flat_lanes_at(alloc, lanes, rows),
            Form::Constant(lanes, _) => {
                let first = repeated(alloc, 0, rows.places().len())?;
                lanes.gather(alloc, first.as_slice())
            }
            Form::Dictionary(base, index) => {
                let index = gathered(alloc, index.as_slice(), rows.places(), None)?;
                base.spread(alloc, index.as_slice())
            }
        }
    }

    /// These rows; a constant stays one.
    pub(crate) fn select(&self, alloc: Global, rows: &Selection) -> Result<Form, AllocError>
        requires sound { IsSound self.now }
        requires places { All (λ p. p < form_rows self.now) rows.now }
        ensures kind { IfOk result (λ f. form_kind f ≡ form_kind self.now) }
        ensures values { IfOk result (λ f. values_of f ≡ map (λ p. form_value self.now p) rows.now) }
        ensures sound { IfOk result IsSound }
    {
        if let Form::Constant(lanes, _) = self {
            let lanes = lanes.copy(alloc)?;
            return Ok(Form::Constant(lanes, rows.places().len()));
        }
        Ok(Form::Flat(self.lanes_at(alloc, rows)?))
    }

    /// The rows as places in buffers that store each of their own.
    pub(crate) fn decode(&self, alloc: Global) -> Result<(Lanes, Vec<Option<u32>>), AllocError>
        requires { IsSound self.now }
        ensures { IfOk result (λ d. DecodesForm self.now d.0 d.1.items) }
    {
        match self {
            Form::Flat(lanes) => Ok((lanes.copy(alloc)?, first_places(alloc, lanes.len())?)),
            Form::Constant(lanes, count) => {
                Ok((lanes.copy(alloc)?, repeated(alloc, Some(0), *count)?))
            }
            Form::Dictionary(base, index) => {
                Ok((base.copy(alloc)?, Vec::from_slice(alloc, index.as_slice())?))
            }
        }
    }
}

fn flat_lanes_at(alloc: Global, lanes: &Lanes, rows: &Selection) -> Result<Lanes, AllocError>
    requires { All (λ p. p < rows_of lanes.now) rows.now }
    ensures { IfOk result (AreLanes (kind_of lanes.now) (length rows.now) (λ k. lane_at lanes.now (get_or rows.now k 0))) }
{
    if are_all_of(rows, lanes) {
        return lanes.copy(alloc);
    }
    lanes.gather(alloc, rows.places())
}

/// Whether these are all rows of the buffers.
#[tactic(auto, using(crate::proofs::SelectionLemmas::are_all))]
pub(crate) fn are_all_of(rows: &Selection, lanes: &Lanes) -> bool
    ensures { IsTrue result ↔ (rows.now ≡ range_with_len 0 (rows_of lanes.now)) }
{
    rows.is_whole() & (rows.places().len() == lanes.len())
}
