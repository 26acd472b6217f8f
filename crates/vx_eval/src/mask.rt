//! The fault mask of a batch.
ghost use Rattle.std.specs.Prelude.{◌≡◌, ◌≢◌, ℕ, ◌<◌, length, get_or, None, All, IfOk, IsTrue};
ghost use Rattle.vx_eval.specs.Got.{fault_under};
ghost use Rattle.vx_vector.specs.Lanes.{rows_of, lane_at};
ghost use Rattle.vx_vector.specs.Selection.{ascends};

use crate::marks::{DIVIDE_BY_ZERO, OVERFLOW};
use std::alloc::{AllocError, Global};
use std::marker::Model;
use vx_expr::Fault;
use vx_vector::{Lanes, Selection};

/// For each selected row of a batch its fault, if it has one.
#[derive(Debug, Drop)]
pub struct FaultMask {
    /// By the rows' places in the batch; none at all where no row has a fault.
    faults: Vec<Option<Fault>>,
}

impl Model for FaultMask {
    ghost use Rattle.std.specs.Prelude.{List, Option, ⊤};
    ghost use Rattle.vx_expr.specs.declared.outcome.Fault.{Fault};

    ghost Value = { List (Option Fault) };

    ghost view = { λ m. m.faults.items };

    ghost invariant = { λ m. ⊤ };
}

impl FaultMask {
    /// The fault of a row, by its place in the batch; none of a row that wasn't selected.
    pub fn get(&self, row: u32) -> Option<Fault>
        ensures { result ≡ get_or self.now row None }
    {
        match self.faults.get(row as usize) {
            Some(fault) => *fault,
            None => None,
        }
    }
}

/// The faults of the rows of a batch, which has so many, that lie at these places.
#[tactic(auto, using(crate::proofs::MaskLemmas::none_told))]
pub(crate) fn faults_of(
    alloc: Global,
    lanes: &Lanes,
    rows: &Selection,
    count: u32,
) -> Result<FaultMask, AllocError>
    requires rows { rows_of lanes.now ≡ length rows.now }
    requires places { All (λ p. p < count) rows.now }
    ensures told { IfOk result (λ m. (k : ℕ) → k < length rows.now → get_or m (get_or rows.now k 0) None ≡ fault_under (lane_at lanes.now k).mark) }
    ensures others { IfOk result (λ m. (place : ℕ) → All (λ q. q ≢ place) rows.now → get_or m place None ≡ None) }
{
    if !lanes.has_fault() {
        return Ok(FaultMask {
            faults: Vec::new(alloc),
        });
    }
    let faults = told_by_place(alloc, lanes, rows.places(), count as usize)?;
    Ok(FaultMask { faults })
}

#[tactic(auto, using(crate::proofs::MaskLemmas::none_yet))]
fn told_by_place(
    alloc: Global,
    lanes: &Lanes,
    places: &[u32],
    count: usize,
) -> Result<Vec<Option<Fault>>, AllocError>
    requires rows { rows_of lanes.now ≡ length places.now }
    requires places { All (λ p. p < count) places.now }
    requires ascends { IsTrue (ascends places.now) }
    ensures told { IfOk result (λ faults. (k : ℕ) → k < length places.now → get_or faults.items (get_or places.now k 0) None ≡ fault_under (lane_at lanes.now k).mark) }
    ensures others { IfOk result (λ faults. (place : ℕ) → All (λ q. q ≢ place) places.now → get_or faults.items place None ≡ None) }
{
    let mut faults = vec![in alloc; None; count]?;
    for row in 0..places.len() {
        faults[places[row] as usize] = fault_of(mark_at(lanes, row));
    }
    Ok(faults)
}

fn fault_of(mark: u8) -> Option<Fault>
    ensures { result ≡ fault_under mark }
{
    if mark < OVERFLOW {
        return None;
    }
    if mark == OVERFLOW {
        return Some(Fault::Overflow);
    }
    if mark == DIVIDE_BY_ZERO {
        return Some(Fault::DivideByZero);
    }
    Some(Fault::TooLong)
}

fn mark_at(lanes: &Lanes, row: usize) -> u8
    requires { row < rows_of lanes.now }
    ensures { result ≡ (lane_at lanes.now row).mark }
{
    match lanes {
        Lanes::Bools(bools) => bools.marks[row],
        Lanes::Ints(ints) => ints.marks[row],
        Lanes::Texts(texts) => texts.mark(row),
    }
}
