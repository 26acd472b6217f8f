//! What an expression or a kernel gives, counted.
ghost use Rattle.std.specs.Prelude.{◌≡◌, ◌<◌, length};
ghost use Rattle.vx_vector.specs.Lanes.{rows_of};

use std::alloc::AllocError;
use vx_eval::FaultMask;
use vx_value::ValueRef;
use vx_vector::{FIRST_FAULT, Lanes, Vector};

/// How many rows gave what, and the sum of the ints, the trues and the texts' bytes.
#[derive(Clone, Copy)]
pub struct Tally {
    pub values: u64,
    pub nulls: u64,
    pub faults: u64,
    pub sum: i64,
}

impl Tally {
    /// No row.
    pub fn new() -> Tally {
        Tally {
            values: 0,
            nulls: 0,
            faults: 0,
            sum: 0,
        }
    }

    /// Adds the rows of an evaluated batch. More rows than 32 bits can number count as out of memory.
    pub fn add_all(
        &mut self,
        column: &Vector,
        faults: &FaultMask,
        places: &[u32],
    ) -> Result<(), AllocError>
        requires { length column.now.values ≡ length places.now }
    {
        let rows = u32::try_from(places.len()).map_err(|_| AllocError)?;
        for row in 0..rows {
            let is_faulty = faults.get(places[row as usize]).is_some();
            self.add(column.get(row), is_faulty);
        }
        Ok(())
    }

    /// Adds the rows that a kernel gave.
    pub fn add_lanes(&mut self, lanes: &Lanes) {
        for row in 0..lanes.len() {
            self.add(lanes.get(row), is_fault(lanes, row));
        }
    }

    fn add(&mut self, value: ValueRef<'_>, is_faulty: bool) {
        if is_faulty {
            self.faults = self.faults.saturating_add(1);
            return;
        }
        match weight(value) {
            Some(weight) => {
                self.values = self.values.saturating_add(1);
                self.sum = self.sum.wrapping_add(weight);
            }
            None => self.nulls = self.nulls.saturating_add(1),
        }
    }
}

fn is_fault(lanes: &Lanes, row: usize) -> bool
    requires { row < rows_of lanes.now }
{
    match lanes {
        Lanes::Bools(bools) => bools.marks[row] >= FIRST_FAULT,
        Lanes::Ints(ints) => ints.marks[row] >= FIRST_FAULT,
        Lanes::Texts(texts) => texts.mark(row) >= FIRST_FAULT,
    }
}

fn weight(value: ValueRef<'_>) -> Option<i64> {
    match value {
        ValueRef::Null => None,
        ValueRef::Bool(b) => Some(i64::from(b)),
        ValueRef::Int(n) => Some(n),
        ValueRef::Text(text) => Some(text.len() as i64),
    }
}
