//! A container, the batch that is added to it, and the numbers of its rows.
ghost use Rattle.std.specs.Prelude.{◌≡◌};
ghost use Rattle.vx_vector.specs.Batch.{kinds_of};
ghost use Rattle.vx_row_rounds.specs.Rounds.{AreKept, AreTwo};

use crate::columns::{Table, batch_of};
use crate::filling::{add_all, erase_all};
use crate::reading::{count_equal, sum_all};
use std::alloc::{AllocError, Global};
use vx_rows::RowContainer;
use vx_vector::Batch;

#[derive(Drop)]
pub struct Rounds {
    alloc: Global,
    container: RowContainer,
    batch: Batch,
    numbers: Vec<u32>,
    ghost kept: { AreKept container.rows numbers.items },
    ghost kinds: { kinds_of batch.columns ≡ container.kinds },
    ghost rows: { batch.rows ≡ 1000 },
    ghost two: { AreTwo batch.columns },
}

impl Rounds {
    /// No rows yet.
    pub fn new(alloc: Global, table: Table) -> Result<Rounds, AllocError> {
        let batch = batch_of(alloc, table)?;
        let kinds = [batch.columns[0].kind(), batch.columns[1].kind()];
        let container = RowContainer::new(alloc, &kinds, &[])?;
        Ok(Rounds {
            alloc,
            container,
            batch,
            numbers: Vec::new(alloc),
        })
    }

    /// Clears the container and adds a million rows, so many times.
    pub fn fill(&mut self, count: u32) -> Result<(), AllocError> {
        for _ in 0..count {
            self.numbers.clear();
            self.container.clear();
            add_all(&mut self.container, &mut self.numbers, &self.batch)?;
        }
        Ok(())
    }

    /// Reads all rows so many times, and sums what their cells count.
    pub fn read(&self, count: u32) -> Result<u64, AllocError> {
        let mut sum: u64 = 0;
        for _ in 0..count {
            sum = sum.wrapping_add(sum_all(self.alloc, &self.container, &self.numbers)?);
        }
        Ok(sum)
    }

    /// Compares all rows so many times, and counts those that were equal.
    pub fn compare(&self, count: u32) -> u64 {
        let mut equal: u64 = 0;
        for _ in 0..count {
            let more = count_equal(&self.container, &self.numbers, &self.batch);
            equal = equal.saturating_add(more);
        }
        equal
    }

    /// Erases all rows and adds a million, so many times.
    pub fn change(&mut self, count: u32) -> Result<(), AllocError> {
        for _ in 0..count {
            erase_all(&mut self.container, &mut self.numbers);
            add_all(&mut self.container, &mut self.numbers, &self.batch)?;
        }
        Ok(())
    }

    /// How many blocks of texts were taken.
    pub fn taken(&self) -> u64 {
        self.container.arena().taken()
    }

    /// How many blocks of texts were given back.
    pub fn given(&self) -> u64 {
        self.container.arena().given()
    }
}
