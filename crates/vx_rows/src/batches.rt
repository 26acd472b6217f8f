//! Rows of a batch, added all or none.
ghost use Rattle.std.specs.Prelude.{◌≡◌, ◌≢◌, ℕ, ◌+◌, ◌<◌, ◌≤◌, length, max, slice_index, IfOk, OnErr};
ghost use Rattle.std.specs.List.{range_with_len, sum_by};
ghost use Rattle.vx_vector.specs.Batch.{kinds_of};
ghost use Rattle.vx_rows.specs.Batches.{AddsRows, Erases, blocks_of_rows};
ghost use Rattle.vx_rows.specs.Container.{Gives, IsLive, Takes, TakesBack, blocks_of_row, live, row_at, row_count};
ghost use Rattle.vx_rows.specs.Layout.{fields_of};
ghost use Rattle.vx_rows.specs.Need.{container_bytes, need_of, texts_cost};

use crate::RowContainer;
use std::alloc::{AllocError, Global};
use vx_vector::Batch;

impl RowContainer {
    /// Adds all rows of a batch or none, and answers their numbers in the batch's order.
    pub fn add_all(&mut self, alloc: Global, batch: &Batch) -> Result<Vec<u32>, AllocError>
        requires { kinds_of batch.now.columns ≡ self.old.kinds }
        ensures ok { IfOk result (λ numbers. AddsRows batch.now.columns batch.now.rows self.old self.new numbers.items) }
        ensures takes { IfOk result (λ _. Takes self.old.arena self.new.arena (blocks_of_rows self.old.extras batch.now.columns (range_with_len 0 batch.now.rows)) (texts_cost batch.now.columns)) }

        // After an error each number has the row that it had, and what was taken was given back.
        ensures err { OnErr result ((n : ℕ) → row_at self.new n ≡ row_at self.old n) }
        ensures many { OnErr result (length self.new.rows ≤ max (length self.old.rows) (row_count self.old.rows + batch.now.rows)) }
        ensures back { OnErr result (TakesBack self.old.arena self.new.arena (texts_cost batch.now.columns)) }

        // The chunks that were made are within the need, also after an error.
        ensures within { container_bytes self.new ≤ container_bytes self.old + need_of (fields_of self.old.kinds self.old.extras) batch.now.columns batch.now.rows }
        ensures kinds { self.new.kinds ≡ self.old.kinds }
        ensures extras { self.new.extras ≡ self.old.extras }
    {
        let _row = self.row_bytes();
        let (_taken, _given) = (self.arena().taken(), self.arena().given());
        let mut numbers = Vec::with_capacity(alloc, batch.rows as usize)?;
        for row in 0..batch.rows {
            match self.add(batch, row) {
                Ok(number) => numbers.push_reserved(number),
                Err(error) => {
                    self.erase_each(&numbers);
                    return Err(error);
                }
            }
        }
        Ok(numbers)
    }

    /// Erases the rows of these numbers.
    fn erase_each(&mut self, numbers: &[u32])
        requires live { (k : ℕ) → k < length numbers.now → IsLive self.old (slice_index numbers.now k) }
        requires apart { (j k : ℕ) → j < k → k < length numbers.now → slice_index numbers.now j ≢ slice_index numbers.now k }
        ensures rows { Erases numbers.now (length numbers.now) self.old self.new }
        ensures gives { Gives self.old.arena self.new.arena (sum_by (λ n. blocks_of_row (live self.old n)) numbers.now) }
        ensures kinds { self.new.kinds ≡ self.old.kinds }
        ensures extras { self.new.extras ≡ self.old.extras }
    {
        let _given = self.arena().given();
        for number in numbers {
            self.erase(*number);
        }
    }
}
