//! Rows are added and erased; the numbers that they have are kept.
ghost use Rattle.std.specs.Prelude.{◌≡◌, ◌<◌};
ghost use Rattle.vx_vector.specs.Batch.{kinds_of};
ghost use Rattle.vx_row_rounds.specs.Rounds.{AreKept};

use std::alloc::AllocError;
use vx_rows::RowContainer;
use vx_vector::Batch;

/// How many rows are added.
const ROWS: u32 = 1_000_000;

/// Adds a million rows, those of the batch again and again.
pub fn add_all(
    container: &mut RowContainer,
    numbers: &mut Vec<u32>,
    batch: &Batch,
) -> Result<(), AllocError>
    requires kept { AreKept container.old.rows numbers.old.items }
    requires kinds { kinds_of batch.now.columns ≡ container.old.kinds }
    requires rows { batch.now.rows ≡ 1000 }
    ensures kept { AreKept container.new.rows numbers.new.items }
    ensures kinds { container.new.kinds ≡ container.old.kinds }
{
    for at in 0..ROWS {
        let number = container.add(batch, at % batch.rows)?;
        numbers.push(number)?;
    }
    Ok(())
}

/// Erases all rows whose numbers were kept, the last one first.
pub fn erase_all(container: &mut RowContainer, numbers: &mut Vec<u32>)
    requires { AreKept container.old.rows numbers.old.items }
    ensures kept { AreKept container.new.rows numbers.new.items }
    ensures kinds { container.new.kinds ≡ container.old.kinds }
{
    while let Some(number) = numbers.pop() {
        container.erase(number);
    }
}
