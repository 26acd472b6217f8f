//! Rows are read, and compared with those that they were added from.
ghost use Rattle.std.specs.Prelude.{◌≡◌};
ghost use Rattle.vx_vector.specs.Batch.{kinds_of};
ghost use Rattle.vx_row_rounds.specs.Rounds.{AreKept, AreTwo};

use std::alloc::{AllocError, Global};
use vx_rows::RowContainer;
use vx_value::{Row, Value};
use vx_vector::Batch;

/// Reads each row, and sums what its cells count.
pub fn sum_all(alloc: Global, container: &RowContainer, numbers: &[u32]) -> Result<u64, AllocError>
    requires { AreKept container.now.rows numbers.now }
{
    let mut sum: u64 = 0;
    for number in numbers {
        let row = container.get(alloc, *number)?;
        sum = sum.wrapping_add(tally(&row));
    }
    Ok(sum)
}

/// Ints count as they are, a null is 1, and of a text its length.
fn tally(row: &Row) -> u64 {
    let mut sum: u64 = 0;
    for cell in row.cells() {
        sum = sum.wrapping_add(worth(cell));
    }
    sum
}

fn worth(cell: &Value) -> u64 {
    match cell {
        Value::Null => 1,
        Value::Bool(b) => u64::from(*b),
        Value::Int(n) => n.cast_unsigned(),
        Value::Text(text) => text.as_bytes().len() as u64,
    }
}

/// Compares both columns of each row with the row of the batch that it was added from, and counts those that
/// are equal.
pub fn count_equal(container: &RowContainer, numbers: &[u32], batch: &Batch) -> u64
    requires kept { AreKept container.now.rows numbers.now }
    requires two { AreTwo batch.now.columns }
    requires kinds { kinds_of batch.now.columns ≡ container.now.kinds }
    requires rows { batch.now.rows ≡ 1000 }
{
    let both = [0, 1];
    let mut equal: u64 = 0;
    for (at, number) in numbers.iter().enumerate() {
        let row = (at % 1_000) as u32;
        if container.key_equals(*number, &both, batch, row, &both) {
            equal = equal.saturating_add(1);
        }
    }
    equal
}
