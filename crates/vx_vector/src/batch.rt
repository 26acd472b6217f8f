//! Batches: columns of one length.
ghost use Rattle.std.specs.Prelude.{◌≡◌, IfOk};

use crate::vector::Vector;
use std::alloc::{AllocError, Global};
use std::marker::Model;

/// Columns of `rows` values each.
#[derive(Debug, Drop)]
pub struct Batch {
    pub columns: Vec<Vector>,
    pub rows: u32,
}

impl Model for Batch {
    ghost use Rattle.vx_vector.specs.Batch.{BatchModel, batch_of, IsEven};

    ghost Value = { BatchModel };

    ghost view = { λ b. batch_of b.columns.items b.rows };

    ghost invariant = { λ b. IsEven (batch_of b.columns.items b.rows) };
}

impl Batch {
    /// The same columns, in memory of their own.
    pub fn copy(&self, alloc: Global) -> Result<Batch, AllocError>
        ensures { IfOk result (λ b. b ≡ self.now) }
    {
        let columns = copy_all(alloc, self.columns.as_slice())?;
        Ok(Batch {
            columns,
            rows: self.rows,
        })
    }
}

fn copy_all(alloc: Global, columns: &[Vector]) -> Result<Vec<Vector>, AllocError>
    ensures { IfOk result (λ copies. copies.items ≡ columns.now) }
{
    let mut copies = Vec::with_capacity(alloc, columns.len())?;
    for column in columns {
        copies.push(column.copy(alloc)?)?;
    }
    Ok(copies)
}
