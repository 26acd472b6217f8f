//! The bytes that a put of a batch takes at most.
ghost use Rattle.std.specs.Prelude.{◌≡◌, [], ◌∷◌, IfOk};
ghost use Rattle.vx_value.specs.declared.value.Kind.TheVariants as kinds;
ghost use Rattle.vx_vector.specs.Batch.{kinds_of};

use std::alloc::{AllocError, Global};
use std::test::Fail;
use vx_rows::RowContainer;
use vx_value::{Kind, Txt, Value};
use vx_vector::{Batch, Vector};

/// So many rows of one text of so many bytes.
fn texts(alloc: Global, len: usize, rows: u32) -> Result<Batch, AllocError>
    ensures { IfOk result (λ batch. kinds_of batch.columns ≡ kinds.Text ∷ []) }
{
    let words = "a".repeat(alloc, len)?;
    if words.len() > 65_535 {
        return Err(AllocError);
    }
    let value = Value::Text(Txt::of(alloc, words.as_str().as_bytes())?);
    let column = Vector::constant(alloc, Kind::Text, &value, rows)?;
    let columns = Vec::from_array(alloc, [column])?;
    Ok(Batch { columns, rows })
}

/// The length of a text, how many rows have it, and their need: rows of 32 bytes in chunks of 4,096, and as many
/// chunks more as the blocks need where each chunk but the last loses less than a block. A text of 12 bytes has
/// no block, one of 13 a block of 40, one of 2,040 a block of 2,056, and the longest 32 of these and one of 520.
const NEEDS: [(usize, u32, u64); 6] = [
    (12, 128, 4_096),
    (12, 129, 8_192),
    (13, 50, 8_192),
    (13, 51, 12_288),
    (2_040, 1, 12_288),
    (65_535, 1, 139_264),
];

#[test]
fn texts_need_their_rows_and_their_blocks(rt: HostRuntime) -> Result<(), Fail> {
    for (len, rows, need) in NEEDS {
        let container = RowContainer::new(rt.alloc(), &[Kind::Text], &[])?;
        let batch = texts(rt.alloc(), len, rows)?;
        assert_eq!(rt;
            container.need_of(&batch),
            need,
            "{rows} texts of {len} bytes"
        );
    }
    Ok(())
}
