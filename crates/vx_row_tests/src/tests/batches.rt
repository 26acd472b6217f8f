//! A batch is added within its need.
ghost use Rattle.std.specs.Prelude.{◌≡◌, [], ◌∷◌, IfOk};
ghost use Rattle.vx_value.specs.declared.value.Kind.TheVariants as kinds;
ghost use Rattle.vx_vector.specs.Batch.{kinds_of};

use std::alloc::{AllocError, Global};
use std::test::Fail;
use vx_rows::RowContainer;
use vx_value::{Kind, Txt, Value};
use vx_vector::{Batch, Vector};

/// So many rows of the same text.
fn texts(alloc: Global, text: &[u8; 13], rows: u32) -> Result<Batch, AllocError>
    ensures { IfOk result (λ batch. kinds_of batch.columns ≡ kinds.Text ∷ []) }
{
    let Ok(words) = std::str::from_utf8(text) else {
        return Err(AllocError);
    };
    let value = Value::Text(Txt::of(alloc, words.as_bytes())?);
    let column = Vector::constant(alloc, Kind::Text, &value, rows)?;
    let columns = Vec::from_array(alloc, [column])?;
    Ok(Batch { columns, rows })
}

#[test]
fn a_batch_is_added_within_its_need(rt: HostRuntime) -> Result<(), Fail> {
    let mut rows = RowContainer::new(rt.alloc(), &[Kind::Text], &[])?;
    assert_eq!(rt; rows.row_bytes(), 32);
    let batch = texts(rt.alloc(), b"thirteen byte", 300)?;
    let need = rows.need_of(&batch);
    let numbers = rows.add_all(rt.alloc(), &batch)?;
    assert_eq!(rt; numbers.len(), 300);
    assert_eq!(rt; numbers[299], 299);
    // 300 rows of 32 bytes in 3 chunks, and 300 blocks of 40 bytes, 102 of them in a chunk, in 3 more.
    assert_eq!(rt; rows.bytes_held(), 24_576);
    assert_eq!(rt; need, 36_864);
    Ok(())
}
