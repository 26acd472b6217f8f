//! Rows that come and go, their accumulators, and the blocks of their texts.
ghost use Rattle.std.specs.Prelude.{◌≡◌, [], ◌∷◌, IfOk};
ghost use Rattle.vx_value.specs.declared.value.Kind.TheVariants as kinds;
ghost use Rattle.vx_vector.specs.Batch.{kinds_of};
ghost use Rattle.vx_rows.specs.Container.{IsLive};

use std::alloc::{AllocError, Global};
use std::test::Fail;
use vx_rows::{Extra, RowContainer};
use vx_value::{Kind, Txt, Value, ValueRef};
use vx_vector::{Batch, Vector};

/// One row with a text.
fn one_text(alloc: Global, words: &str) -> Result<Batch, AllocError>
    ensures kinds { IfOk result (λ batch. kinds_of batch.columns ≡ kinds.Text ∷ []) }
    ensures rows { IfOk result (λ batch. batch.rows ≡ 1) }
{
    if words.len() > 65_535 {
        return Err(AllocError);
    }
    let value = Value::Text(Txt::of(alloc, words.as_bytes())?);
    let column = Vector::constant(alloc, Kind::Text, &value, 1)?;
    let columns = Vec::from_array(alloc, [column])?;
    Ok(Batch { columns, rows: 1 })
}

/// Adds a row with this text.
fn add_text(rows: &mut RowContainer, alloc: Global, words: &str) -> Result<u32, AllocError>
    requires { rows.old.kinds ≡ kinds.Text ∷ [] }
    ensures kinds { rows.new.kinds ≡ kinds.Text ∷ [] }
    ensures there { IfOk result (λ number. IsLive rows.new number) }
{
    let batch = one_text(alloc, words)?;
    rows.add(&batch, 0)
}

/// One row with an int or a null.
fn one_int(alloc: Global, value: Option<i64>) -> Result<Batch, AllocError>
    ensures kinds { IfOk result (λ batch. kinds_of batch.columns ≡ kinds.Int ∷ []) }
    ensures rows { IfOk result (λ batch. batch.rows ≡ 1) }
{
    let column = match value {
        Some(n) => Vector::constant(alloc, Kind::Int, &Value::Int(n), 1)?,
        None => Vector::constant(alloc, Kind::Int, &Value::Null, 1)?,
    };
    let columns = Vec::from_array(alloc, [column])?;
    Ok(Batch { columns, rows: 1 })
}

#[test]
fn a_row_is_read_as_it_was_added(rt: HostRuntime) -> Result<(), Fail> {
    let mut rows = RowContainer::new(rt.alloc(), &[Kind::Int], &[])?;
    let first = rows.add(&one_int(rt.alloc(), Some(-7))?, 0)?;
    let row = rows.get(rt.alloc(), first)?;
    assert!(rt; matches!(row.get(0), ValueRef::Int(-7)));
    let second = rows.add(&one_int(rt.alloc(), None)?, 0)?;
    let row = rows.get(rt.alloc(), second)?;
    assert!(rt; matches!(row.get(0), ValueRef::Null));
    assert_eq!(rt; rows.live(rt.alloc())?.len(), 2);
    Ok(())
}

#[test]
fn keys_are_compared_in_place(rt: HostRuntime) -> Result<(), Fail> {
    let mut rows = RowContainer::new(rt.alloc(), &[Kind::Text], &[])?;
    let batch = one_text(rt.alloc(), "a text of 20 bytes..")?;
    let row = rows.add(&batch, 0)?;
    assert!(rt; rows.key_equals(row, &[0], &batch, 0, &[0]));
    let other = one_text(rt.alloc(), "a text of 20 bytes,,")?;
    assert!(rt; !rows.key_equals(row, &[0], &other, 0, &[0]));
    Ok(())
}

#[test]
fn an_erased_number_is_used_again(rt: HostRuntime) -> Result<(), Fail> {
    let mut rows = RowContainer::new(rt.alloc(), &[Kind::Int], &[])?;
    let batch = one_int(rt.alloc(), Some(1))?;
    let first = rows.add(&batch, 0)?;
    rows.set_matched(first);
    rows.erase(first);
    let again = rows.add(&batch, 0)?;
    assert_eq!(rt; again, first);
    assert!(rt; !rows.matched(again));
    assert_eq!(rt; rows.next(again), None);
    rows.clear();
    assert_eq!(rt; rows.bytes_held(), 0);
    Ok(())
}

#[test]
fn an_accumulator_has_bytes(rt: HostRuntime) -> Result<(), Fail> {
    let mut rows = RowContainer::new(rt.alloc(), &[Kind::Int], &[Extra::Bytes(8)])?;
    let row = rows.add(&one_int(rt.alloc(), Some(1))?, 0)?;
    assert_eq!(rt; rows.extra(row, 0), [0u8; 8].as_slice());
    rows.set_extra(row, 0, b"8 bytes.");
    assert_eq!(rt; rows.extra(row, 0), b"8 bytes.".as_slice());
    Ok(())
}

#[test]
fn an_old_text_of_a_slot_is_given_back(rt: HostRuntime) -> Result<(), Fail> {
    let mut rows = RowContainer::new(rt.alloc(), &[Kind::Int], &[Extra::Slot(Kind::Text)])?;
    let row = rows.add(&one_int(rt.alloc(), Some(1))?, 0)?;
    let text = Txt::of(rt.alloc(), b"thirteen byte")?;
    rows.set_slot(row, 0, ValueRef::Text(text.as_bytes()))?;
    rows.set_slot(row, 0, ValueRef::Text(text.as_bytes()))?;
    assert_eq!(rt; rows.arena().taken(), 2);
    assert_eq!(rt; rows.arena().given(), 1);
    let value = rows.slot(rt.alloc(), row, 0)?;
    assert!(rt; matches!(value.as_ref(), ValueRef::Text(b"thirteen byte")));
    rows.erase(row);
    assert_eq!(rt; rows.arena().given(), 2);
    Ok(())
}

#[test]
fn texts_past_12_bytes_take_blocks_and_give_them_back(rt: HostRuntime) -> Result<(), Fail> {
    let mut rows = RowContainer::new(rt.alloc(), &[Kind::Text], &[])?;
    add_text(&mut rows, rt.alloc(), "twelve bytes")?;
    assert_eq!(rt; rows.arena().taken(), 0);
    add_text(&mut rows, rt.alloc(), "thirteen byte")?;
    let longest = "a".repeat(rt.alloc(), 65_535)?;
    let third = add_text(&mut rows, rt.alloc(), longest.as_str())?;
    assert_eq!(rt; rows.arena().taken(), 34);
    assert_eq!(rt; rows.bytes_held(), 135_168);
    rows.erase(third);
    assert_eq!(rt; rows.arena().given(), 33);
    Ok(())
}
