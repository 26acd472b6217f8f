//! Values and nulls of each kind in one row.
ghost use Rattle.std.specs.Prelude.{◌≡◌, [], ◌∷◌, IfOk};
ghost use Rattle.vx_value.specs.declared.value.Kind.TheVariants as kinds;
ghost use Rattle.vx_vector.specs.Batch.{kinds_of};
ghost use Rattle.vx_vector.specs.Column.{FitsKind};

use std::alloc::{AllocError, Global};
use std::test::Fail;
use vx_rows::RowContainer;
use vx_value::{Kind, Txt, Value};
use vx_vector::{Batch, Vector};

/// One row of a bool, an int, a text and an int.
fn one_row(
    alloc: Global,
    flag: &Value,
    least: &Value,
    text: &Value,
    most: &Value,
) -> Result<Batch, AllocError>
    requires flag { FitsKind kinds.Bool flag.now }
    requires least { FitsKind kinds.Int least.now }
    requires text { FitsKind kinds.Text text.now }
    requires most { FitsKind kinds.Int most.now }
    ensures kinds { IfOk result (λ batch. kinds_of batch.columns ≡ kinds.Bool ∷ kinds.Int ∷ kinds.Text ∷ kinds.Int ∷ []) }
    ensures rows { IfOk result (λ batch. batch.rows ≡ 1) }
{
    let first = Vector::constant(alloc, Kind::Bool, flag, 1)?;
    let second = Vector::constant(alloc, Kind::Int, least, 1)?;
    let third = Vector::constant(alloc, Kind::Text, text, 1)?;
    let fourth = Vector::constant(alloc, Kind::Int, most, 1)?;
    let columns = Vec::from_array(alloc, [first, second, third, fourth])?;
    Ok(Batch { columns, rows: 1 })
}

/// No rows of such columns.
fn no_rows(alloc: Global) -> Result<RowContainer, AllocError>
    ensures { IfOk result (λ rows. rows.kinds ≡ kinds.Bool ∷ kinds.Int ∷ kinds.Text ∷ kinds.Int ∷ []) }
{
    RowContainer::new(alloc, &[Kind::Bool, Kind::Int, Kind::Text, Kind::Int], &[])
}

#[test]
fn values_of_each_kind_stand_side_by_side(rt: HostRuntime) -> Result<(), Fail> {
    let text = Value::Text(Txt::of(rt.alloc(), b"twelve bytes")?);
    let (flag, least) = (Value::Bool(true), Value::Int(i64::MIN));
    let most = Value::Int(i64::MAX);
    let batch = one_row(rt.alloc(), &flag, &least, &text, &most)?;
    let mut rows = no_rows(rt.alloc())?;
    let row = rows.add(&batch, 0)?;
    let read = rows.get(rt.alloc(), row)?;
    match read.cells() {
        [
            Value::Bool(flag),
            Value::Int(least),
            Value::Text(text),
            Value::Int(most),
        ] => {
            assert!(rt; *flag);
            assert_eq!(rt; *least, i64::MIN);
            assert_eq!(rt; text.as_bytes(), b"twelve bytes".as_slice());
            assert_eq!(rt; *most, i64::MAX);
        }
        _ => assert!(rt; false),
    }
    Ok(())
}

#[test]
fn nulls_of_each_kind_stand_side_by_side(rt: HostRuntime) -> Result<(), Fail> {
    let null = Value::Null;
    let batch = one_row(rt.alloc(), &null, &null, &null, &null)?;
    let mut rows = no_rows(rt.alloc())?;
    let row = rows.add(&batch, 0)?;
    let read = rows.get(rt.alloc(), row)?;
    assert_eq!(rt; read.cells().len(), 4);
    for cell in read.cells() {
        assert!(rt; cell.as_ref().is_null());
    }
    Ok(())
}
