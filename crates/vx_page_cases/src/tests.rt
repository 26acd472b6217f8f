//! Pages from rows, and calls of a sealed store that fail one after another.
ghost use Rattle.std.specs.Prelude.{◌<◌, ◌*◌, ◌∷◌, [], length, IfOk};
ghost use Rattle.vx_value.specs.declared.value.Kind.TheVariants as kind;
ghost use Rattle.vx_value.specs.declared.value.Value.TheVariants as value;
ghost use Rattle.vx_page.specs.declared.cell.Cell.TheVariants as cell;
ghost use Rattle.vx_page.specs.declared.cell.Slot.TheVariants as slot;
ghost use Rattle.vx_page.specs.Page.{HasShape, body};

use crate::lying::LyingStore;
use std::alloc::{AllocError, Global};
use std::test::Fail;
use vx_page::{Cell, PageError, PageRow, Sealed, Slot, read_page, write_page};
use vx_store::{MemoryStore, Store};
use vx_value::{Kind, Value};

const INTS: [Slot; 1] = [Slot::Value(Kind::Int)];

/// A row of one int, or of null.
fn int_row(alloc: Global, n: Option<i64>) -> Result<PageRow, AllocError>
    ensures shape { IfOk result (λ row. HasShape (slot.Value kind.Int ∷ []) row) }
    ensures short { IfOk result (λ row. length (body (row ∷ [])) < 10) }
{
    let value = match n {
        Some(n) => Value::Int(n),
        None => Value::Null,
    };
    let cells = vec![in alloc; Cell::Value(value)]?;
    Ok(PageRow::of(cells))
}

const WORKED: [u8; 18] = [0, 0, 0, 2, 0, 0, 0, 10, 2, 0, 0, 0, 0, 0, 0, 0, 5, 0];

/// The int of a row's first cell.
fn first_int(row: &PageRow) -> Option<i64> {
    match row.cells().first() {
        Some(Cell::Value(Value::Int(n))) => Some(*n),
        _ => None,
    }
}

fn worked_page(alloc: Global) -> Result<Vec<u8>, AllocError> {
    let rows = vec![in alloc; int_row(alloc, Some(5))?, int_row(alloc, None)?]?;
    write_page(alloc, &rows, &[Slot::Value(Kind::Int)])
}

#[test]
fn the_worked_page_is_written_and_read(rt: HostRuntime) -> Result<(), Fail> {
    let alloc = rt.alloc();
    let bytes = worked_page(alloc)?;
    assert_eq!(rt; bytes.as_slice(), WORKED.as_slice());
    let rows = read_page(alloc, &WORKED, &INTS)?;
    assert_eq!(rt; rows.len(), 2);
    let mut ints = rows.iter().map(first_int);
    assert_eq!(rt; ints.next(), Some(Some(5)));
    assert_eq!(rt; ints.next(), Some(None));
    Ok(())
}

/// The page of a row with one wide int, and the int that it is read as.
fn wide(alloc: Global, n: i128) -> Result<(Vec<u8>, Option<i128>), PageError> {
    let row = PageRow::of(vec![in alloc; Cell::Wide(n)]?);
    let rows = vec![in alloc; row]?;
    let bytes = write_page(alloc, &rows, &[Slot::Wide])?;
    let read = read_page(alloc, &bytes, &[Slot::Wide])?;
    for row in read {
        for cell in row.into_cells() {
            if let Cell::Wide(n) = cell {
                return Ok((bytes, Some(n)));
            }
        }
    }
    Ok((bytes, None))
}

#[test]
fn wide_ints_reach_the_edges_of_128_bits(rt: HostRuntime) -> Result<(), Fail> {
    for n in [i128::MIN, -1, 0, i128::MAX] {
        let (bytes, read) = wide(rt.alloc(), n)?;
        assert_eq!(rt; bytes.len(), 25);
        assert_eq!(rt; read, Some(n));
    }
    let (bytes, _) = wide(rt.alloc(), i128::MIN)?;
    assert_eq!(rt; bytes.get(8), Some(&4));
    assert_eq!(rt; bytes.get(9), Some(&0x80));
    Ok(())
}

/// Which of four calls of the store inside fails where that of this number is to fail, and how many
/// faults and bytes are counted then.
fn failing_call(alloc: Global, number: u64) -> Result<(u64, u64, u64), AllocError> {
    let store = MemoryStore::new(alloc, vec![in alloc; number]?);
    let mut sealed = Sealed::new(alloc, store);
    let failed = calls_until_one_fails(alloc, &mut sealed)?;
    Ok((failed, sealed.faults(), sealed.appended()))
}

fn calls_until_one_fails<S: Store + Drop>(
    alloc: Global,
    sealed: &mut Sealed<S>,
) -> Result<u64, AllocError> {
    let rows = vec![in alloc; int_row(alloc, Some(5))?]?;
    let Ok(file) = sealed.create() else {
        return Ok(0);
    };
    let Ok(page) = sealed.append(file, &rows, &[Slot::Value(Kind::Int)]) else {
        return Ok(1);
    };
    if sealed.read(file, page, &[Slot::Value(Kind::Int)]).is_err() {
        return Ok(2);
    }
    if sealed.remove(file).is_err() {
        return Ok(3);
    }
    Ok(4)
}

#[test]
fn a_sealed_store_counts_each_failing_call(rt: HostRuntime) -> Result<(), Fail> {
    let alloc = rt.alloc();
    assert_eq!(rt; failing_call(alloc, 0)?, (0, 1, 0));
    assert_eq!(rt; failing_call(alloc, 1)?, (1, 1, 0));
    assert_eq!(rt; failing_call(alloc, 2)?, (2, 1, 17));
    assert_eq!(rt; failing_call(alloc, 3)?, (3, 1, 17));
    assert_eq!(rt; failing_call(alloc, 4)?, (4, 0, 17));
    Ok(())
}

/// Which of the four calls fails over a store that turns these bits of its reads, and how many faults are
/// counted then.
fn call_that_a_lie_fails(alloc: Global, place: usize, mask: u8) -> Result<(u64, u64), AllocError> {
    let store = LyingStore {
        bytes: Vec::new(alloc),
        created: 0,
        place,
        mask,
    };
    let mut sealed = Sealed::new(alloc, store);
    let failed = calls_until_one_fails(alloc, &mut sealed)?;
    Ok((failed, sealed.faults()))
}

#[test]
fn a_turned_bit_fails_the_read_and_adds_one_fault(rt: HostRuntime) -> Result<(), Fail> {
    let alloc = rt.alloc();
    assert_eq!(rt; call_that_a_lie_fails(alloc, 0, 0)?, (4, 0));
    for place in 0..17 {
        for mask in [1, 2, 4, 8, 16, 32, 64, 128] {
            let failed = call_that_a_lie_fails(alloc, place, mask)?;
            assert_eq!(rt; failed, (2, 1), "of byte {place}, bits {mask}");
        }
    }
    Ok(())
}
