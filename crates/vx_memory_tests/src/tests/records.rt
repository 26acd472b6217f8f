//! Records by number.

use std::test::Fail;
use vx_records::Records;

#[test]
fn numbers_rise_from_zero(rt: HostRuntime) -> Result<(), Fail> {
    let mut records = Records::new(rt.alloc(), 4);
    let first = records.add(b"abcd")?;
    let second = records.add(b"efgh")?;
    assert_eq!(rt; first, 0);
    assert_eq!(rt; second, 1);
    assert_eq!(rt; records.numbers(), 2);
    assert_eq!(rt; records.body(first), b"abcd".as_slice());
    assert_eq!(rt; records.body(second), b"efgh".as_slice());
    Ok(())
}

#[test]
fn the_number_that_was_erased_last_is_used_first(rt: HostRuntime) -> Result<(), Fail> {
    let mut records = Records::new(rt.alloc(), 1);
    let first = records.add(b"a")?;
    let second = records.add(b"b")?;
    records.erase(second);
    records.erase(first);
    assert!(rt; !records.is_live(first));
    assert_eq!(rt; records.add(b"c"), Ok(0));
    assert_eq!(rt; records.add(b"d"), Ok(1));
    assert_eq!(rt; records.add(b"e"), Ok(2));
    assert_eq!(rt; records.held(), 4_096);
    Ok(())
}

#[test]
fn a_number_used_again_leads_to_none_and_is_unmatched(rt: HostRuntime) -> Result<(), Fail> {
    let mut records = Records::new(rt.alloc(), 0);
    let first = records.add(b"")?;
    records.set_next(first, Some(7));
    records.set_matched(first);
    records.erase(first);
    let again = records.add(b"")?;
    assert_eq!(rt; again, first);
    assert_eq!(rt; records.next(again), None);
    assert!(rt; !records.matched(again));
    Ok(())
}

#[test]
fn link_and_mark_stay_over_a_write(rt: HostRuntime) -> Result<(), Fail> {
    let mut records = Records::new(rt.alloc(), 5);
    let first = records.add(b"abcde")?;
    records.set_matched(first);
    records.set_next(first, Some(3));
    records.write(first, 1, b"xy");
    assert_eq!(rt; records.next(first), Some(3));
    assert!(rt; records.matched(first));
    assert_eq!(rt; records.body(first), b"axyde".as_slice());
    Ok(())
}

#[test]
fn a_chunk_is_added_where_the_last_is_full(rt: HostRuntime) -> Result<(), Fail> {
    let mut records = Records::new(rt.alloc(), 2_040);
    let body = [7u8; 2_040];
    assert_eq!(rt; records.held(), 0);
    records.add(&body)?;
    let last = records.add(&body)?;
    assert_eq!(rt; records.held(), 4_096);
    let first = records.add(&[1u8; 2_040])?;
    assert_eq!(rt; records.held(), 8_192);
    records.write(first, 0, b"front");
    assert_eq!(rt; records.body(last), body.as_slice());
    Ok(())
}

#[test]
fn a_record_may_fill_a_chunk(rt: HostRuntime) -> Result<(), Fail> {
    let mut records = Records::new(rt.alloc(), 4_088);
    records.add(&[1u8; 4_088])?;
    let second = records.add(&[2u8; 4_088])?;
    records.write(second, 4_087, b"z");
    assert_eq!(rt; records.held(), 8_192);
    assert_eq!(rt; records.body(second)[4_087], b'z');
    Ok(())
}

#[test]
fn records_that_are_cleared_hold_nothing(rt: HostRuntime) -> Result<(), Fail> {
    let mut records = Records::new(rt.alloc(), 2);
    let first = records.add(b"ab")?;
    records.erase(first);
    records.clear();
    assert_eq!(rt; records.held(), 0);
    assert_eq!(rt; records.numbers(), 0);
    assert_eq!(rt; records.add(b"cd"), Ok(0));
    assert_eq!(rt; records.numbers(), 1);
    Ok(())
}
