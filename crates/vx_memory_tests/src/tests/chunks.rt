//! Chunks of bytes by number.

use std::test::Fail;
use vx_raw::{Place, Region};

#[test]
fn bytes_stand_where_they_were_written(rt: HostRuntime) -> Result<(), Fail> {
    let mut region = Region::new(rt.alloc());
    let chunk = region.grow(16)?;
    region.write(Place { chunk, at: 5 }, b"abc");
    region.write(Place { chunk, at: 7 }, b"de");
    assert_eq!(rt;
        region.bytes(Place { chunk, at: 4 }, 6),
        b"\0abde\0".as_slice()
    );
    assert_eq!(rt; region.bytes(Place { chunk, at: 16 }, 0), b"".as_slice());
    region.close();
    Ok(())
}

#[test]
fn other_chunks_stay_zeros(rt: HostRuntime) -> Result<(), Fail> {
    let mut region = Region::new(rt.alloc());
    let first = region.grow(8)?;
    let second = region.grow(8)?;
    region.write(
        Place {
            chunk: first,
            at: 0,
        },
        b"overwritten bytes".split_at(8).0,
    );
    assert_eq!(rt;
        region.bytes(
            Place {
                chunk: first,
                at: 0
            },
            8
        ),
        b"overwrit".as_slice()
    );
    assert_eq!(rt;
        region.bytes(
            Place {
                chunk: second,
                at: 0
            },
            8
        ),
        b"\0\0\0\0\0\0\0\0".as_slice()
    );
    Ok(())
}

#[test]
fn a_chunk_that_is_shed_keeps_its_number(rt: HostRuntime) -> Result<(), Fail> {
    let mut region = Region::new(rt.alloc());
    assert_eq!(rt; region.grow(4_096), Ok(0));
    assert_eq!(rt; region.grow(8), Ok(1));
    assert_eq!(rt; region.held(), 4_104);
    region.shed(0);
    region.shed(0);
    assert_eq!(rt; region.held(), 8);
    assert_eq!(rt; region.bytes(Place { chunk: 0, at: 0 }, 0), b"".as_slice());
    assert_eq!(rt; region.grow(16), Ok(2));
    assert_eq!(rt; region.held(), 24);
    Ok(())
}

#[test]
fn numbers_start_anew_when_nothing_is_held(rt: HostRuntime) -> Result<(), Fail> {
    let mut region = Region::new(rt.alloc());
    assert_eq!(rt; region.grow(8), Ok(0));
    assert_eq!(rt; region.grow(8), Ok(1));
    region.shed(1);
    region.shed(0);
    assert_eq!(rt; region.held(), 0);
    assert_eq!(rt; region.grow(8), Ok(0));
    Ok(())
}
