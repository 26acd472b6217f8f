//! Texts as chains of blocks.

use std::test::Fail;
use vx_arena::Arena;

#[test]
fn the_longest_text_takes_33_blocks(rt: HostRuntime) -> Result<(), Fail> {
    let mut arena = Arena::new(rt.alloc());
    let text = Vec::from_elem(rt.alloc(), 7u8, 65_535)?;
    let place = arena.take_text(&text)?;
    assert_eq!(rt; arena.taken(), 33);
    let mut read = Vec::new(rt.alloc());
    arena.read_text(place, 65_535, &mut read)?;
    assert!(rt; read == text);
    arena.give_text(place);
    assert_eq!(rt; arena.given(), 33);
    arena.take_text(&text)?;
    assert_eq!(rt; arena.taken(), 66);
    assert_eq!(rt; arena.held(), 131_072);
    Ok(())
}

#[test]
fn so_many_bytes_are_read_as_are_wanted(rt: HostRuntime) -> Result<(), Fail> {
    let mut arena = Arena::new(rt.alloc());
    let place = arena.take_text(b"thirteen byte")?;
    let mut read = Vec::new(rt.alloc());
    arena.read_text(place, 13, &mut read)?;
    assert_eq!(rt; read.as_slice(), b"thirteen byte".as_slice());
    arena.read_text(place, 8, &mut read)?;
    assert_eq!(rt; read.as_slice(), b"thirteen bytethirteen".as_slice());
    assert!(rt; !arena.equals(place, 13, b"thirteen bits"));
    Ok(())
}

#[test]
fn texts_stand_side_by_side(rt: HostRuntime) -> Result<(), Fail> {
    let mut arena = Arena::new(rt.alloc());
    let first = arena.take_text(b"the first text")?;
    let second = arena.take_text(b"another text, a little longer")?;
    assert_eq!(rt; arena.held(), 4_096);
    arena.give_text(first);
    assert!(rt; arena.equals(second, 29, b"another text, a little longer"));
    assert_eq!(rt; arena.taken(), 2);
    assert_eq!(rt; arena.given(), 1);
    Ok(())
}

#[test]
fn an_arena_that_is_cleared_holds_nothing(rt: HostRuntime) -> Result<(), Fail> {
    let mut arena = Arena::new(rt.alloc());
    arena.take_text(b"gone with its chunk")?;
    arena.clear();
    assert_eq!(rt; arena.held(), 0);
    assert_eq!(rt; arena.given(), 1);
    let place = arena.take_text(b"the next text is stored")?;
    assert!(rt; arena.equals(place, 23, b"the next text is stored"));
    Ok(())
}
