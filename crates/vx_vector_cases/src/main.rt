//! Vectors of every encoding and kernels over marks, each printed as letters and digits, to be compared with what was
//! written down by hand.
#![tactic(auto)]

mod kernels;
mod letters;

use anyhow::Result;
use letters::{copied, flat, lengths, selected, texts, wrap, wraps};
use std::alloc::{AllocError, Global};
use vx_value::Kind;
use vx_vector::{FINE, NULL, Texts, Vector};

fn main(rt: HostRuntime) -> Result<()> {
    let alloc = rt.alloc();
    for (kind, stored, first) in [
        (Kind::Int, b"3n7", b'3'),
        (Kind::Bool, b"tfn", b'f'),
        (Kind::Text, b"ane", b'a'),
        (Kind::Text, b"nan", b'n'),
    ] {
        let told = wraps(alloc, kind, stored, first)?;
        println!(rt; "wrapped {}", String::from_utf8_lossy(alloc, &told)?)?;
    }
    for (kind, stored, first) in [
        (Kind::Int, b"357", b'3'),
        (Kind::Bool, b"tnf", b'n'),
        (Kind::Text, b"nea", b'a'),
    ] {
        let told = selected(alloc, kind, stored, first)?;
        println!(rt; "selected {}", String::from_utf8_lossy(alloc, &told)?)?;
    }
    let told = copied(
        alloc,
        flat(alloc, Kind::Int, b"1n3")?,
        flat(alloc, Kind::Text, b"aen")?,
    )?;
    println!(rt; "copied {}", String::from_utf8_lossy(alloc, &told)?)?;
    print!(rt; "{}", long_texts(alloc)?)?;
    print!(rt; "{}", joined(alloc)?)?;
    print!(rt; "{}", kernels::lines(alloc)?)?;
    print!(rt; "{}", kernels::answers(alloc)?)?;
    Ok(())
}

/// The lengths of texts about the edges, as they are stored and in another order, where a null counts as 1.
fn long_texts(alloc: Global) -> Result<String> {
    let stored = texts(alloc, &[0, 12, 13, 65_535])?;
    let counted = lengths(alloc, &stored)?;
    let turned = turned_lengths(alloc, stored)?;
    Ok(format!(in alloc; "lengths {counted:?} {turned:?}\n")?)
}

/// The lengths of a vector's last text first, without the third.
fn turned_lengths(alloc: Global, stored: Vector) -> Result<Vec<usize>, AllocError> {
    let wrapped = wrap(alloc, stored, &[3, 2, 1, 0], &[false, true, false, false])?;
    lengths(alloc, &wrapped.flatten(alloc)?)
}

/// A null and a text of two parts, one behind the other.
fn joined(alloc: Global) -> Result<String> {
    let mut texts = Texts::with_room(alloc, 1, 4)?;
    texts.push(NULL, b"ab")?;
    texts.push_joined(b"cd", b"e")?;
    let first = String::from_utf8_lossy(alloc, texts.get(0))?;
    let second = String::from_utf8_lossy(alloc, texts.get(1))?;
    let is_fine = texts.mark(1) == FINE;
    Ok(format!(in alloc; "joined {first} {second} {is_fine}\n")?)
}
