//! Kernels alone, over the first two columns of the table.
ghost use Rattle.std.specs.Prelude.{◌≡◌, length};

use crate::parts::Part;
use crate::tally::Tally;
use std::alloc::{AllocError, Global};
use vx_eval::kernels::{Less, Plus, compare_ints, of_ints};
use vx_vector::{Ints, Lanes};

/// A kernel over two columns of ints.
#[derive(Clone, Copy)]
pub enum Kernel {
    Plus,
    Less,
}

/// Two columns of as many ints.
#[derive(Drop)]
pub struct Pair {
    left: Ints,
    right: Ints,
    ghost even: { length right.marks.items ≡ length left.marks.items },
}

/// The kernel of this name, if it is one's.
pub fn kernel_of(name: &str) -> Option<Kernel> {
    match name {
        "kernel_plus" => Some(Kernel::Plus),
        "kernel_lt" => Some(Kernel::Less),
        _ => None,
    }
}

/// The first two columns of each batch.
pub fn pairs(alloc: Global, parts: &[Part]) -> Result<Vec<Pair>, AllocError> {
    let mut pairs = Vec::with_capacity(alloc, parts.len())?;
    for part in parts {
        match pair_in(alloc, part)? {
            Some(pair) => pairs.push(pair)?,
            None => {}
        }
    }
    Ok(pairs)
}

fn pair_in(alloc: Global, part: &Part) -> Result<Option<Pair>, AllocError> {
    let columns = &part.batch.columns;
    if columns.len() < 2 {
        return Ok(None);
    }
    let left = Lanes::owned(alloc, columns[0].lanes_at(alloc, &part.rows)?)?;
    let right = Lanes::owned(alloc, columns[1].lanes_at(alloc, &part.rows)?)?;
    Ok(pair_of(left, right))
}

fn pair_of(left: Lanes, right: Lanes) -> Option<Pair> {
    match left {
        Lanes::Ints(left) => match right {
            Lanes::Ints(right) => even(left, right),
            _ => None,
        },
        _ => None,
    }
}

fn even(left: Ints, right: Ints) -> Option<Pair> {
    if left.marks.len() == right.marks.len() {
        return Some(Pair { left, right });
    }
    None
}

/// Goes over the pairs so many times, and answers how many rows came.
pub fn kernel_turns(
    alloc: Global,
    kernel: Kernel,
    pairs: &[Pair],
    count: u64,
) -> Result<u64, AllocError> {
    let mut rows: u64 = 0;
    for _ in 0..count {
        rows = rows.saturating_add(kernel_turn(alloc, kernel, pairs)?);
    }
    Ok(rows)
}

fn kernel_turn(alloc: Global, kernel: Kernel, pairs: &[Pair]) -> Result<u64, AllocError> {
    let mut rows: u64 = 0;
    for pair in pairs {
        let lanes = applied(alloc, kernel, pair)?;
        rows = rows.saturating_add(lanes.len() as u64);
    }
    Ok(rows)
}

fn applied(alloc: Global, kernel: Kernel, pair: &Pair) -> Result<Lanes, AllocError> {
    match kernel {
        Kernel::Plus => Ok(Lanes::Ints(of_ints::<Plus>(alloc, &pair.left, &pair.right)?)),
        Kernel::Less => Ok(Lanes::Bools(compare_ints::<Less>(alloc, &pair.left, &pair.right)?)),
    }
}

/// What the kernel gives, row by row.
pub fn first_kernel_turn(
    alloc: Global,
    kernel: Kernel,
    pairs: &[Pair],
) -> Result<Tally, AllocError> {
    let mut tally = Tally::new();
    for pair in pairs {
        let lanes = applied(alloc, kernel, pair)?;
        tally.add_lanes(&lanes);
    }
    Ok(tally)
}
