//! Items at places of a list.
ghost use Rattle.std.specs.Prelude.{◌≡◌, length, get_or, map, replicate, All, IfOk};
ghost use Rattle.vx_vector.specs.Index.{IsIn, item_or};

use std::alloc::{AllocError, Global};

/// The items at these places, in their order, and another one past the end.
pub(crate) fn gathered<T: Copy>(
    alloc: Global,
    from: &[T],
    places: &[u32],
    other: T,
) -> Result<Vec<T>, AllocError>
    ensures { IfOk result (λ v. v.items ≡ map (λ p. get_or from.now p other) places.now) }
{
    let mut picked = Vec::with_capacity(alloc, places.len())?;
    for place in places {
        match from.get(*place as usize) {
            Some(item) => picked.push(*item)?,
            None => picked.push(other)?,
        }
    }
    Ok(picked)
}

/// The items at these places, and another one where there is no place.
pub(crate) fn gathered_or<T: Copy>(
    alloc: Global,
    from: &[T],
    index: &[Option<u32>],
    other: T,
) -> Result<Vec<T>, AllocError>
    requires { All (IsIn (length from.now)) index.now }
    ensures { IfOk result (λ v. v.items ≡ map (item_or from.now other) index.now) }
{
    let mut picked = Vec::with_capacity(alloc, index.len())?;
    for place in index {
        match *place {
            Some(place) => picked.push(from[place as usize])?,
            None => picked.push(other)?,
        }
    }
    Ok(picked)
}

/// An item as often as said.
pub(crate) fn repeated<T: Copy>(alloc: Global, item: T, count: usize) -> Result<Vec<T>, AllocError>
    ensures { IfOk result (λ v. v.items ≡ replicate count item) }
{
    let mut items = Vec::with_capacity(alloc, count)?;
    for _ in 0..count {
        items.push(item)?;
    }
    Ok(items)
}
