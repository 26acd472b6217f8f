//! The places of a dictionary's rows in its base.
ghost use Rattle.std.specs.Prelude.{◌≡◌, ℕ, ◌<◌, length, get_or, All, IfOk, None, Some, true};
ghost use Rattle.vx_vector.specs.Index.{unless, through};

use std::alloc::{AllocError, Global};

/// The first so many places. Places past 32 bits count as out of memory.
pub(crate) fn first_places(alloc: Global, count: usize) -> Result<Vec<Option<u32>>, AllocError>
    ensures rows { IfOk result (λ v. length v.items ≡ count) }
    ensures at { IfOk result (λ v. (k : ℕ) → k < count → get_or v.items k None ≡ Some k) }
{
    let count = u32::try_from(count).map_err(|_| AllocError)?;
    let mut index = Vec::with_capacity(alloc, count as usize)?;
    for place in 0..count {
        index.push(Some(place))?;
    }
    Ok(index)
}

/// The index at each row, but no place where the mask says so.
pub(crate) fn indices_unless(
    alloc: Global,
    indices: &[u32],
    nulls: &[bool],
) -> Result<Vec<Option<u32>>, AllocError>
    requires { length nulls.now ≡ length indices.now }
    ensures rows { IfOk result (λ v. length v.items ≡ length indices.now) }
    ensures at { IfOk result (λ v. (k : ℕ) → k < length indices.now → get_or v.items k None ≡ unless (get_or nulls.now k true) (get_or indices.now k 0)) }
{
    let mut index = Vec::with_capacity(alloc, indices.len())?;
    for row in 0..indices.len() {
        if nulls[row] {
            index.push(None)?;
        } else {
            index.push(Some(indices[row]))?;
        }
    }
    Ok(index)
}

/// The place that an index has at each of these rows, but no place where the mask says so.
pub(crate) fn indices_through(
    alloc: Global,
    index: &[Option<u32>],
    indices: &[u32],
    nulls: &[bool],
) -> Result<Vec<Option<u32>>, AllocError>
    requires rows { length nulls.now ≡ length indices.now }
    requires places { All (λ p. p < length index.now) indices.now }
    ensures rows { IfOk result (λ v. length v.items ≡ length indices.now) }
    ensures at { IfOk result (λ v. (k : ℕ) → k < length indices.now → get_or v.items k None ≡ through index.now (get_or nulls.now k true) (get_or indices.now k 0)) }
{
    let mut places = Vec::with_capacity(alloc, indices.len())?;
    for row in 0..indices.len() {
        if nulls[row] {
            places.push(None)?;
        } else {
            places.push(index[indices[row] as usize])?;
        }
    }
    Ok(places)
}
