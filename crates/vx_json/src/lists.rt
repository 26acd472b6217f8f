//! Lists from JSON arrays, item by item.
ghost use Rattle.std.specs.Prelude.{◌≡◌, ◌<◌, length, map, option_map, true, IfOk};
ghost use Rattle.serde_json.specs.View.{view};
ghost use Rattle.vx_json.specs.Outcome.{Gives, GivesAll, AreGiven};
ghost use Rattle.vx_json.specs.Place.{path_of};
ghost use Rattle.vx_json.specs.Lists.{as_list, is_lawful, item_of, items_at, each_from, list_at};

use crate::error::PlanError;
use crate::way::{Way, misfit};
use serde_json::Value as Json;
use sqlite_items::Items;
use std::alloc::Global;

/// How many items a list may have.
#[derive(Clone, Copy)]
pub(crate) enum Count {
    Any,
    NotEmpty,
    OneOrTwo,
    Exactly(usize),
}

impl Count {
    fn accepts(self, count: usize) -> bool
        ensures { result ≡ is_lawful self count }
    {
        match self {
            Count::Any => true,
            Count::NotEmpty => 1 <= count,
            Count::OneOrTwo => count == 1 || count == 2,
            Count::Exactly(wanted) => count == wanted,
        }
    }
}

/// The items of a list, whose own length is asked here.
#[tactic(auto, using(crate::proofs::ListLaws::lists))]
pub(crate) fn items_at<'j>(
    alloc: Global,
    count: Count,
    way: &Way<'_>,
    value: &'j Json,
) -> Result<&'j [Json], PlanError>
    ensures items { AreGiven result (items_at count (path_of way.now) (view value.now)) }
    ensures lawful { IfOk result (λ values. is_lawful count (length values.now) ≡ true) }
{
    match values_of(value) {
        Some(values) => {
            if count.accepts(values.len()) {
                Ok(values)
            } else {
                misfit(alloc, way)
            }
        }
        None => misfit(alloc, way),
    }
}

/// The values in an array.
#[tactic(auto, using(crate::proofs::ListLaws::lists))]
fn values_of(value: &Json) -> Option<&[Json]>
    ensures { option_map (λ values. map view values.now) result ≡ as_list (view value.now) }
{
    match value {
        Json::Array(values) => Some(values.as_slice()),
        _ => None,
    }
}

/// An item that is known to be there.
#[tactic(auto, using(crate::proofs::ListLaws::items))]
pub(crate) fn item(values: &[Json], i: usize) -> &Json
    requires { i < length values.now }
    ensures { view result.now ≡ item_of (map view values.now) i }
{
    &values[i]
}

/// A way to read a value, also by its place in a list.
pub(crate) trait Reads {
    ghost use Rattle.std.specs.Prelude.{ℕ, List, Result};
    ghost use Rattle.serde_json.specs.Data.{Data};
    ghost use Rattle.serde_json.specs.View.{view};
    ghost use Rattle.vx_json.specs.Outcome.{Gives};
    ghost use Rattle.vx_json.specs.Place.{Said, path_of};

    type Item;

    ghost reads: { Self → ℕ → List ℕ → Data → Result Self.Item Said };

    fn read(
        &self,
        alloc: Global,
        i: usize,
        way: &Way<'_>,
        value: &Json,
    ) -> Result<Self::Item, PlanError>
        ensures { Gives result (reads self.now i (path_of way.now) (view value.now)) };
}

/// Reads a list with so many items.
pub(crate) fn list_at<R: Reads>(
    alloc: Global,
    count: Count,
    reader: &R,
    way: &Way<'_>,
    value: &Json,
) -> Result<Items<R::Item>, PlanError>
where
    R::Item: Drop,
    ensures { Gives result (list_at count (R.reads reader.now) (path_of way.now) (view value.now)) }
{
    let items = vec_at(alloc, count, reader, way, value)?;
    Ok(Items::from_vec(items))
}

/// The same as a `Vec`.
pub(crate) fn vec_at<R: Reads>(
    alloc: Global,
    count: Count,
    reader: &R,
    way: &Way<'_>,
    value: &Json,
) -> Result<Vec<R::Item>, PlanError>
where
    R::Item: Drop,
    ensures { GivesAll result (list_at count (R.reads reader.now) (path_of way.now) (view value.now)) }
{
    let values = items_at(alloc, count, way, value)?;
    each(alloc, reader, way, values)
}

/// Reads each value. The list of what is read is made once, with room for all.
#[tactic(auto, using(crate::proofs::ListLaws::loops))]
fn each<R: Reads>(
    alloc: Global,
    reader: &R,
    way: &Way<'_>,
    values: &[Json],
) -> Result<Vec<R::Item>, PlanError>
where
    R::Item: Drop,
    ensures { GivesAll result (each_from (λ i path value. R.reads reader.now i path (view value)) (path_of way.now) 0 values.now) }
{
    let mut items = Vec::with_capacity(alloc, values.len())?;
    for i in 0..values.len() {
        items.push(reader.read(alloc, i, &Way::Item(way, i), &values[i])?)?;
    }
    Ok(items)
}
