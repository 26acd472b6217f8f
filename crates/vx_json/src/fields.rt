//! The fields of a JSON object.
ghost use Rattle.std.specs.Prelude.{◌≡◌, map, count_by, option_map, option_and_then};
ghost use Rattle.std.specs.List.{list_all};
ghost use Rattle.serde_json.specs.View.{view};
ghost use Rattle.serde_json.specs.Find.{get, as_str};
ghost use Rattle.vx_json.specs.Outcome.{Gives};
ghost use Rattle.vx_json.specs.Place.{path_of};
ghost use Rattle.vx_json.specs.Fields as spec;

use crate::error::PlanError;
use crate::way::{Way, misfit};
use serde_json::Value as Json;
use std::alloc::Global;

/// The greatest id, and the greatest column.
const MOST_SMALL: u64 = 65_535;

/// The greatest count, and the greatest offset.
const MOST_COUNT: u64 = 9_223_372_036_854_775_807;

/// Whether it is an object with all required fields, and beside them none but optional ones.
pub(crate) fn has_only(required: &[&str], optional: &[&str], value: &Json) -> bool
    ensures { result ≡ spec.has_only (map (λ name. name.now) required.now) (map (λ name. name.now) optional.now) (view value.now) }
{
    if !has_all(required, value) {
        return false;
    }
    field_count(value) == required.len() + count_of(optional, value)
}

fn has_all(names: &[&str], value: &Json) -> bool
    ensures { result ≡ list_all (spec.has (view value.now)) (map (λ name. name.now) names.now) }
{
    for name in names {
        if !has(name, value) {
            return false;
        }
    }
    true
}

fn count_of(names: &[&str], value: &Json) -> usize
    ensures { result ≡ count_by (spec.has (view value.now)) (map (λ name. name.now) names.now) }
{
    let mut count = 0;
    for name in names {
        if has(name, value) {
            count += 1;
        }
    }
    count
}

/// Whether an object has a field.
pub(crate) fn has(name: &str, value: &Json) -> bool
    ensures { result ≡ spec.has (view value.now) name.now }
{
    match value.get(name) {
        Some(_) => true,
        None => false,
    }
}

#[tactic(auto, using(crate::proofs::ListLaws::objects))]
fn field_count(value: &Json) -> usize
    ensures { result ≡ spec.field_count (view value.now) }
{
    match value {
        Json::Object(fields) => fields.len(),
        _ => 0,
    }
}

/// The string in a field, where there is one.
pub(crate) fn text_in<'j>(name: &str, value: &'j Json) -> Option<&'j str>
    ensures { option_map (λ text. text.now) result ≡ option_and_then as_str (get name.now (view value.now)) }
{
    match value.get(name) {
        Some(found) => found.as_str(),
        None => None,
    }
}

/// An id or a column.
pub(crate) fn small_at(alloc: Global, way: &Way<'_>, value: &Json) -> Result<u32, PlanError>
    ensures { Gives result (spec.small_at (path_of way.now) (view value.now)) }
{
    let number = number_at(alloc, MOST_SMALL, way, value)?;
    Ok(number as u32)
}

/// A count or an offset.
pub(crate) fn count_at(alloc: Global, way: &Way<'_>, value: &Json) -> Result<u64, PlanError>
    ensures { Gives result (spec.count_at (path_of way.now) (view value.now)) }
{
    number_at(alloc, MOST_COUNT, way, value)
}

/// A whole number from 0 to the most.
fn number_at(alloc: Global, most: u64, way: &Way<'_>, value: &Json) -> Result<u64, PlanError>
    ensures { Gives result (spec.number_at most (path_of way.now) (view value.now)) }
{
    match value.as_u64() {
        Some(number) => {
            if number <= most {
                Ok(number)
            } else {
                misfit(alloc, way)
            }
        }
        None => misfit(alloc, way),
    }
}

pub(crate) fn bool_at(alloc: Global, way: &Way<'_>, value: &Json) -> Result<bool, PlanError>
    ensures { Gives result (spec.bool_at (path_of way.now) (view value.now)) }
{
    match value.as_bool() {
        Some(truth) => Ok(truth),
        None => misfit(alloc, way),
    }
}
