//! The way from a file's root to a value, by which refusals name it.
ghost use Rattle.std.specs.Prelude.{◌≡◌, ◌++◌, string_bytes, IfOk, OnOk, Err};
ghost use Rattle.serde_json.specs.View.{view};
ghost use Rattle.vx_json.specs.Outcome.{Gives};
ghost use Rattle.vx_json.specs.Place.{field, misfit, path_of, p3};

use crate::error::PlanError;
use serde_json::Value as Json;
use std::alloc::{AllocError, Global};
use vx_plan::Refusal;

/// The way from the file's root to a value. Its text is made only where something is refused.
#[derive(Clone, Copy)]
pub(crate) enum Way<'a> {
    Root,
    Field(&'a Way<'a>, &'a str),
    Item(&'a Way<'a>, usize),
}

/// Refuses the value there, since it is missing, unknown, or of another type or form than it must be.
pub(crate) fn misfit<T>(alloc: Global, way: &Way<'_>) -> Result<T, PlanError>
    ensures { Gives result (misfit (path_of way.now)) }
{
    let path = path_text(alloc, way)?;
    Err(PlanError::Refused(Refusal::P2(path)))
}

/// Refuses the word there, since it isn't in its closed list.
pub(crate) fn unknown<T>(alloc: Global, way: &Way<'_>) -> Result<T, PlanError>
    ensures { Gives result (Err (p3 (path_of way.now))) }
{
    let path = path_text(alloc, way)?;
    Err(PlanError::Refused(Refusal::P3(path)))
}

fn path_text(alloc: Global, way: &Way<'_>) -> Result<String, AllocError>
    ensures { IfOk result (λ text. string_bytes text ≡ path_of way.now) }
{
    let mut text = String::new(alloc);
    push_path(&mut text, way)?;
    Ok(text)
}

fn push_path(text: &mut String, way: &Way<'_>) -> Result<(), AllocError>
    ensures { OnOk result (string_bytes text.new ≡ string_bytes text.old ++ path_of way.now) }
{
    match way {
        Way::Root => Ok(()),
        Way::Field(up, name) => {
            push_path(text, up)?;
            write!(text, "/{name}")
        }
        Way::Item(up, i) => {
            push_path(text, up)?;
            write!(text, "/{i}")
        }
    }
}

/// The field, which the caller knows to be there.
pub(crate) fn field<'j>(value: &'j Json, name: &str) -> &'j Json
    ensures { view result.now ≡ field name.now (view value.now) }
{
    match value.get(name) {
        Some(found) => found,
        None => value,
    }
}
