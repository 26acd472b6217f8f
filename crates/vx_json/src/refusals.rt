//! The printed texts of refusals.
ghost use Rattle.std.specs.Prelude.{◌≡◌, string_bytes, IfOk};
ghost use Rattle.vx_json.specs.Refusals as spec;

use std::alloc::{AllocError, Global};
use vx_expr::TypeError;
use vx_plan::{LimitName, Refusal};

/// The printed text of a refusal, without a line's end.
pub fn refusal_text(alloc: Global, refusal: &Refusal) -> Result<String, AllocError>
    ensures { IfOk result (λ text. string_bytes text ≡ spec.refusal_text refusal.now) }
{
    match refusal {
        Refusal::P1 => String::from_str(alloc, "P1"),
        Refusal::P2(path) => format!(in alloc; "P2 {path}"),
        Refusal::P3(path) => format!(in alloc; "P3 {path}"),
        Refusal::P4 { node, error } => {
            let error = error_text(*error);
            format!(in alloc; "P4 node={node}{error}")
        }
        Refusal::P5 { node } => format!(in alloc; "P5 node={node}"),
        Refusal::P6(name) => {
            let name = limit_text(*name);
            format!(in alloc; "P6 {name}")
        }
        Refusal::P7 { id } => format!(in alloc; "P7 id={id}"),
    }
}

/// A blank, and the name.
fn error_text(error: TypeError) -> &'static str
    ensures { result.now ≡ spec.error_text error }
{
    match error {
        TypeError::T1 => " T1",
        TypeError::T2 => " T2",
        TypeError::T3 => " T3",
        TypeError::T4 => " T4",
    }
}

fn limit_text(name: LimitName) -> &'static str
    ensures { result.now ≡ spec.limit_text name }
{
    match name {
        LimitName::Nodes => "nodes",
        LimitName::Columns => "columns",
        LimitName::Rows => "rows",
        LimitName::Cells => "cells",
        LimitName::Depth => "depth",
        LimitName::Text => "text",
        LimitName::Growth => "growth",
    }
}
