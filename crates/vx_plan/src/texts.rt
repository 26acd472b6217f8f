//! How deep a plan's expressions are, and how long its texts.
ghost use Rattle.std.specs.Prelude.{◌≡◌, map, nat_le};
ghost use Rattle.vx_expr.specs.Depth.{greatest, depth, text_len as len_of_text, longest_literal as longest_text};
ghost use Rattle.vx_plan.specs.declared.refusal.LimitName.TheVariants.{Depth, Text};
ghost use Rattle.vx_plan.specs.Tree.{tree};
ghost use Rattle.vx_plan.specs.Limits as limits;

use crate::node::{Body, Node};
use vx_expr::{Expr, is_within_depth, longest_literal, text_len};
use vx_value::{Row, Value};

/// Whether no expression of a node or below it has more than 64 levels.
pub fn are_depths_within(node: &Node) -> bool
    ensures { result ≡ limits.keeps_everywhere Depth (tree node.now) }
{
    match &node.body {
        Body::Values { .. } => true,
        Body::Filter { predicate, source } => is_within_depth(predicate, 64)
            && are_depths_within(source.get()),
        Body::Project { exprs, source } => are_all_within_depth(exprs.as_slice())
            && are_depths_within(source.get()),
        Body::Aggregation { source, .. } => are_depths_within(source.get()),
        Body::Join { left, right, .. } => are_depths_within(left.get())
            && are_depths_within(right.get()),
        Body::Order { source, .. } => are_depths_within(source.get()),
        Body::TopN { source, .. } => are_depths_within(source.get()),
        Body::Limit { source, .. } => are_depths_within(source.get()),
        Body::Exchange { source, .. } => are_depths_within(source.get()),
    }
}

fn are_all_within_depth(exprs: &[Expr]) -> bool
    ensures { result ≡ nat_le (greatest (map depth exprs.now)) 64 }
{
    for e in exprs {
        if !is_within_depth(e, 64) {
            return false;
        }
    }
    true
}

/// Whether no cell and no literal of a node or below it is longer than 65,535 bytes.
pub fn are_texts_within(node: &Node) -> bool
    ensures { result ≡ limits.keeps_everywhere Text (tree node.now) }
{
    match &node.body {
        Body::Values { rows, .. } => longest_of_rows(rows.as_slice()) <= 65535,
        Body::Filter { predicate, source } => longest_literal(predicate) <= 65535
            && are_texts_within(source.get()),
        Body::Project { exprs, source } => longest_of_exprs(exprs.as_slice()) <= 65535
            && are_texts_within(source.get()),
        Body::Aggregation { source, .. } => are_texts_within(source.get()),
        Body::Join { left, right, .. } => are_texts_within(left.get())
            && are_texts_within(right.get()),
        Body::Order { source, .. } => are_texts_within(source.get()),
        Body::TopN { source, .. } => are_texts_within(source.get()),
        Body::Limit { source, .. } => are_texts_within(source.get()),
        Body::Exchange { source, .. } => are_texts_within(source.get()),
    }
}

fn longest_of_exprs(exprs: &[Expr]) -> usize
    ensures { result ≡ greatest (map longest_text exprs.now) }
{
    let mut longest = 0;
    for e in exprs {
        longest = longest.max(longest_literal(e));
    }
    longest
}

fn longest_of_rows(rows: &[Row]) -> usize
    ensures { result ≡ greatest (map (λ row. greatest (map len_of_text row)) rows.now) }
{
    let mut longest = 0;
    for row in rows {
        longest = longest.max(longest_of_cells(row.cells()));
    }
    longest
}

fn longest_of_cells(cells: &[Value]) -> usize
    ensures { result ≡ greatest (map len_of_text cells.now) }
{
    let mut longest = 0;
    for cell in cells {
        longest = longest.max(text_len(cell));
    }
    longest
}
