//! How deep an expression is, and how long its texts are.
ghost use Rattle.std.specs.Prelude.{◌≡◌, map, nat_le};
ghost use Rattle.vx_expr.specs.Depth as sizes;

use crate::expression::Expr;
use vx_value::Value;

/// Whether an expression has at most so many levels; a column or a literal has one. It goes no deeper.
#[cycle(depth)]
pub fn is_within_depth(e: &Expr, most: u32) -> bool
    ensures { result ≡ nat_le (sizes.depth e.now) most }
{
    match e {
        Expr::Column(_) => most >= 1,
        Expr::Literal(_, _) => most >= 1,
        Expr::Call { args, .. } => most >= 1 && all_within_depth(args.as_slice(), most - 1),
    }
}

#[cycle(depth)]
fn all_within_depth(all: &[Expr], most: u32) -> bool
    ensures { result ≡ nat_le (sizes.greatest (map sizes.depth all.now)) most }
{
    for one in all {
        if !is_within_depth(one, most) {
            return false;
        }
    }
    true
}

/// The length in bytes of the longest text among the literals of an expression.
#[cycle(longest)]
pub fn longest_literal(e: &Expr) -> usize
    ensures { result ≡ sizes.longest_literal e.now }
{
    match e {
        Expr::Column(_) => 0,
        Expr::Literal(value, _) => text_len(value),
        Expr::Call { args, .. } => longest_of_all(args.as_slice()),
    }
}

#[cycle(longest)]
fn longest_of_all(all: &[Expr]) -> usize
    ensures { result ≡ sizes.greatest (map sizes.longest_literal all.now) }
{
    let mut longest = 0;
    for one in all {
        longest = longest.max(longest_literal(one));
    }
    longest
}

/// The bytes of a text, 0 for any other value.
pub fn text_len(value: &Value) -> usize
    ensures { result ≡ sizes.text_len value.now }
{
    match value {
        Value::Text(text) => text.as_bytes().len(),
        _ => 0,
    }
}
