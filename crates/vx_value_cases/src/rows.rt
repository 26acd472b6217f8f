//! Rows that are printed about.
ghost use Rattle.std.specs.Prelude.{◌≡◌, IfOk, length};

use std::alloc::{AllocError, Global};
use vx_value::{Row, Txt, Value};

/// The row `[1, "ab", null, true]`.
pub fn worked_row(alloc: Global) -> Result<Row, AllocError>
    ensures { IfOk result (λ row. length row ≡ 4) }
{
    let text = Value::Text(Txt::of(alloc, b"ab")?);
    let cells = Vec::from_array(alloc, [Value::Int(1), text, Value::Null, Value::Bool(true)])?;
    Ok(Row::of(cells))
}

/// A row of two ints, the second perhaps null.
pub fn pair(alloc: Global, first: i64, second: Option<i64>) -> Result<Row, AllocError>
    ensures { IfOk result (λ row. length row ≡ 2) }
{
    let second = match second {
        Some(number) => Value::Int(number),
        None => Value::Null,
    };
    let cells = Vec::from_array(alloc, [Value::Int(first), second])?;
    Ok(Row::of(cells))
}
