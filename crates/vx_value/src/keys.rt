//! Key bytes of rows.
ghost use Rattle.std.specs.Prelude.{◌≡◌, ◌<◌, ◌++◌, length, All, IfOk, OnOk};
ghost use Rattle.vx_value.specs.Value.{owned, IsLawful};
ghost use Rattle.vx_value.specs.KeyBytes as spec;

use crate::row::Row;
use crate::value::ValueRef;
use std::alloc::{AllocError, Global};

/// The key bytes of a row's values in these columns.
pub fn key_bytes(alloc: Global, row: &Row, columns: &[u32]) -> Result<Vec<u8>, AllocError>
    requires { All (λ column. column < length row.now) columns.now }
    ensures ok { IfOk result (λ bytes. bytes.items ≡ spec.key_bytes columns.now row.now) }
    ensures lawful { OnOk result (spec.AreLawful columns.now row.now) }
    ensures identifies { IfOk result (λ bytes. spec.Identifies columns.now row.now bytes.items) }
{
    let mut bytes = Vec::new(alloc);
    for column in columns {
        push_value(&mut bytes, row.get(*column))?;
    }
    Ok(bytes)
}

fn push_value(bytes: &mut Vec<u8>, value: ValueRef<'_>) -> Result<(), AllocError>
    requires { IsLawful (owned value) }
    ensures { OnOk result (bytes.new.items ≡ bytes.old.items ++ spec.value_bytes (owned value.entry)) }
{
    match value {
        ValueRef::Null => bytes.extend_from_slice(&[0]),
        ValueRef::Bool(b) => bytes.extend_from_slice(&[1, u8::from(b)]),
        ValueRef::Int(n) => {
            bytes.extend_from_slice(&[2])?;
            bytes.extend_from_slice(&n.to_be_bytes())
        }
        ValueRef::Text(text) => {
            bytes.extend_from_slice(&[3])?;
            bytes.extend_from_slice(&(text.len() as u16).to_be_bytes())?;
            bytes.extend_from_slice(text)
        }
    }
}
