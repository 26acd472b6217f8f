//! FNV-1a over key bytes.
ghost use Rattle.std.specs.Prelude.{◌≡◌};
ghost use Rattle.vx_value.specs.Value.{owned, IsLawful};
ghost use Rattle.vx_value.specs.KeyBytes.{value_bytes};
ghost use Rattle.vx_value.specs.Hash.{hash_step, hash_from, hash_of};

use crate::value::ValueRef;

const OFFSET_BASIS: u64 = 14695981039346656037;

const PRIME: u64 = 1099511628211;

/// The FNV-1a hash of a key's bytes.
pub fn hash_key(bytes: &[u8]) -> u64
    ensures { result ≡ hash_of bytes.now }
{
    over_bytes(OFFSET_BASIS, bytes)
}

/// Goes on with a hash over a value's key bytes, which are not built.
pub fn hash_value(from: u64, value: ValueRef<'_>) -> u64
    requires { IsLawful (owned value) }
    ensures { result ≡ hash_from from (value_bytes (owned value.entry)) }
{
    match value {
        ValueRef::Null => over_byte(from, 0),
        ValueRef::Bool(b) => over_byte(over_byte(from, 1), u8::from(b)),
        ValueRef::Int(n) => over_bytes(over_byte(from, 2), &n.to_be_bytes()),
        ValueRef::Text(text) => {
            let tagged = over_byte(from, 3);
            over_bytes(over_bytes(tagged, &(text.len() as u16).to_be_bytes()), text)
        }
    }
}

#[inline(always)]
fn over_byte(hash: u64, byte: u8) -> u64
    ensures { result ≡ hash_step hash byte }
{
    (hash ^ u64::from(byte)).wrapping_mul(PRIME)
}

fn over_bytes(from: u64, bytes: &[u8]) -> u64
    ensures { result ≡ hash_from from bytes.now }
{
    let mut hash = from;
    for byte in bytes {
        hash = over_byte(hash, *byte);
    }
    hash
}
