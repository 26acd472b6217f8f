//! Values and rows: what plans hold, queries keep and the program prints.
//!
//! A value is null, a bool, an int of 64 bits or a text of at most 65,535 bytes; a row is a list of
//! values, one for each column. `specs/Order.antt` has the order of rows by sort keys, `specs/KeyBytes.antt`
//! the bytes of a key, and `specs/Hash.antt` their hash.
#![tactic(auto)]

mod hashing;
mod keys;
mod order;
mod row;
mod sorting;
mod text;
mod value;

pub use hashing::{hash_key, hash_value};
pub use keys::key_bytes;
pub use order::{cmp_values, is_same};
pub use row::Row;
pub use sorting::{SortKey, cmp_rows};
pub use text::Txt;
pub use value::{Kind, Value, ValueRef};
