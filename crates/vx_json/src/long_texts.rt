//! Whether a JSON value has a string that is too long for a text.
ghost use Rattle.std.specs.Prelude.{◌≡◌, false, IsTrue};
ghost use Rattle.serde_json.specs.View.{view, items_view, members_view};
ghost use Rattle.vx_json.specs.Plans as spec;

use crate::cells::MOST_TEXT;
use serde_json::{Map, Value as Json};

/// Whether some string in a value has more bytes than a text may have.
#[cycle(long)]
#[tactic(auto, using(crate::proofs::LongLaws::long))]
pub(crate) fn has_long(value: &Json) -> bool
    ensures { result ≡ spec.has_long (view value.now) }
{
    match value {
        Json::Null => false,
        Json::Bool(_) => false,
        Json::Number(_) => false,
        Json::String(text) => MOST_TEXT < text.as_str().len(),
        Json::Array(values) => has_long_item(values.as_slice()),
        Json::Object(fields) => has_long_member(fields),
    }
}

#[cycle(long)]
#[tactic(auto, using(crate::proofs::LongLaws::long))]
fn has_long_item(values: &[Json]) -> bool
    ensures { result ≡ spec.has_long_item (items_view values.now) }
{
    for value in values {
        if !is_plain(value) {
            if has_long(value) {
                return true;
            }
        }
    }
    false
}

/// Whether it is no string and has nothing in it, as most values of a plan file are.
fn is_plain(value: &Json) -> bool
    ensures { IsTrue result → spec.has_long (view value.now) ≡ false }
{
    match value {
        Json::Null => true,
        Json::Bool(_) => true,
        Json::Number(_) => true,
        _ => false,
    }
}

/// Whether some string in a member has.
#[cycle(long)]
#[tactic(auto, using(crate::proofs::LongLaws::long))]
pub(crate) fn has_long_member(fields: &Map<String, Json>) -> bool
    ensures { result ≡ spec.has_long_member (members_view fields.now.entries) }
{
    for (_, value) in fields.iter() {
        if has_long(value) {
            return true;
        }
    }
    false
}
