ghost use Rattle.std.specs.Prelude.{◌≡◌, map, is_none, IfOk};
ghost use Rattle.std.specs.List.{list_all};
ghost use Rattle.serde_json.specs.Find.{get};
ghost use Rattle.serde_json.specs.View.{view};
ghost use Rattle.sm_ranges.specs.LayoutFault.{texts_of, first_layout_fault};
ghost use Rattle.sm_settings.specs.Members.{holds_of, is_array_of, is_string, string_of, when};

use crate::members::array;
use serde_json::Value;
use sm_ranges::layout::{Layout, LayoutFault};
use std::alloc::{AllocError, Global};

/// Returns whether there is an array at the member, and each of its items is a text.
#[tactic(auto, using(crate::proofs::Viewed::holds_of_array))]
pub fn has_texts(value: &Value, name: &str) -> bool
    ensures { result ≡ holds_of (is_array_of is_string) (get name.now (view value.now)) }
{
    match array(value, name) {
        Some(values) => are_texts(values),
        None => false,
    }
}

/// Returns whether each value is a text.
fn are_texts(values: &[Value]) -> bool
    ensures { result ≡ list_all (λ value. is_string (view value)) values.now }
{
    values.iter().all(|value| value.is_string())
}

/// Returns the layout with the values' texts as its bounds, if they are one.
pub fn layout_from(alloc: Global, values: &[Value]) -> Result<Option<Layout>, AllocError>
    ensures { let bounds = map string_of (map view values.now) in
        IfOk result (λ found. found ≡ when (is_none (first_layout_fault bounds)) bounds) }
{
    let bounds = bytes_of(alloc, values)?;
    match Layout::new(alloc, &bounds) {
        Ok(layout) => Ok(Some(layout)),
        Err(LayoutFault::NoMemory) => Err(AllocError),
        Err(_) => Ok(None),
    }
}

fn bytes_of<'a>(alloc: Global, values: &'a [Value]) -> Result<Vec<&'a [u8]>, AllocError>
    ensures { IfOk result (λ texts. texts_of texts.items ≡ map string_of (map view values.now)) }
{
    let mut texts = Vec::with_capacity(alloc, values.len())?;
    for value in values {
        texts.push(text(value))?;
    }
    Ok(texts)
}

fn text(value: &Value) -> &[u8]
    ensures { result.now ≡ string_of (view value.now) }
{
    match value.as_str() {
        Some(text) => text.as_bytes(),
        None => &[],
    }
}
