ghost use Rattle.std.specs.Prelude.{◌≡◌, ◌≤◌, IfSome, map, option_map, option_and_then};
ghost use Rattle.std.specs.List.{list_all};
ghost use Rattle.serde_json.specs.Find.{get};
ghost use Rattle.serde_json.specs.View.{view};
ghost use Rattle.sm_settings.specs.Members.{number_at, array_of, items_at, is_whole, holds_of, has_size, is_object_of};
ghost use Rattle.sm_settings.specs.Members.{when};
ghost use Rattle.sm_rows.specs.Rows.{is_within};

use serde_json::Value;

/// Returns the number at a member, or 0 if there is none.
pub fn number(value: &Value, name: &str) -> u64
    ensures { result ≡ number_at name.now (view value.now) }
{
    value.get(name).and_then(Value::as_u64).unwrap_or(0)
}

/// Returns whether the member has a number that is written only in digits and is below 2^64.
pub fn has_number(value: &Value, name: &str) -> bool
    ensures { result ≡ holds_of is_whole (get name.now (view value.now)) }
{
    value.get(name).and_then(Value::as_u64).is_some()
}

/// Returns the number at a member, if it is from `low` to `high`.
pub fn number_within(value: &Value, name: &str, low: u64, high: u64) -> Option<u64>
    ensures value { result
        ≡ when (is_within low high (number_at name.now (view value.now))) (number_at name.now (view value.now)) }
    ensures low { IfSome result (λ n. low ≤ n) }
    ensures high { IfSome result (λ n. n ≤ high) }
{
    let number = number(value, name);
    if low <= number && number <= high {
        Some(number)
    } else {
        None
    }
}

/// Returns whether the value is an object with this many members.
pub fn has_size(value: &Value, size: usize) -> bool
    ensures { result ≡ has_size size (view value.now) }
{
    match value.as_object() {
        Some(members) => members.len() == size,
        None => false,
    }
}

/// Returns whether the value is an object with exactly these members, each a number.
pub fn has_numbers(value: &Value, names: &[&str]) -> bool
    ensures { result ≡ is_object_of (map (λ name. (name.now, is_whole)) names.now) (view value.now) }
{
    has_size(value, names.len()) && have_numbers(value, names)
}

// Returns whether each of the members has a number.
fn have_numbers(value: &Value, names: &[&str]) -> bool
    ensures { result ≡ list_all (λ name. holds_of is_whole (get name.now (view value.now))) names.now }
{
    names.iter().all(|name| has_number(value, name))
}

/// Returns the items of the array at a member, if there is one.
pub fn array<'a>(value: &'a Value, name: &str) -> Option<&'a [Value]>
    ensures { option_map (λ items. map view items.now) result
        ≡ option_and_then array_of (get name.now (view value.now)) }
{
    let member = value.get(name)?;
    let items = member.as_array()?;
    Some(items.as_slice())
}

/// Returns the items of the array at a member, or none if there is no array.
pub fn items<'a>(value: &'a Value, name: &str) -> &'a [Value]
    ensures { map view result.now ≡ items_at name.now (view value.now) }
{
    match array(value, name) {
        Some(items) => items,
        None => &[],
    }
}
