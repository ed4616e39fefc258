ghost use Rattle.std.specs.Prelude.{◌≡◌, ℕ, ◌+◌, ◌^◌, ◌<◌, ◌≤◌, length, slice_index, true};
ghost use Rattle.sm_place.specs.Cells.{amount_at, is_hit, AreInside};

/// Adds the load at both places, or once if the places are the same.
pub(crate) fn raise(loads: &mut [u32], first: Option<usize>, second: Option<usize>, load: u32)
    requires first { AreInside (length loads.old) first }
    requires second { AreInside (length loads.old) second }
    requires fits { (i : ℕ) → is_hit first second i ≡ true → slice_index loads.old i + load < 2 ^ 32 }
    ensures { (i : ℕ) → i < length loads.old
        → slice_index loads.new i ≡ slice_index loads.old i + amount_at first second load i }
{
    if let Some(at) = first {
        loads[at] += load;
    }
    if let Some(at) = second {
        if first != Some(at) {
            loads[at] += load;
        }
    }
}

/// Takes the load away at both places, or once if the places are the same.
pub(crate) fn lower(loads: &mut [u32], first: Option<usize>, second: Option<usize>, load: u32)
    requires first { AreInside (length loads.old) first }
    requires second { AreInside (length loads.old) second }
    requires fits { (i : ℕ) → is_hit first second i ≡ true → load ≤ slice_index loads.old i }
    ensures { (i : ℕ) → i < length loads.old
        → slice_index loads.new i + amount_at first second load i ≡ slice_index loads.old i }
{
    if let Some(at) = first {
        loads[at] -= load;
    }
    if let Some(at) = second {
        if first != Some(at) {
            loads[at] -= load;
        }
    }
}

/// Adds one at both places, or once if the places are the same.
pub(crate) fn raise_each(counts: &mut [u16], first: Option<usize>, second: Option<usize>)
    requires first { AreInside (length counts.old) first }
    requires second { AreInside (length counts.old) second }
    requires fits { (i : ℕ) → is_hit first second i ≡ true → slice_index counts.old i + 1 < 2 ^ 16 }
    ensures { (i : ℕ) → i < length counts.old
        → slice_index counts.new i ≡ slice_index counts.old i + amount_at first second 1 i }
{
    if let Some(at) = first {
        counts[at] += 1;
    }
    if let Some(at) = second {
        if first != Some(at) {
            counts[at] += 1;
        }
    }
}

/// Takes one away at both places, or once if the places are the same.
pub(crate) fn lower_each(counts: &mut [u16], first: Option<usize>, second: Option<usize>)
    requires first { AreInside (length counts.old) first }
    requires second { AreInside (length counts.old) second }
    requires fits { (i : ℕ) → is_hit first second i ≡ true → 1 ≤ slice_index counts.old i }
    ensures { (i : ℕ) → i < length counts.old
        → slice_index counts.new i + amount_at first second 1 i ≡ slice_index counts.old i }
{
    if let Some(at) = first {
        counts[at] -= 1;
    }
    if let Some(at) = second {
        if first != Some(at) {
            counts[at] -= 1;
        }
    }
}
