//! Whether two layouts cut the keys at the same bounds.
ghost use Rattle.std.specs.Prelude.{◌≡◌, ◌≢◌, ◌<◌, true, false, length, slice_get};

use sm_ranges::layout::Layout;
use sm_ranges::shard_id::ShardId;

/// Returns whether both have the same bounds.
pub(crate) fn same_layout(one: &Layout, other: &Layout) -> bool
    ensures same { result ≡ true → one.now ≡ other.now }
    ensures apart { result ≡ false → one.now ≢ other.now }
{
    if one.count() != other.count() {
        return false;
    }
    for at in 0..one.count() {
        if !same_bound(one, other, ShardId::new(at as u16).unwrap()) {
            return false;
        }
    }
    true
}

// Whether the shard begins at the same bound in both.
fn same_bound(one: &Layout, other: &Layout, k: ShardId) -> bool
    requires one { k < length one.now }
    requires other { k < length other.now }
    ensures same { result ≡ true → slice_get one.now k ≡ slice_get other.now k }
    ensures apart { result ≡ false → slice_get one.now k ≢ slice_get other.now k }
{
    one.range(k).0 == other.range(k).0
}
