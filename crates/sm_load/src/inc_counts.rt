//! The counts of clients that call at the same time.
ghost use Rattle.std.specs.Prelude.{◌≡◌, ◌+◌, ◌<◌, ◌^◌, MatchBool, length};
ghost use Rattle.std.specs.Thread.{IsSend, IsSync};
ghost use Rattle.sm_load.specs.IncCounts.{CountsAll, MayCount};
ghost use Rattle.sm_load.specs.Loads.{AddUp};

use std::thread::{Threads, join_mut};

/// The outcomes of the incs of one client, or of several.
#[derive(Clone, Copy, Drop)]
pub(crate) struct IncCounts {
    /// How many were answered by a count.
    pub acked: u64,
    /// How many were not.
    pub refused: u64,
}

impl IncCounts {
    /// Returns the counts with one inc more.
    pub(crate) fn with(self, is_acked: bool) -> IncCounts
        requires { self.acked + self.refused < 2 ^ 32 }
        ensures { MatchBool is_acked
            ((result.acked ≡ self.acked + 1) × (result.refused ≡ self.refused))
            ((result.acked ≡ self.acked) × (result.refused ≡ self.refused + 1)) }
    {
        if is_acked {
            IncCounts {
                acked: self.acked + 1,
                refused: self.refused,
            }
        } else {
            IncCounts {
                acked: self.acked,
                refused: self.refused + 1,
            }
        }
    }
}

/// Calls `f` at each item, in at most so many threads, and adds up the counts of the calls.
///
/// The list is halved, and the halves go to threads. So the count of a call comes back as its result, and no counter is
/// shared.
#[cycle(halves)]
pub(crate) fn count_all<R: Threads + Sync, T: Send, F: Fn(&mut T) -> IncCounts + Sync>(
    rt: &R,
    f: &F,
    each: u32,
    threads: usize,
    items: &mut [T],
) -> IncCounts
    requires short { length items.old < 2 ^ 32 }
    requires callable { F.IsAlwaysCallable f.now }
    requires each { CountsAll F.Fn f.now each }
    ensures { AddUp (MayCount F.Fn f.now) items.old result.acked result.refused items.new }
{
    if items.len() < 2 {
        return count_at_most_one(f, items);
    }
    let (front, back) = items.split_at_mut(items.len() / 2);
    if threads < 2 {
        let one = count_all(rt, f, each, 1, front);
        let two = count_all(rt, f, each, 1, back);
        return added_up(one, two);
    }
    let (one, two) = count_halves(rt, f, each, threads / 2, front, back);
    added_up(one, two)
}

// Calls it at each item of two lists. One of them goes to a new thread, if there can be one.
#[cycle(halves)]
fn count_halves<R: Threads + Sync, T: Send, F: Fn(&mut T) -> IncCounts + Sync>(
    rt: &R,
    f: &F,
    each: u32,
    threads: usize,
    front: &mut [T],
    back: &mut [T],
) -> (IncCounts, IncCounts)
    requires some { (0 < length front.old) × (0 < length back.old) }
    requires short { (length front.old < 2 ^ 32) × (length back.old < 2 ^ 32) }
    requires callable { F.IsAlwaysCallable f.now }
    requires each { CountsAll F.Fn f.now each }
    ensures front { AddUp (MayCount F.Fn f.now) front.old result.0.acked result.0.refused front.new }
    ensures back { AddUp (MayCount F.Fn f.now) back.old result.1.acked result.1.refused back.new }
{
    let mut one = || -> IncCounts
        requires { IsSync R.row × IsSync F.row × IsSend T.row × (length front.now < 2 ^ 32) × F.IsAlwaysCallable f.now
            × CountsAll F.Fn f.now each }
        ensures { AddUp (MayCount F.Fn f.entry.now) front.entry.now result.acked result.refused front.exit.now }
    { count_all(rt, f, each, threads, front) };
    let mut two = || -> IncCounts
        requires { IsSync R.row × IsSync F.row × IsSend T.row × (length back.now < 2 ^ 32) × F.IsAlwaysCallable f.now
            × CountsAll F.Fn f.now each }
        ensures { AddUp (MayCount F.Fn f.entry.now) back.entry.now result.acked result.refused back.exit.now }
    { count_all(rt, f, each, threads, back) };
    join_mut(rt, &mut one, &mut two)
}

// Both counts together.
fn added_up(one: IncCounts, two: IncCounts) -> IncCounts
    requires acked { one.acked + two.acked < 2 ^ 64 }
    requires refused { one.refused + two.refused < 2 ^ 64 }
    ensures acked { result.acked ≡ one.acked + two.acked }
    ensures refused { result.refused ≡ one.refused + two.refused }
{
    IncCounts {
        acked: one.acked + two.acked,
        refused: one.refused + two.refused,
    }
}

// Calls it at the item, if there is one.
fn count_at_most_one<T, F: Fn(&mut T) -> IncCounts>(f: &F, items: &mut [T]) -> IncCounts
    requires short { length items.old < 2 }
    requires callable { F.IsAlwaysCallable f.now }
    ensures { AddUp (MayCount F.Fn f.now) items.old result.acked result.refused items.new }
{
    match items.split_first_mut() {
        Some((item, _none)) => count_one(f, item),
        None => IncCounts {
            acked: 0,
            refused: 0,
        },
    }
}

// Calls it at the item.
fn count_one<T, F: Fn(&mut T) -> IncCounts>(f: &F, item: &mut T) -> IncCounts
    requires { F.IsAlwaysCallable f.now }
    ensures { MayCount F.Fn f.now item.old result.acked result.refused item.new }
{
    f(item)
}
