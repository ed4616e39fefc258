ghost use Rattle.std.specs.Prelude.{◌≡◌, ℕ, ◌+◌, ◌-◌, ◌^◌, ◌<◌, ◌≤◌, OnOk, length, slice_index, slice_set, true};
ghost use Rattle.sm_place.specs.Cells.{amount_at, is_hit, AreInside};

use std::alloc::{AllocError, Global};
use std::collections::HashMap;
use std::marker::Model;

/// The counters of a table that doesn't change itself. Changes are kept beside it.
#[derive(Drop)]
pub(crate) struct Sheet<'a> {
    table: &'a [u16],
    // the counters that were set, by place
    changed: HashMap<usize, u16>,
}

impl<'a> Model for Sheet<'a> {
    ghost use Rattle.std.specs.Prelude.{List, ℕ, nat_eq};
    ghost use Rattle.std.specs.HashMap.{get};
    ghost use Rattle.sm_place.specs.Sheets.{counts_of};

    ghost Value = { List ℕ };

    ghost view = { λ s. counts_of s.table.now (get nat_eq s.changed) };
}

impl<'a> Sheet<'a> {
    /// Makes a sheet with the counters of the table.
    pub(crate) fn new(alloc: Global, table: &'a [u16]) -> Sheet<'a>
        ensures { result ≡ table.now }
    {
        Sheet {
            table,
            changed: HashMap::new(alloc),
        }
    }

    /// Returns the counter at this place.
    pub(crate) fn count(&self, at: usize) -> u16
        requires { at < length self.now }
        ensures { result ≡ slice_index self.now at }
    {
        match self.changed.get(&at) {
            Some(count) => *count,
            None => count_at(self.table, at),
        }
    }

    // Sets the counter at this place.
    fn set(&mut self, at: usize, count: u16) -> Result<(), AllocError>
        requires { at < length self.old }
        ensures { OnOk result (self.new ≡ slice_set self.old at count) }
    {
        self.changed.insert(at, count)?;
        Ok(())
    }

    // Adds one to the counter at this place.
    fn raise_at(&mut self, at: usize) -> Result<(), AllocError>
        requires inside { at < length self.old }
        requires fits { slice_index self.old at + 1 < 2 ^ 16 }
        ensures { OnOk result (self.new ≡ slice_set self.old at (slice_index self.old at + 1)) }
    {
        let count = self.count(at);
        self.set(at, count + 1)
    }

    // Takes one from the counter at this place.
    fn lower_at(&mut self, at: usize) -> Result<(), AllocError>
        requires inside { at < length self.old }
        requires fits { 1 ≤ slice_index self.old at }
        ensures { OnOk result (self.new ≡ slice_set self.old at (slice_index self.old at - 1)) }
    {
        let count = self.count(at);
        self.set(at, count - 1)
    }

    /// Adds one to the counters at both places, or once if the places are the same. If memory is refused, only one of
    /// them may have changed.
    pub(crate) fn raise(
        &mut self,
        first: Option<usize>,
        second: Option<usize>,
    ) -> Result<(), AllocError>
        requires first { AreInside (length self.old) first }
        requires second { AreInside (length self.old) second }
        requires fits { (i : ℕ) → is_hit first second i ≡ true → slice_index self.old i + 1 < 2 ^ 16 }
        ensures length { OnOk result (length self.new ≡ length self.old) }
        ensures counts { OnOk result ((i : ℕ) → i < length self.old
            → slice_index self.new i ≡ slice_index self.old i + amount_at first second 1 i) }
    {
        if let Some(at) = first {
            self.raise_at(at)?;
        }
        if let Some(at) = second {
            if first != Some(at) {
                self.raise_at(at)?;
            }
        }
        Ok(())
    }

    /// Takes one from the counters at both places, or once if the places are the same. If memory is refused, only one
    /// of them may have changed.
    pub(crate) fn lower(
        &mut self,
        first: Option<usize>,
        second: Option<usize>,
    ) -> Result<(), AllocError>
        requires first { AreInside (length self.old) first }
        requires second { AreInside (length self.old) second }
        requires fits { (i : ℕ) → is_hit first second i ≡ true → 1 ≤ slice_index self.old i }
        ensures length { OnOk result (length self.new ≡ length self.old) }
        ensures counts { OnOk result ((i : ℕ) → i < length self.old
            → slice_index self.new i + amount_at first second 1 i ≡ slice_index self.old i) }
    {
        if let Some(at) = first {
            self.lower_at(at)?;
        }
        if let Some(at) = second {
            if first != Some(at) {
                self.lower_at(at)?;
            }
        }
        Ok(())
    }
}

// Returns the counter of the table at this place.
fn count_at(table: &[u16], at: usize) -> u16
    requires { at < length table.now }
    ensures { result ≡ slice_index table.now at }
{
    table[at]
}
