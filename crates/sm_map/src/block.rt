ghost use Rattle.std.specs.Prelude.{◌≡◌, ◌<◌, ◌≤◌, ◌+◌, ◌-◌, [], length, take, drop, slice_set};
ghost use Rattle.std.specs.Prelude.{IfOk, IfErr, IfSome, OnOk};
ghost use Rattle.std.specs.List.{HoldsAt, between, insert, remove};
ghost use Rattle.sm_map.specs.KeyMap.{key_of, IsKeyMap};
ghost use Rattle.sm_ranges.specs.Keyed.{IsKeyPlace, IsKeyGap};
ghost use Rattle.sm_map.specs.KeyEntry.{pairs_of, HasKeys};
ghost use Rattle.sm_map.specs.Blocks.{IsSplit};

use crate::key_entry::KeyEntry;
use crate::tags::{Tags, tag_of};
use sm_arena::arena::Arena;
use sm_ranges::order::compare;
use std::alloc::{AllocError, Global};
use std::cmp::Ordering;
use std::marker::Model;
use std::mem::replace;

// The greatest number of entries in a block.
pub(crate) const MOST_ENTRIES: usize = 64;

// The number of entries in each half of a full block after it is split.
pub(crate) const HALF_ENTRIES: usize = 32;

// Room grows to the next multiple of this many entries, and not to twice as many, because a block is seldom full if
// keys come in no order.
const ROOM_STEP: usize = 8;

// Entries in the order of their keys, whose bytes are in an arena. A full block has 64.
#[derive(Drop)]
pub(crate) struct Block {
    entries: Vec<KeyEntry>,
    // the tags of the keys, in the same order
    tags: Box<Tags>,
}

impl Model for Block {
    ghost use Rattle.std.specs.Prelude.{◌-◌};
    ghost use Rattle.std.specs.Vec.{vec_len, vec_capacity};
    ghost use Rattle.sm_map.specs.Block.{BlockValue};

    ghost Value = { BlockValue };

    ghost view = { λ block. record {
      entries = block.entries.items;
      room = vec_capacity block.entries - vec_len block.entries;
    } };
}

impl Block {
    // Makes a block without entries and with room for this many.
    pub(crate) fn with_room(alloc: Global, room: usize) -> Result<Block, AllocError>
        ensures { IfOk result (λ block. (block.entries ≡ []) × (room ≤ block.room)) }
    {
        Ok(Block {
            entries: Vec::with_capacity(alloc, room)?,
            tags: Box::new(alloc, Tags::NONE)?,
        })
    }

    pub(crate) fn len(&self) -> usize
        ensures { result ≡ length self.now.entries }
    {
        self.entries.len()
    }

    // Returns the place of the entry with the key, or the place to which one would go.
    pub(crate) fn find(&self, arena: &Arena, key: &[u8]) -> Result<usize, usize>
        requires keys { HasKeys arena.now.placed self.now.entries }
        requires rising { IsKeyMap (pairs_of arena.now.placed self.now.entries) }
        ensures found { IfOk result (IsKeyPlace key_of (pairs_of arena.now.placed self.now.entries) key.now) }
        ensures absent { IfErr result (IsKeyGap key_of (pairs_of arena.now.placed self.now.entries) key.now) }
    {
        search(&self.entries, arena, key)
    }

    // Returns the place of the entry with the key, if its tag is there.
    pub(crate) fn find_tagged(&self, arena: &Arena, key: &[u8]) -> Option<usize>
        requires keys { HasKeys arena.now.placed self.now.entries }
        requires rising { IsKeyMap (pairs_of arena.now.placed self.now.entries) }
        ensures { IfSome result (IsKeyPlace key_of (pairs_of arena.now.placed self.now.entries) key.now) }
    {
        let mut places = self.tags.places_of(tag_of(key));
        while places != 0 {
            let at = places.trailing_zeros() as usize;
            if at >= self.entries.len() {
                return None;
            }
            if compare(arena.get(self.entries[at].key), key).is_eq() {
                return Some(at);
            }
            places &= places - 1;
        }
        None
    }

    pub(crate) fn entry(&self, at: usize) -> KeyEntry
        requires { at < length self.now.entries }
        ensures { HoldsAt (λ entry. result ≡ entry) self.now.entries at }
    {
        self.entries[at]
    }

    // Returns the entries from one place up to another.
    pub(crate) fn entries(&self, low: usize, high: usize) -> &[KeyEntry]
        requires { (low ≤ high) × (high ≤ length self.now.entries) }
        ensures { result.now ≡ between low high self.now.entries }
    {
        &self.entries[low..high]
    }

    // Replaces an entry.
    pub(crate) fn set(&mut self, at: usize, entry: KeyEntry)
        requires { at < length self.old.entries }
        ensures { self.new.entries ≡ slice_set self.old.entries at entry }
    {
        self.entries[at] = entry;
    }

    // Makes room for one more entry.
    pub(crate) fn reserve(&mut self) -> Result<(), AllocError>
        ensures entries { self.new.entries ≡ self.old.entries }
        ensures room { OnOk result (0 < self.new.room) }
    {
        self.entries
            .reserve_exact(ROOM_STEP - self.entries.len() % ROOM_STEP)
    }

    // Puts an entry in, with the tag of its key.
    pub(crate) fn insert(&mut self, at: usize, entry: KeyEntry, tag: u8)
        requires place { at ≤ length self.old.entries }
        requires room { 0 < self.old.room }
        ensures { self.new.entries ≡ insert self.old.entries at entry }
    {
        // There is room, so this can't fail.
        let _ = self.entries.insert(at, entry);
        self.tags.insert(at, tag);
    }

    // Returns the room that the lower half of a full block needs if an entry goes to this place of the whole block.
    pub(crate) fn lower_room(at: usize) -> usize
        ensures half { HALF_ENTRIES ≤ result }
        ensures more { at ≤ HALF_ENTRIES → HALF_ENTRIES < result }
    {
        if at <= HALF_ENTRIES {
            HALF_ENTRIES + ROOM_STEP
        } else {
            HALF_ENTRIES
        }
    }

    // Splits a full block in two of 32 entries, and puts an entry into one of them. The block keeps its lower half, in
    // the memory of a block without entries. Returns the upper half, in the memory of the full block.
    pub(crate) fn insert_split(
        &mut self,
        at: usize,
        entry: KeyEntry,
        tag: u8,
        lower: Block,
    ) -> Block
        requires place { at ≤ length self.old.entries }
        requires full { length self.old.entries ≡ MOST_ENTRIES }
        requires empty { lower.entries ≡ [] }
        requires room { HALF_ENTRIES ≤ lower.room }
        requires more { at ≤ HALF_ENTRIES → HALF_ENTRIES < lower.room }
        ensures { IsSplit (insert self.old.entries at entry) self.new result }
    {
        let mut upper = self.cut(lower);
        if at <= HALF_ENTRIES {
            self.insert(at, entry, tag);
            upper.shrink();
            return upper;
        }
        upper.insert(at - HALF_ENTRIES, entry, tag);
        // If keys rise, they all come behind the last entry, and soon need the room.
        if at < MOST_ENTRIES {
            upper.shrink();
        }
        upper
    }

    // Moves the lower half to a block without entries, which replaces the full one. Returns the upper half, in the
    // memory of the full one.
    fn cut(&mut self, lower: Block) -> Block
        requires full { length self.old.entries ≡ MOST_ENTRIES }
        requires empty { lower.entries ≡ [] }
        requires room { HALF_ENTRIES ≤ lower.room }
        ensures lower { self.new.entries ≡ take HALF_ENTRIES self.old.entries }
        ensures upper { result.entries ≡ drop HALF_ENTRIES self.old.entries }
        ensures lower_room { lower.room ≤ HALF_ENTRIES + self.new.room }
        ensures upper_room { 0 < result.room }
    {
        let mut lower = lower;
        // There is room, so this can't fail.
        let _ = lower
            .entries
            .extend_from_slice(&self.entries[..HALF_ENTRIES]);
        *lower.tags = self.tags.lower();
        let mut upper = replace(self, lower);
        upper.entries.copy_within(HALF_ENTRIES.., 0);
        upper.entries.truncate(HALF_ENTRIES);
        *upper.tags = upper.tags.upper();
        upper
    }

    // Gives back the room beyond the next multiple of a step. If memory is refused, the room stays.
    fn shrink(&mut self)
        ensures { self.new.entries ≡ self.old.entries }
    {
        let len = self.entries.len();
        self.entries.shrink_to(len.next_multiple_of(ROOM_STEP));
    }

    pub(crate) fn remove(&mut self, at: usize) -> KeyEntry
        requires { at < length self.old.entries }
        ensures removed { HoldsAt (λ entry. result ≡ entry) self.old.entries at }
        ensures entries { self.new.entries ≡ remove self.old.entries at }
    {
        self.tags.remove(at);
        self.entries.remove(at)
    }
}

// Returns the place of the entry with the key, or the place to which one would go. Each step halves the entries between
// low and high.
fn search(entries: &[KeyEntry], arena: &Arena, key: &[u8]) -> Result<usize, usize>
    requires keys { HasKeys arena.now.placed entries.now }
    requires rising { IsKeyMap (pairs_of arena.now.placed entries.now) }
    ensures found { IfOk result (IsKeyPlace key_of (pairs_of arena.now.placed entries.now) key.now) }
    ensures absent { IfErr result (IsKeyGap key_of (pairs_of arena.now.placed entries.now) key.now) }
{
    let mut low = 0;
    let mut high = entries.len();
    while low < high {
        let middle = low + (high - low) / 2;
        match compare(arena.get(entries[middle].key), key) {
            Ordering::Less => low = middle + 1,
            Ordering::Equal => return Ok(middle),
            Ordering::Greater => high = middle,
        }
    }
    Err(low)
}
