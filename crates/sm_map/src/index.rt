ghost use Rattle.std.specs.Prelude.{◌≡◌, ◌<◌, ◌≤◌, ◌+◌, ℕ, [], All, length, slice_index, slice_index_or, slice_set};
ghost use Rattle.std.specs.Prelude.{IfOk, IfErr, IfSome};
ghost use Rattle.std.specs.Vec.{vec_len, vec_capacity};
ghost use Rattle.std.specs.List.{HoldsAt, insert, remove};
ghost use Rattle.sm_ranges.specs.Keyed.{IsKeyPlace, IsKeyGap};
ghost use Rattle.sm_map.specs.KeyMap.{key_of, IsKeyMap};
ghost use Rattle.sm_map.specs.KeyEntry.{pairs_of, HasKeys};
ghost use Rattle.sm_map.specs.Blocks.{entries_in, lengths_in, number_of, HasEntry, IsGap, IsStop, IsSized, IsBlockGap};
ghost use Rattle.sm_map.specs.Blocks.{HasOneMore, IsEnd};
ghost use Rattle.sm_map.specs.Index.{IsReady};

use crate::block::{Block, MOST_ENTRIES};
use crate::hints::{Hints, alike};
use crate::key_entry::KeyEntry;
use crate::place::Place;
use crate::room::Room;
use sm_arena::arena::Arena;
use sm_ranges::order::compare;
use std::alloc::{AllocError, Global};
use std::cmp::Ordering;
use std::marker::Model;

// Entries in the order of their keys, in blocks of 1 to 64.
#[derive(Drop)]
pub(crate) struct Index {
    alloc: Global,
    blocks: Vec<Block>,
    hints: Hints,
    len: u128,
}

impl Model for Index {
    ghost use Rattle.std.specs.Prelude.{◌-◌};
    ghost use Rattle.std.specs.Vec.{vec_len, vec_capacity};
    ghost use Rattle.sm_map.specs.Index.{IndexValue, IsIndex};

    ghost Value = { IndexValue };

    ghost view = { λ index. record {
      blocks = index.blocks.items;
      room = vec_capacity index.blocks - vec_len index.blocks;
    } };

    ghost invariant = { λ index. IsIndex index.blocks.items index.len };
}

impl Index {
    pub(crate) fn new(alloc: Global) -> Index
        ensures { result.blocks ≡ [] }
    {
        Index {
            alloc,
            blocks: Vec::new(alloc),
            hints: Hints::new(alloc),
            len: 0,
        }
    }

    pub(crate) fn len(&self) -> u128
        ensures { result ≡ length (entries_in self.now.blocks) }
    {
        self.len
    }

    // Returns how many blocks there are.
    pub(crate) fn block_count(&self) -> usize
        ensures { result ≡ length (lengths_in self.now.blocks) }
    {
        self.blocks.len()
    }

    // Returns how many entries a block has.
    pub(crate) fn block_len(&self, at: usize) -> usize
        requires { at < length (lengths_in self.now.blocks) }
        ensures value { result ≡ slice_index (lengths_in self.now.blocks) at }
        ensures bounds { (0 < result) × (result ≤ MOST_ENTRIES) }
    {
        self.blocks[at].len()
    }

    // Returns the place of the entry with the key, or the place to which one would go.
    pub(crate) fn find(&self, arena: &Arena, key: &[u8]) -> Result<Place, Place>
        requires keys { HasKeys arena.now.placed (entries_in self.now.blocks) }
        requires rising { IsKeyMap (pairs_of arena.now.placed (entries_in self.now.blocks)) }
        ensures entry { IfOk result (HasEntry (lengths_in self.now.blocks)) }
        ensures found { IfOk result (λ place. IsKeyPlace key_of (pairs_of arena.now.placed (entries_in self.now.blocks))
            key.now (number_of (lengths_in self.now.blocks) place)) }
        ensures gap { IfErr result (IsGap (lengths_in self.now.blocks)) }
        ensures absent { IfErr result (λ place. IsKeyGap key_of (pairs_of arena.now.placed (entries_in self.now.blocks))
            key.now (number_of (lengths_in self.now.blocks) place)) }
    {
        let guess = self.hints.block_of(key);
        if let Some(place) = self.find_guessed(guess, arena, key) {
            return Ok(place);
        }
        match search(&self.blocks, guess, arena, key) {
            Ok(block) => Ok(Place { block, offset: 0 }),
            Err(0) => Err(Place::FIRST),
            Err(count) => self.find_in(count - 1, arena, key),
        }
    }

    // Returns the place of the entry with the key, if it is in this block and its tag is there.
    fn find_guessed(&self, block: usize, arena: &Arena, key: &[u8]) -> Option<Place>
        requires keys { HasKeys arena.now.placed (entries_in self.now.blocks) }
        requires rising { IsKeyMap (pairs_of arena.now.placed (entries_in self.now.blocks)) }
        ensures entry { IfSome result (HasEntry (lengths_in self.now.blocks)) }
        ensures found { IfSome result (λ place. IsKeyPlace key_of
            (pairs_of arena.now.placed (entries_in self.now.blocks)) key.now
            (number_of (lengths_in self.now.blocks) place)) }
    {
        if block >= self.blocks.len() {
            return None;
        }
        match self.blocks[block].find_tagged(arena, key) {
            Some(offset) => Some(Place { block, offset }),
            None => None,
        }
    }

    // Returns the same for the only block that can have the key.
    fn find_in(&self, block: usize, arena: &Arena, key: &[u8]) -> Result<Place, Place>
        requires within { block < length (lengths_in self.now.blocks) }
        requires keys { HasKeys arena.now.placed (entries_in self.now.blocks) }
        requires rising { IsKeyMap (pairs_of arena.now.placed (entries_in self.now.blocks)) }
        requires between { IsBlockGap (pairs_of arena.now.placed (entries_in self.now.blocks))
            (lengths_in self.now.blocks) key.now (block + 1) }
        ensures entry { IfOk result (HasEntry (lengths_in self.now.blocks)) }
        ensures found { IfOk result (λ place. IsKeyPlace key_of (pairs_of arena.now.placed (entries_in self.now.blocks))
            key.now (number_of (lengths_in self.now.blocks) place)) }
        ensures gap { IfErr result (IsGap (lengths_in self.now.blocks)) }
        ensures absent { IfErr result (λ place. IsKeyGap key_of (pairs_of arena.now.placed (entries_in self.now.blocks))
            key.now (number_of (lengths_in self.now.blocks) place)) }
    {
        match self.blocks[block].find(arena, key) {
            Ok(offset) => Ok(Place { block, offset }),
            Err(offset) => Err(Place { block, offset }),
        }
    }

    pub(crate) fn entry(&self, place: Place) -> KeyEntry
        requires { HasEntry (lengths_in self.now.blocks) place }
        ensures { HoldsAt (λ entry. result ≡ entry) (entries_in self.now.blocks)
            (number_of (lengths_in self.now.blocks) place) }
    {
        self.blocks[place.block].entry(place.offset)
    }

    // Returns the entries from a place up to another place in the same block.
    pub(crate) fn entries(&self, place: Place, high: usize) -> &[KeyEntry]
        requires block { place.block < length (lengths_in self.now.blocks) }
        requires order { (place.offset ≤ high) × (high ≤ slice_index (lengths_in self.now.blocks) place.block) }
        ensures count { place.offset + length result.now ≡ high }
        ensures each { (k : ℕ) → k < length result.now → HoldsAt (λ entry. slice_index_or result.now k entry ≡ entry)
            (entries_in self.now.blocks) (number_of (lengths_in self.now.blocks) place + k) }
    {
        self.blocks[place.block].entries(place.offset, high)
    }

    // Returns the place of the first entry, or the end.
    pub(crate) fn first(&self) -> Place
        ensures stop { IsStop (lengths_in self.now.blocks) result }
        ensures first { number_of (lengths_in self.now.blocks) result ≡ 0 }
    {
        // No block is empty. A proof knows this after a field is used.
        let _ = &self.blocks;
        Place::FIRST
    }

    // Returns the place of the entry after a gap, or the end.
    pub(crate) fn stop(&self, place: Place) -> Place
        requires { IsGap (lengths_in self.now.blocks) place }
        ensures stop { IsStop (lengths_in self.now.blocks) result }
        ensures same { number_of (lengths_in self.now.blocks) result ≡ number_of (lengths_in self.now.blocks) place }
    {
        if place.block < self.blocks.len() && place.offset == self.blocks[place.block].len() {
            return Place {
                block: place.block + 1,
                offset: 0,
            };
        }
        place
    }

    // Returns the place of the next entry, or the end.
    pub(crate) fn after(&self, place: Place) -> Place
        requires { HasEntry (lengths_in self.now.blocks) place }
        ensures stop { IsStop (lengths_in self.now.blocks) result }
        ensures next { number_of (lengths_in self.now.blocks) result ≡ number_of (lengths_in self.now.blocks) place
            + 1 }
    {
        // No block is too long. A proof knows this after a field is used.
        let _ = &self.blocks;
        self.stop(Place {
            block: place.block,
            offset: place.offset + 1,
        })
    }

    // Returns the place to which an entry goes after all others: in the last block, or behind it if it is full.
    pub(crate) fn end(&self) -> Place
        ensures gap { IsGap (lengths_in self.now.blocks) result }
        ensures end { number_of (lengths_in self.now.blocks) result ≡ length (entries_in self.now.blocks) }
        ensures last { IsEnd (lengths_in self.now.blocks) result }
    {
        let count = self.blocks.len();
        if count > 0 {
            let offset = self.blocks[count - 1].len();
            if offset < MOST_ENTRIES {
                return Place {
                    block: count - 1,
                    offset,
                };
            }
        }
        Place {
            block: count,
            offset: 0,
        }
    }

    // Replaces an entry.
    pub(crate) fn set(&mut self, place: Place, entry: KeyEntry)
        requires { HasEntry (lengths_in self.old.blocks) place }
        ensures { entries_in self.new.blocks
            ≡ slice_set (entries_in self.old.blocks) (number_of (lengths_in self.old.blocks) place) entry }
    {
        self.blocks[place.block].set(place.offset, entry);
    }

    // Makes room for one more entry at a place.
    pub(crate) fn reserve(&mut self, place: Place) -> Result<Room, AllocError>
        requires { IsGap (lengths_in self.old.blocks) place }
        ensures entries { entries_in self.new.blocks ≡ entries_in self.old.blocks }
        ensures lengths { lengths_in self.new.blocks ≡ lengths_in self.old.blocks }
        ensures ready { IfOk result (IsReady self.new place) }
    {
        if place.block == self.blocks.len() {
            self.blocks.reserve(1)?;
            let most = if place.block == 0 { 1 } else { MOST_ENTRIES };
            return Ok(Room::Behind(Block::with_room(self.alloc, most)?));
        }
        if self.blocks[place.block].len() < MOST_ENTRIES {
            self.blocks[place.block].reserve()?;
            return Ok(Room::Inside);
        }
        self.blocks.reserve(1)?;
        let room = Block::lower_room(place.offset);
        Ok(Room::Beside(Block::with_room(self.alloc, room)?))
    }

    // Puts an entry, with the tag of its key, into the room that was made for it at the place. The caller must have
    // made the room.
    pub(crate) fn insert(&mut self, place: Place, entry: KeyEntry, tag: u8, room: Room)
        requires { IsReady self.old place room }
        ensures entries { entries_in self.new.blocks
            ≡ insert (entries_in self.old.blocks) (number_of (lengths_in self.old.blocks) place) entry }
        ensures lengths { HasOneMore (lengths_in self.old.blocks) place (lengths_in self.new.blocks) }
    {
        self.len += 1;
        match room {
            Room::Inside => self.blocks[place.block].insert(place.offset, entry, tag),
            Room::Beside(lower) => {
                let upper = self.blocks[place.block].insert_split(place.offset, entry, tag, lower);
                add(&mut self.blocks, place.block + 1, upper);
            }
            Room::Behind(last) => {
                let mut last = last;
                last.insert(0, entry, tag);
                add(&mut self.blocks, place.block, last);
            }
        }
    }

    // Notes the first key of the block that the last entry, which was put in at this place, made.
    pub(crate) fn note(&mut self, place: Place, arena: &Arena)
        requires keys { HasKeys arena.now.placed (entries_in self.old.blocks) }
        requires rising { IsKeyMap (pairs_of arena.now.placed (entries_in self.old.blocks)) }
        ensures { self.new ≡ self.old }
    {
        let count = self.blocks.len();
        if count == 0 || self.hints.noted() == count {
            return;
        }
        let alike = alike(
            first_key(&self.blocks, 0, arena),
            first_key(&self.blocks, count - 1, arena),
        );
        if self.hints.noted() != count - 1 || !self.hints.serve(alike) {
            self.hints.restart(alike);
            note_all(&mut self.hints, &self.blocks, arena);
            return;
        }
        let at = place.block.saturating_add(1).min(count - 1);
        self.hints.note(at, first_key(&self.blocks, at, arena));
    }

    // Removes an entry. If it was the only one in its block, removes the block too.
    pub(crate) fn remove(&mut self, place: Place) -> KeyEntry
        requires { HasEntry (lengths_in self.old.blocks) place }
        ensures removed { HoldsAt (λ entry. result ≡ entry) (entries_in self.old.blocks)
            (number_of (lengths_in self.old.blocks) place) }
        ensures entries { entries_in self.new.blocks
            ≡ remove (entries_in self.old.blocks) (number_of (lengths_in self.old.blocks) place) }
    {
        self.len -= 1;
        let entry = self.blocks[place.block].remove(place.offset);
        if self.blocks[place.block].len() == 0 {
            self.blocks.remove(place.block);
            self.hints.forget(place.block);
        }
        entry
    }
}

// Puts a block in. There must be room for it.
fn add(blocks: &mut Vec<Block>, at: usize, block: Block)
    requires place { at ≤ length blocks.old.items }
    requires room { vec_len blocks.old < vec_capacity blocks.old }
    ensures { blocks.new.items ≡ insert blocks.old.items at block }
{
    // There is room, so this can't fail.
    let _ = blocks.insert(at, block);
}

// Returns the key of a block's first entry.
fn first_key<'a>(blocks: &[Block], at: usize, arena: &'a Arena) -> &'a [u8]
    requires within { at < length blocks.now }
    requires filled { All IsSized blocks.now }
    requires keys { HasKeys arena.now.placed (entries_in blocks.now) }
    requires rising { IsKeyMap (pairs_of arena.now.placed (entries_in blocks.now)) }
{
    arena.get(blocks[at].entry(0).key)
}

// Notes the first key of each block.
fn note_all(hints: &mut Hints, blocks: &[Block], arena: &Arena)
    requires filled { All IsSized blocks.now }
    requires keys { HasKeys arena.now.placed (entries_in blocks.now) }
    requires rising { IsKeyMap (pairs_of arena.now.placed (entries_in blocks.now)) }
{
    for at in 0..blocks.len() {
        hints.note(at, first_key(blocks, at, arena));
    }
}

// Returns the block whose first entry has the key, or how many blocks have a first entry below it. It begins with the
// guessed block and goes on from there in steps that double. After that, each step halves the blocks between low and
// high.
fn search(blocks: &[Block], guess: usize, arena: &Arena, key: &[u8]) -> Result<usize, usize>
    requires filled { All IsSized blocks.now }
    requires keys { HasKeys arena.now.placed (entries_in blocks.now) }
    requires rising { IsKeyMap (pairs_of arena.now.placed (entries_in blocks.now)) }
    ensures within { IfOk result (λ block. block < length blocks.now) }
    ensures found { IfOk result (λ block. IsKeyPlace key_of (pairs_of arena.now.placed (entries_in blocks.now)) key.now
        (number_of (lengths_in blocks.now) (record { block = block; offset = 0 }))) }
    ensures absent { IfErr result
        (IsBlockGap (pairs_of arena.now.placed (entries_in blocks.now)) (lengths_in blocks.now) key.now) }
{
    let mut low = 0;
    let mut high = blocks.len();
    let mut next = guess;
    let mut step: usize = 1;
    while low < high {
        let middle = probe(low, high, next);
        next = next.saturating_add(step);
        step = step.saturating_mul(2);
        match compare(arena.get(blocks[middle].entry(0).key), key) {
            Ordering::Less => low = middle + 1,
            Ordering::Equal => return Ok(middle),
            Ordering::Greater => high = middle,
        }
    }
    Err(low)
}

// Returns a place from low up to, but without, high: the wanted one, or otherwise the middle.
fn probe(low: usize, high: usize, wanted: usize) -> usize
    requires { low < high }
    ensures { (low ≤ result) × (result < high) }
{
    if low <= wanted && wanted < high {
        wanted
    } else {
        low + (high - low) / 2
    }
}
