ghost use Rattle.std.specs.Prelude.{◌≡◌, ◌<◌, ◌≤◌, ◌+◌, ◌++◌, ℕ, true, [], Some, length, map, sum, slice_index, take};
ghost use Rattle.std.specs.Prelude.{is_some, IfOk, IfErr, OnOk, OnErr};
ghost use Rattle.std.specs.List.{HoldsAt, between};
ghost use Rattle.std.specs.Option.{option_map};
ghost use Rattle.sm_ranges.specs.Keyed.{IsKeyPlace, IsKeyGap};
ghost use Rattle.sm_map.specs.KeyMap.{key_of, IsKeyMap, IsText, HoldsText, IsEdgeOf};
ghost use Rattle.sm_map.specs.KeyMap.{held_at, holding, without, within, text_of, text_at, size_at};
ghost use Rattle.sm_map.specs.KeyMap.{Text as HeldText};
ghost use Rattle.sm_map.specs.ArenaMap.{IsRewrite, IsRemoval, IsAddition};
ghost use Rattle.sm_map.specs.Blocks.{number_of, HasEntry, HasOneMore, IsEnd, IsPacked, IsGap, IsStop};
ghost use Rattle.sm_map.specs.Places.{precedes};
ghost use Rattle.sm_map.specs.Position.{IsPositionIn};
ghost use Rattle.sm_map.specs.Val.{held_of, row_of};

use crate::block::MOST_ENTRIES;
use crate::index::Index;
use crate::key_entry::KeyEntry;
use crate::place::Place;
use crate::position::Position;
use crate::slot::Slot;
use crate::tags::tag_of;
use crate::val::Val;
use sm_arena::arena::Arena;
use std::alloc::{AllocError, Global};
use std::marker::Model;

/// A map from keys to texts and counts, in the order of the keys. Keys are compared byte by byte as numbers, and a
/// proper prefix comes first. The bytes of keys and texts are in an arena. If they are replaced or removed, they stay
/// there as dead bytes until a rebuild.
#[derive(Drop)]
pub struct ArenaMap {
    alloc: Global,
    arena: Arena,
    index: Index,
}

impl Model for ArenaMap {
    ghost use Rattle.sm_map.specs.ArenaMap.{MapValue};

    ghost Value = { MapValue };

    ghost use Rattle.sm_map.specs.Kept.{value_of, IsKept};

    ghost view = { value_of };

    ghost invariant = { IsKept };
}

impl ArenaMap {
    /// Makes an empty map.
    pub fn new(alloc: Global) -> ArenaMap
        ensures pairs { (result.pairs ≡ []) × (result.dead ≡ 0) }
        ensures blocks { result.blocks ≡ [] }
    {
        ArenaMap {
            alloc,
            arena: Arena::new(alloc),
            index: Index::new(alloc),
        }
    }

    /// Returns how many keys have a value. The pairs are in the order of their keys, and no two have the same key.
    pub fn len(&self) -> u128
        ensures value { result ≡ length self.now.pairs }
        ensures is_key_map { IsKeyMap self.now.pairs }
    {
        self.index.len()
    }

    /// Returns how many blocks the index has. Each has 1 to 64 pairs.
    pub fn blocks(&self) -> usize
        ensures value { result ≡ length self.now.blocks }
        ensures sum { sum self.now.blocks ≡ length self.now.pairs }
    {
        self.index.block_count()
    }

    /// Returns how many pairs a block of the index has.
    pub fn block_len(&self, at: usize) -> usize
        requires { at < length self.now.blocks }
        ensures value { result ≡ slice_index self.now.blocks at }
        ensures bounds { (0 < result) × (result ≤ MOST_ENTRIES) }
    {
        self.index.block_len(at)
    }

    /// Returns how many bytes in the arena aren't dead.
    pub fn bytes(&self) -> u128
        ensures { result ≡ self.now.bytes }
    {
        self.arena.bytes()
    }

    /// Returns how many bytes of keys and texts are dead because they were removed or replaced.
    pub fn dead(&self) -> u128
        ensures { result ≡ self.now.dead }
    {
        self.arena.dead()
    }

    /// Returns the key's value, or nothing if it has none.
    pub fn get(&self, key: &[u8]) -> Option<Val<'_>>
        ensures { option_map held_of result ≡ held_at self.now.pairs key.now }
    {
        self.get_at(self.locate(key))
    }

    /// Returns the position of the key's pair, or the one to which it would go, so that several calls for one key have
    /// to search only once.
    pub fn locate<'k>(&self, key: &'k [u8]) -> Position<'k>
        ensures position { IsPositionIn self.now result }
        ensures key { result.key.now ≡ key.now }
    {
        Position {
            key,
            place: self.find(key),
        }
    }

    /// Returns the value of the key at the position, or nothing if it has none.
    pub fn get_at(&self, position: Position<'_>) -> Option<Val<'_>>
        requires { IsPositionIn self.now position }
        ensures { option_map held_of result ≡ held_at self.now.pairs position.entry.key.now }
    {
        match position.place {
            Ok(place) => Some(self.pair_at(place).1),
            Err(_) => None,
        }
    }

    /// Makes the key hold the value, and replaces its old value.
    ///
    /// # Errors
    ///
    /// `AllocError` if memory is refused, or if key and text have 2^32 bytes or more. The map then doesn't change.
    pub fn put(&mut self, key: &[u8], value: Val<'_>) -> Result<(), AllocError>
        ensures ok { OnOk result (self.new.pairs ≡ holding self.old.pairs key.now (held_of value.entry)) }
        ensures dead { OnOk result (self.new.dead ≡ self.old.dead + length (text_at self.old.pairs key.now)) }
        ensures err { OnErr result (self.new ≡ self.old) }
    {
        let position = self.locate(key);
        self.put_at(position, value)
    }

    /// Makes the key at the position hold the value, as [`ArenaMap::put`] does.
    ///
    /// # Errors
    ///
    /// `AllocError` if memory is refused, or if key and text have 2^32 bytes or more. The map then doesn't change.
    pub fn put_at(&mut self, position: Position<'_>, value: Val<'_>) -> Result<(), AllocError>
        requires { IsPositionIn self.old position }
        ensures ok { OnOk result
            (self.new.pairs ≡ holding self.old.pairs position.entry.key.now (held_of value.entry)) }
        ensures dead { OnOk result
            (self.new.dead ≡ self.old.dead + length (text_at self.old.pairs position.entry.key.now)) }
        ensures err { OnErr result (self.new ≡ self.old) }
    {
        match position.place {
            Ok(place) => self.write_at(place, value),
            Err(place) => self.insert_at(place, position.key, value),
        }
    }

    /// Makes the key at the position hold the text, as [`ArenaMap::put_at`] does, and keeps the text's memory instead
    /// of a copy. For a short text this takes more memory than a copy beside others.
    ///
    /// # Errors
    ///
    /// `AllocError` with the text if memory is refused, or if text or key have 2^32 bytes or more. The map then doesn't
    /// change.
    pub fn put_owned_at(
        &mut self,
        position: Position<'_>,
        text: Vec<u8>,
    ) -> Result<(), (Vec<u8>, AllocError)>
        requires { IsPositionIn self.old position }
        ensures ok { OnOk result
            (self.new.pairs ≡ holding self.old.pairs position.entry.key.now (HeldText text.items)) }
        ensures dead { OnOk result
            (self.new.dead ≡ self.old.dead + length (text_at self.old.pairs position.entry.key.now)) }
        ensures handed_back { IfErr result (λ back. back.0.items ≡ text.items) }
        ensures err { OnErr result (self.new ≡ self.old) }
    {
        match position.place {
            Ok(place) => self.write_owned_at(place, text),
            Err(place) => self.insert_owned_at(place, position.key, text),
        }
    }

    /// Appends the tail to the text of the key, which must hold a text.
    ///
    /// # Errors
    ///
    /// `AllocError` if memory is refused, or if the whole text has 2^32 bytes or more. The map then doesn't change.
    pub fn append(&mut self, key: &[u8], tail: &[u8]) -> Result<(), AllocError>
        requires { HoldsText self.old.pairs key.now }
        ensures ok { OnOk result
            (self.new.pairs ≡ holding self.old.pairs key.now (HeldText (text_at self.old.pairs key.now ++ tail.now))) }
        ensures dead { OnOk result (self.new.dead ≡ self.old.dead + length (text_at self.old.pairs key.now)) }
        ensures err { OnErr result (self.new ≡ self.old) }
    {
        let position = self.locate(key);
        self.append_at(position, tail)
    }

    /// Appends the tail to the text of the key at the position, as [`ArenaMap::append`] does. The key must hold a text.
    ///
    /// # Errors
    ///
    /// `AllocError` if memory is refused, or if the whole text has 2^32 bytes or more. The map then doesn't change.
    pub fn append_at(&mut self, position: Position<'_>, tail: &[u8]) -> Result<(), AllocError>
        requires position { IsPositionIn self.old position }
        requires text { HoldsText self.old.pairs position.key.now }
        ensures ok { OnOk result (self.new.pairs ≡ holding self.old.pairs position.entry.key.now
            (HeldText (text_at self.old.pairs position.entry.key.now ++ tail.now))) }
        ensures dead { OnOk result
            (self.new.dead ≡ self.old.dead + length (text_at self.old.pairs position.entry.key.now)) }
        ensures err { OnErr result (self.new ≡ self.old) }
    {
        match position.place {
            Ok(place) => self.lengthen_at(place, tail),
            Err(_) => unreachable!(),
        }
    }

    /// Removes the key's value, and returns whether it had one.
    pub fn remove(&mut self, key: &[u8]) -> bool
        ensures pairs { self.new.pairs ≡ without self.old.pairs key.now }
        ensures dead { self.new.dead ≡ self.old.dead + size_at self.old.pairs key.now }
        ensures held { result ≡ is_some (held_at self.old.pairs key.now) }
    {
        match self.find(key) {
            Ok(place) => {
                self.remove_at(place);
                true
            }
            Err(_) => false,
        }
    }

    /// Returns the first `max` pairs with keys from low up to, but without, high, in the order of their keys.
    ///
    /// # Errors
    ///
    /// `AllocError` if memory is refused. The map then doesn't change.
    pub fn scan(
        &self,
        low: &[u8],
        high: &[u8],
        max: usize,
    ) -> Result<Vec<(&[u8], Val<'_>)>, AllocError>
        ensures { IfOk result (λ rows. map row_of rows.items ≡ take max (within self.now.pairs low.now high.now)) }
    {
        let end = self.edge(high);
        let mut place = self.edge(low);
        let mut rows = Vec::with_capacity(self.alloc, place.most_before(end).min(max))?;
        while rows.len() < max && place.precedes(end) {
            let high = self.part_end(place, end, max - rows.len());
            rows = self.with_rows(rows, place, high)?;
            place = self.index.stop(Place {
                block: place.block,
                offset: high,
            });
        }
        Ok(rows)
    }

    /// Makes a second map of the same pairs in fresh memory, in which nothing is dead and each block except the last is
    /// full.
    ///
    /// # Errors
    ///
    /// `AllocError` if memory is refused.
    pub fn copy(&self) -> Result<ArenaMap, AllocError>
        ensures pairs { IfOk result (λ map. (map.pairs ≡ self.now.pairs) × (map.dead ≡ 0)) }
        ensures blocks { IfOk result (λ map. IsPacked map.blocks) }
    {
        let mut map = ArenaMap::new(self.alloc);
        let mut place = self.index.first();
        // The pairs come in the order of their keys, so each goes to the end.
        while place.block < self.index.block_count() {
            let (key, value) = self.pair_at(place);
            map.insert_at(map.end(), key, value)?;
            place = self.index.after(place);
        }
        Ok(map)
    }

    /// Moves the pairs into fresh memory, in which nothing is dead and each block except the last is full.
    ///
    /// # Errors
    ///
    /// `AllocError` if memory is refused. The map then comes back unchanged.
    pub fn rebuild(self) -> Result<ArenaMap, (ArenaMap, AllocError)>
        ensures ok { IfOk result (λ map. (map.pairs ≡ self.pairs) × (map.dead ≡ 0)) }
        ensures blocks { IfOk result (λ map. IsPacked map.blocks) }
        ensures err { IfErr result (λ refused. refused.0 ≡ self) }
    {
        match self.copy() {
            Ok(map) => Ok(map),
            Err(refused) => Err((self, refused)),
        }
    }

    // Returns the place of the key's pair, or the place to which it would go.
    fn find(&self, key: &[u8]) -> Result<Place, Place>
        ensures rising { IsKeyMap self.now.pairs }
        ensures entry { IfOk result (HasEntry self.now.blocks) }
        ensures found { IfOk result
            (λ place. IsKeyPlace key_of self.now.pairs key.now (number_of self.now.blocks place)) }
        ensures gap { IfErr result (IsGap self.now.blocks) }
        ensures absent { IfErr result
            (λ place. IsKeyGap key_of self.now.pairs key.now (number_of self.now.blocks place)) }
    {
        self.index.find(&self.arena, key)
    }

    // Returns the place of the first pair that isn't below the key, or the end.
    fn edge(&self, key: &[u8]) -> Place
        ensures stop { IsStop self.now.blocks result }
        ensures edge { IsEdgeOf self.now.pairs key.now (number_of self.now.blocks result) }
    {
        match self.find(key) {
            Ok(place) => place,
            Err(place) => self.index.stop(place),
        }
    }

    // Returns the place to which a pair goes after all others.
    fn end(&self) -> Place
        ensures gap { IsGap self.now.blocks result }
        ensures end { number_of self.now.blocks result ≡ length self.now.pairs }
        ensures last { IsEnd self.now.blocks result }
    {
        self.index.end()
    }

    // Returns the pair at a place.
    fn pair_at(&self, place: Place) -> (&[u8], Val<'_>)
        requires { HasEntry self.now.blocks place }
        ensures { HoldsAt (λ pair. row_of result ≡ pair) self.now.pairs (number_of self.now.blocks place) }
    {
        let entry = self.index.entry(place);
        (self.arena.get(entry.key), entry.slot.read(&self.arena))
    }

    // Returns the end, within the same block, of the pairs from a place on that come before another place, at most this
    // many.
    fn part_end(&self, place: Place, end: Place, most: usize) -> usize
        requires place { HasEntry self.now.blocks place }
        requires end { IsStop self.now.blocks end }
        requires order { precedes place end ≡ true }
        requires most { 0 < most }
        ensures within { result ≤ slice_index self.now.blocks place.block }
        ensures more { place.offset < result }
        ensures most { result ≤ place.offset + most }
        ensures before { number_of self.now.blocks (record { block = place.block; offset = result })
            ≤ number_of self.now.blocks end }
    {
        let high = if place.block == end.block {
            end.offset
        } else {
            self.index.block_len(place.block)
        };
        high.min(place.offset.saturating_add(most))
    }

    // Returns the rows, followed by those of the pairs from a place up to another place in the same block.
    fn with_rows<'a>(
        &'a self,
        rows: Vec<(&'a [u8], Val<'a>)>,
        place: Place,
        high: usize,
    ) -> Result<Vec<(&'a [u8], Val<'a>)>, AllocError>
        requires block { place.block < length self.now.blocks }
        requires order { (place.offset ≤ high) × (high ≤ slice_index self.now.blocks place.block) }
        ensures count { IfOk result (λ more. length more.items + place.offset ≡ length rows.entry.items + high) }
        ensures rows { IfOk result (λ more. (start : ℕ) → start ≤ number_of self.now.blocks place
            → map row_of rows.entry.items ≡ between start (number_of self.now.blocks place) self.now.pairs
            → map row_of more.items ≡ between start (sum (take place.block self.now.blocks) + high) self.now.pairs) }
    {
        let mut rows = rows;
        for entry in self.index.entries(place, high) {
            rows.push((self.arena.get(entry.key), entry.slot.read(&self.arena)))?;
        }
        Ok(rows)
    }

    // Replaces the value of the pair at a place.
    fn write_at(&mut self, place: Place, value: Val<'_>) -> Result<(), AllocError>
        requires { HasEntry self.old.blocks place }
        ensures ok { OnOk result (HoldsAt (λ pair. IsRewrite self.old (number_of self.old.blocks place) pair
            (held_of value.entry) self.new) self.old.pairs (number_of self.old.blocks place)) }
        ensures err { OnErr result (self.new ≡ self.old) }
    {
        let KeyEntry { key, slot: before } = self.index.entry(place);
        let slot = Slot::place(&mut self.arena, value)?;
        self.index.set(place, KeyEntry { key, slot });
        before.forget(&mut self.arena);
        Ok(())
    }

    // Replaces the value of the pair at a place with the text, and keeps the text's memory.
    fn write_owned_at(&mut self, place: Place, text: Vec<u8>) -> Result<(), (Vec<u8>, AllocError)>
        requires { HasEntry self.old.blocks place }
        ensures ok { OnOk result (HoldsAt (λ pair. IsRewrite self.old (number_of self.old.blocks place) pair
            (HeldText text.items) self.new) self.old.pairs (number_of self.old.blocks place)) }
        ensures handed_back { IfErr result (λ back. back.0.items ≡ text.items) }
        ensures err { OnErr result (self.new ≡ self.old) }
    {
        let KeyEntry { key, slot: before } = self.index.entry(place);
        let span = self.arena.join(text)?;
        let slot = Slot::Text(span);
        self.index.set(place, KeyEntry { key, slot });
        before.forget(&mut self.arena);
        Ok(())
    }

    // Replaces the text of the pair at a place with this text followed by the tail.
    fn lengthen_at(&mut self, place: Place, tail: &[u8]) -> Result<(), AllocError>
        requires entry { HasEntry self.old.blocks place }
        requires text { HoldsAt (λ pair. IsText pair.value) self.old.pairs (number_of self.old.blocks place) }
        ensures ok { OnOk result (HoldsAt (λ pair. IsRewrite self.old (number_of self.old.blocks place) pair (HeldText
            (text_of (Some pair.value) ++ tail.now)) self.new) self.old.pairs (number_of self.old.blocks place)) }
        ensures err { OnErr result (self.new ≡ self.old) }
    {
        let KeyEntry { key, slot: before } = self.index.entry(place);
        let slot = before.concat(&mut self.arena, tail)?;
        self.index.set(place, KeyEntry { key, slot });
        before.forget(&mut self.arena);
        Ok(())
    }

    // Puts a new pair in at the place of its key.
    fn insert_at(&mut self, place: Place, key: &[u8], value: Val<'_>) -> Result<(), AllocError>
        requires gap { IsGap self.old.blocks place }
        requires absent { IsKeyGap key_of self.old.pairs key.now (number_of self.old.blocks place) }
        ensures ok { OnOk result (IsAddition self.old (number_of self.old.blocks place)
            (record { key = key.now; value = held_of value.entry }) self.new) }
        ensures blocks { OnOk result (HasOneMore self.old.blocks place self.new.blocks) }
        ensures err { OnErr result (self.new ≡ self.old) }
    {
        let room = self.index.reserve(place)?;
        let entry = KeyEntry::place(&mut self.arena, key, value)?;
        self.index.insert(place, entry, tag_of(key), room);
        self.index.note(place, &self.arena);
        Ok(())
    }

    // Puts a new pair with this text in at the place of its key, and keeps the text's memory.
    fn insert_owned_at(
        &mut self,
        place: Place,
        key: &[u8],
        text: Vec<u8>,
    ) -> Result<(), (Vec<u8>, AllocError)>
        requires gap { IsGap self.old.blocks place }
        requires absent { IsKeyGap key_of self.old.pairs key.now (number_of self.old.blocks place) }
        ensures ok { OnOk result (IsAddition self.old (number_of self.old.blocks place)
            (record { key = key.now; value = HeldText text.items }) self.new) }
        ensures blocks { OnOk result (HasOneMore self.old.blocks place self.new.blocks) }
        ensures handed_back { IfErr result (λ back. back.0.items ≡ text.items) }
        ensures err { OnErr result (self.new ≡ self.old) }
    {
        let room = match self.index.reserve(place) {
            Ok(room) => room,
            Err(refused) => return Err((text, refused)),
        };
        let (text_span, key_span) = self.arena.join_and_place(text, key)?;
        let entry = KeyEntry {
            key: key_span,
            slot: Slot::Text(text_span),
        };
        self.index.insert(place, entry, tag_of(key), room);
        self.index.note(place, &self.arena);
        Ok(())
    }

    // Removes the pair at a place.
    fn remove_at(&mut self, place: Place)
        requires { HasEntry self.old.blocks place }
        ensures { HoldsAt (λ pair. IsRemoval self.old (number_of self.old.blocks place) pair self.new) self.old.pairs
            (number_of self.old.blocks place) }
    {
        let KeyEntry { key, slot } = self.index.remove(place);
        self.arena.forget(key);
        slot.forget(&mut self.arena);
    }
}
