ghost use Rattle.std.specs.Prelude.{◌≡◌};
ghost use Rattle.sm_texts.specs.Texts.{is_read};

use crate::requests::{answer_to, parts_of, read};
use crate::saves::{load, save};
use crate::text_reply::TextReply;
use sm_map::arena_map::ArenaMap;
use sm_map::val::Val;
use sm_service::counter_text::MAX_DEAD;
use sm_shard::{ReadAnswer, StoreMachine};
use std::alloc::{AllocError, Global};
use std::marker::Model;

/// Texts and counts by key, as the machine of a shared store. A request is its kind (1 get, 2 put, 3 append, 4 inc, 5
/// del), the length of its key, 1 to 255, the key, and then the text, or the amount in 8 bytes.
#[derive(Drop)]
pub struct StoreTexts {
    map: ArenaMap,
    // If memory was refused to move the map, the next try must wait until this many bytes are dead.
    tries_at: u128,
}

impl Model for StoreTexts {
    ghost use Rattle.std.specs.Prelude.{List};
    ghost use Rattle.sm_map.specs.KeyMap.{KeyPair};

    ghost Value = { List KeyPair };

    ghost view = { λ texts. texts.map.pairs };
}

impl StoreMachine<Vec<u8>, TextReply> for StoreTexts {
    ghost use Rattle.std.specs.Prelude.{length};
    ghost use Rattle.sm_texts.specs.Saves.{texts_service};
    ghost use Rattle.sm_texts.specs.lemmas.Reads.{reads_leave};

    ghost service = { texts_service };

    ghost size = { λ request. length request.items };

    fn new(alloc: Global) -> StoreTexts {
        StoreTexts {
            map: ArenaMap::new(alloc),
            tries_at: 0,
        }
    }

    fn answer(&mut self, _: Global, request: &Vec<u8>) -> Result<TextReply, AllocError> {
        match parts_of(request) {
            Some((kind, key, rest)) => {
                let answered = answer_to(&mut self.map, kind, key, rest);
                self.drop_the_dead();
                answered
            }
            None => Ok(TextReply::new(8, 0)),
        }
    }

    fn peek(
        &self,
        alloc: Global,
        request: &Vec<u8>,
    ) -> Result<Option<ReadAnswer<TextReply>>, AllocError> {
        if !is_read(request) {
            return Ok(None);
        }
        match parts_of(request) {
            Some((_, key, _)) => Ok(Some(read(alloc, &self.map, key)?)),
            None => Ok(Some(ReadAnswer {
                reply: TextReply::new(8, 0),
                text: Vec::new(alloc),
            })),
        }
    }

    fn size_of(request: &Vec<u8>) -> u64 {
        request.len() as u64
    }

    fn save(&self, alloc: Global) -> Result<Vec<u8>, AllocError> {
        save(alloc, &self.map)
    }

    fn load(alloc: Global, bytes: &[u8]) -> Result<Option<StoreTexts>, AllocError> {
        match load(alloc, bytes)? {
            Some(map) => Ok(Some(StoreTexts { map, tries_at: 0 })),
            None => Ok(None),
        }
    }

    ghost reads_leave = { λ pairs request reads. reads_leave pairs request.items reads };
}

impl StoreTexts {
    ghost use Rattle.std.specs.Prelude.{◌≡◌, IfOk, length, map, take};
    ghost use Rattle.std.specs.Option.{option_map};
    ghost use Rattle.sm_map.specs.KeyMap.{held_at, within};
    ghost use Rattle.sm_map.specs.Val.{held_of, row_of};

    /// Returns the value of the key, or nothing if it has none.
    pub fn look(&self, key: &[u8]) -> Option<Val<'_>>
        ensures { option_map held_of result ≡ held_at self.now key.now }
    {
        self.map.get(key)
    }

    /// Returns how many keys have a value.
    pub fn count(&self) -> u128
        ensures { result ≡ length self.now }
    {
        self.map.len()
    }

    /// Returns the first `most` of the pairs whose keys are at or above `low` and below `high`, in the order of their
    /// keys.
    ///
    /// # Errors
    ///
    /// `AllocError` if memory is refused.
    pub fn scan(
        &self,
        low: &[u8],
        high: &[u8],
        most: usize,
    ) -> Result<Vec<(&[u8], Val<'_>)>, AllocError>
        ensures { IfOk result (λ rows. map row_of rows.items ≡ take most (within self.now low.now high.now)) }
    {
        self.map.scan(low, high, most)
    }

    // Moves the map into fresh memory if much of the old memory is dead. If memory is refused, the map stays, and the
    // next try must wait until twice as much is dead.
    fn drop_the_dead(&mut self)
        ensures { self.new ≡ self.old }
    {
        let dead = self.map.dead();
        if dead > MAX_DEAD && dead > self.map.bytes() && dead >= self.tries_at {
            match self.map.copy() {
                Ok(moved) => {
                    self.map = moved;
                    self.tries_at = 0;
                }
                Err(_) => self.tries_at = dead.saturating_mul(2),
            }
        }
    }
}

/// Returns whether the request only reads.
pub fn is_read(request: &[u8]) -> bool
    ensures { result ≡ is_read request.now }
{
    match request {
        [kind, ..] => *kind == 1,
        [] => false,
    }
}
