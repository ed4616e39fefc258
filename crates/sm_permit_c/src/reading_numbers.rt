ghost use Rattle.std.specs.Prelude.{◌≡◌, IfNone, IfSome};
ghost use Rattle.sm_word.specs.Word.{IsWellFormed};
ghost use Rattle.sm_permit_c.specs.Numbers.{AreOfReading, IsBadWord, reading_numbers};

use sm_permit::ShardReading;
use sm_word::word::{pack, unpack};

/// A process's reading of a shard at one revision of the store, as C sees it.
#[repr(C)]
#[derive(Clone, Copy, Drop)]
pub struct ReadingNumbers {
    /// A revision that the store had reached by then.
    pub revision: u64,
    /// The word of the shard's record.
    pub word: u64,
    /// The revision at which the process of the record's owner put that server's key there, or 0 if there is none.
    pub owner_joined: u64,
    /// Whether the process's own server has failed, as its state says.
    pub failed: bool,
    /// Whether the record's owner has failed.
    pub owner_failed: bool,
}

impl ReadingNumbers {
    /// Returns the numbers of a reading.
    pub(crate) fn of(reading: &ShardReading) -> ReadingNumbers
        requires { IsWellFormed reading.now.state }
        ensures { result ≡ reading_numbers reading.now }
    {
        ReadingNumbers {
            revision: reading.revision,
            word: pack(reading.state),
            owner_joined: reading.owner_joined,
            failed: reading.failed,
            owner_failed: reading.owner_failed,
        }
    }

    /// Returns the reading with these numbers, or nothing if no record has the word.
    pub(crate) fn reading(&self) -> Option<ShardReading>
        ensures made { IfSome result (AreOfReading self.now) }
        ensures none { IfNone result (IsBadWord self.now.word) }
    {
        let Some(state) = unpack(self.word) else {
            return None;
        };
        Some(ShardReading {
            revision: self.revision,
            state,
            failed: self.failed,
            owner_joined: self.owner_joined,
            owner_failed: self.owner_failed,
        })
    }
}
