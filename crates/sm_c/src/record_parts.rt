ghost use Rattle.std.specs.Prelude.{◌≡◌, ◌↔◌, IfNone, IfSome, IsTrue, unwrap_or};
ghost use Rattle.sm_ownership.specs.declared.record.Record.{Record as RecordValue};
ghost use Rattle.sm_word.specs.Word.{IsWellFormed, phase_of, word_of};
ghost use Rattle.sm_c.specs.Words.{ArePartsOf, FitWord, parts_word};

use sm_ownership::record::{MAX_GENERATION, Record};
use sm_ranges::server_id::ServerId;
use sm_ranges::stand::Stand;
use sm_word::word::{ADMITTED, OTHER, OWNER, PHASE, SERVERS};

/// A shard's record as C sees it: servers by their numbers, 0 for none; `other` is the next or the previous server.
/// The phase is 0 vacant, 1 serving, 2 prepared, 3 forwarding, 4 taken, 5 paused.
#[repr(C)]
#[derive(Clone, Copy, Drop)]
pub struct RecordParts {
    pub generation: u64,
    pub owner: u16,
    pub other: u16,
    pub phase: u8,
    pub admitted: bool,
}

impl RecordParts {
    /// Returns the parts of a record.
    pub(crate) fn of(state: &Record) -> RecordParts
        ensures { ArePartsOf result state.now }
    {
        RecordParts {
            generation: state.generation,
            owner: number(state.stand.owner()),
            other: number(state.stand.other()),
            phase: phase(&state.stand),
            admitted: state.admitted,
        }
    }

    /// Returns the parts of the record that has this word, without a branch.
    pub(crate) fn of_word(word: u64) -> RecordParts
        ensures { (state : RecordValue) → IsWellFormed state → word_of state ≡ word → ArePartsOf result state }
    {
        RecordParts {
            generation: word % OTHER,
            owner: (word / OWNER % SERVERS) as u16,
            other: (word / OTHER % SERVERS) as u16,
            phase: (word / PHASE) as u8,
            admitted: word / ADMITTED % 2 == 1,
        }
    }

    /// Returns the word that a record with these parts has, if there is one.
    pub(crate) fn word(&self) -> Option<u64>
        ensures some { IfSome result (λ word. word ≡ parts_word self.now) }
        ensures none { IfNone result (FitWord self.now → ⊥) }
    {
        if !self.fit() {
            return None;
        }
        let admitted = if self.admitted { ADMITTED } else { 0 };
        let servers = u64::from(self.owner) * OWNER + u64::from(self.other) * OTHER;
        Some(u64::from(self.phase) * PHASE + admitted + servers + self.generation)
    }

    // Whether each part has room in a word.
    fn fit(&self) -> bool
        ensures { IsTrue result ↔ FitWord self.now }
    {
        self.phase <= 5
            && u64::from(self.owner) < SERVERS
            && u64::from(self.other) < SERVERS
            && self.generation <= MAX_GENERATION
    }

    /// Returns whether these are the same parts.
    pub(crate) fn is(&self, other: &RecordParts) -> bool
        ensures { IsTrue result ↔ (self.now ≡ other.now) }
    {
        self.generation == other.generation
            && self.owner == other.owner
            && self.other == other.other
            && self.phase == other.phase
            && self.admitted == other.admitted
    }
}

/// Returns the number of the server, or 0 if there is none.
pub(crate) fn number(server: Option<ServerId>) -> u16
    ensures { result ≡ unwrap_or server 0 }
{
    match server {
        Some(server) => server.number(),
        None => 0,
    }
}

fn phase(stand: &Stand) -> u8
    ensures { result ≡ phase_of stand.now }
{
    match stand {
        Stand::Vacant => 0,
        Stand::Serving(_) => 1,
        Stand::Prepared { .. } => 2,
        Stand::Forwarding { .. } => 3,
        Stand::Taken { .. } => 4,
        Stand::Paused(_) => 5,
    }
}
