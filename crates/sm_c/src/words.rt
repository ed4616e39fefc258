//! Steps from word to word.
ghost use Rattle.std.specs.Prelude.{◌⊎◌, IfErr, IfNone, IfOk, IfSome, None};
ghost use Rattle.sm_word.specs.Known.{NewlyNamesServer};
ghost use Rattle.sm_c.specs.Codes.{word_fault_code};
ghost use Rattle.sm_c.specs.Words.{AdmitsBy, ChangesBy, EndsWord, ForbidsBy, HasNoEnd, HasNoRecord, IsNoWord};
ghost use Rattle.sm_c.specs.Words.{PacksParts, RefusesBy};

use crate::record_parts::RecordParts;
use crate::word_fault::WordFault;
use sm_ownership::change::Change;
use sm_ownership::mode::Mode;
use sm_ownership::record::MAX_GENERATION;
use sm_ranges::server_id::ServerId;
use sm_word::word::{admit_word, done_word, pack, unpack};

// Shows that the servers in a change have valid numbers. Reading a number tells that to the proof, and does nothing
// else.
fn names_servers(change: &Change)
    ensures { NewlyNamesServer change.now }
{
    match change {
        Change::Assign(server) | Change::PrepareAddShard(server) | Change::Reassign(server) => {
            let _ = server.number();
        }
        _ => {}
    }
}

/// Returns the word after the change, or why there is none.
pub(crate) fn changed_word(word: u64, change: Change, ceiling: u64) -> Result<u64, WordFault>
    ensures next { IfOk result (ChangesBy word ceiling change) }
    ensures refused { IfErr result (λ fault. ForbidsBy word ceiling change (word_fault_code fault)) }
{
    if ceiling > MAX_GENERATION {
        return Err(WordFault::BadCeiling);
    }
    let Some(state) = unpack(word) else {
        return Err(WordFault::BadWord);
    };
    names_servers(&change);
    match state.changed(change, ceiling) {
        Ok(next) => Ok(pack(next)),
        Err(fault) => Err(WordFault::Change(fault)),
    }
}

/// Returns the word after an admission, or why there is none.
pub(crate) fn admitted_word(
    word: u64,
    server: ServerId,
    mode: Mode,
    ceiling: u64,
) -> Result<u64, WordFault>
    ensures next { IfOk result (AdmitsBy word ceiling server mode) }
    ensures refused { IfErr result (λ fault. RefusesBy word ceiling server mode (word_fault_code fault)) }
{
    if MAX_GENERATION < ceiling {
        return Err(WordFault::BadCeiling);
    }
    let Some(state) = unpack(word) else {
        return Err(WordFault::BadWord);
    };
    match state.admit_fault(server, mode, ceiling) {
        None => Ok(admit_word(word)),
        Some(fault) => Err(WordFault::Admit(fault)),
    }
}

/// Returns the word after the end of its admission, or nothing if it has none that can end.
pub(crate) fn ended_word(word: u64) -> Option<u64>
    ensures next { IfSome result (EndsWord word) }
    ensures none { IfNone result (IsNoWord word ⊎ HasNoEnd word) }
{
    let Some(state) = unpack(word) else {
        return None;
    };
    if !state.admitted || state.generation == MAX_GENERATION {
        return None;
    }
    Some(done_word(word))
}

/// Returns the word of the record with these parts. If there is no such record, returns none.
pub(crate) fn packed_word(parts: &RecordParts) -> Option<u64>
    ensures made { IfSome result (PacksParts parts.now) }
    ensures refused { IfNone result (HasNoRecord parts.now) }
{
    let word = parts.word()?;
    let Some(state) = unpack(word) else {
        return None;
    };
    if RecordParts::of(&state).is(parts) {
        Some(word)
    } else {
        None
    }
}
