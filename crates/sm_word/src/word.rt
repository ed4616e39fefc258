ghost use Rattle.std.specs.Prelude.{◌≡◌, ◌↔◌, ◌≢◌, ◌<◌, ◌≤◌, ◌%◌, ◌*◌, Some, None, IfSome, IsTrue};
ghost use Rattle.std.specs.Prelude.{true, false, unwrap_or};
ghost use Rattle.sm_ownership.specs.declared.record.Record.{Record as RecordValue};
ghost use Rattle.sm_ownership.specs.History.{after_admit, after_done};
ghost use Rattle.sm_ranges.specs.declared.stand.Stand.{Stand as StandValue};
ghost use Rattle.sm_ranges.specs.declared.stand.Stand.TheVariants.{Serving};
ghost use Rattle.sm_ranges.specs.ServerId.{IsServer};
ghost use Rattle.sm_ranges.specs.Stand.{owner_number, other_number};
ghost use Rattle.sm_word.specs.Word.{IsWellFormed, FitsStand, NamesServers, word_of, phase_of, server_of};

use sm_ownership::record::Record;
use sm_ranges::server_id::ServerId;
use sm_ranges::stand::Stand;

/// The lowest bit of the phase in a word: 0 vacant, 1 serving, 2 prepared, 3 forwarding, 4 taken, 5 paused.
pub const PHASE: u64 = 1 << 61;

/// The bit of a word that says whether a server is admitted.
pub const ADMITTED: u64 = 1 << 60;

/// The lowest bit of the owner's number in a word. The number is 0 if there is no owner.
pub const OWNER: u64 = 1 << 48;

/// The lowest bit of the number of the next or the previous server. Below it is the generation.
pub const OTHER: u64 = 1 << 36;

/// How many numbers of servers fit in a part.
pub const SERVERS: u64 = 1 << 12;

/// Returns the word of a well-formed record.
pub fn pack(state: Record) -> u64
    requires { IsWellFormed state }
    ensures { result ≡ word_of state }
{
    let admitted = if state.admitted { ADMITTED } else { 0 };
    phase(state.stand) * PHASE
        + admitted
        + number(state.stand.owner()) * OWNER
        + number(state.stand.other()) * OTHER
        + state.generation
}

/// Returns the well-formed record that has this word, or nothing if no record has it.
pub fn unpack(word: u64) -> Option<Record>
    ensures { (state : RecordValue) → (result ≡ Some state) ↔ (IsWellFormed state × (word_of state ≡ word)) }
{
    let owner = ServerId::new((word / OWNER % SERVERS) as u16);
    let other = ServerId::new((word / OTHER % SERVERS) as u16);
    let stand = stand_of(word / PHASE, owner, other)?;
    let admitted = word / ADMITTED % 2 == 1;
    let generation = word % OTHER;
    if !fits_stand(&stand, admitted, generation) {
        return None;
    }
    Some(Record {
        stand,
        admitted,
        generation,
    })
}

/// Returns the record of a word. The word must have one.
// If a caller reads only one part, the other parts cost nothing once this is inlined.
#[inline(always)]
pub fn record_of_word(word: u64) -> Record
    requires { (state : RecordValue) × IsWellFormed state × (word_of state ≡ word) }
    ensures { (state : RecordValue) → IsWellFormed state → word_of state ≡ word → result ≡ state }
{
    let owner = (word / OWNER % SERVERS) as u16;
    let other = (word / OTHER % SERVERS) as u16;
    Record {
        stand: known_stand(word / PHASE, owner, other),
        admitted: word / ADMITTED % 2 == 1,
        generation: word % OTHER,
    }
}

/// Returns whether, by the word of a record, this server serves the shard and isn't admitted to it. It takes one
/// comparison.
pub fn is_served(word: u64, server: ServerId) -> bool
    ensures { IsTrue result → (state : RecordValue) → IsWellFormed state → word_of state ≡ word
        → (state.stand ≡ Serving server) × (state.admitted ≡ false) }
{
    word / OTHER == PHASE / OTHER + u64::from(server.number()) * (OWNER / OTHER)
}

/// Returns the word after an admission. The word's record must be idle.
pub fn admit_word(word: u64) -> u64
    requires { (state : RecordValue) × IsWellFormed state × (state.admitted ≡ false) × (word_of state ≡ word) }
    ensures { (state : RecordValue) → state.admitted ≡ false → word_of state ≡ word
        → result ≡ word_of (after_admit state) }
{
    word + (ADMITTED + 1)
}

/// Returns the word after the end of an admission. The word's record must be admitted.
pub fn done_word(word: u64) -> u64
    requires { (state : RecordValue) × IsWellFormed state × (state.admitted ≡ true) × (word_of state ≡ word) }
    ensures { (state : RecordValue) → state.admitted ≡ true → word_of state ≡ word
        → result ≡ word_of (after_done state) }
{
    word - (ADMITTED - 1)
}

// Returns the stand of this phase with these servers, or with as many of them as it names.
#[inline(always)]
fn known_stand(phase: u64, owner: u16, other: u16) -> Stand
    requires owner { phase ≢ 0 → IsServer owner }
    requires other { 2 ≤ phase → phase ≤ 4 → IsServer other }
    ensures { (stand : StandValue) → phase_of stand ≡ phase → owner_number stand ≡ owner → other_number stand ≡ other
        → result ≡ stand }
{
    match phase {
        0 => Stand::Vacant,
        1 => Stand::Serving(ServerId::of(owner)),
        2 => Stand::Prepared {
            owner: ServerId::of(owner),
            next: ServerId::of(other),
        },
        3 => Stand::Forwarding {
            owner: ServerId::of(owner),
            next: ServerId::of(other),
        },
        4 => Stand::Taken {
            owner: ServerId::of(owner),
            previous: ServerId::of(other),
        },
        _ => Stand::Paused(ServerId::of(owner)),
    }
}

fn phase(stand: Stand) -> u64
    ensures { result ≡ phase_of stand }
{
    match stand {
        Stand::Vacant => 0,
        Stand::Serving(_) => 1,
        Stand::Prepared { .. } => 2,
        Stand::Forwarding { .. } => 3,
        Stand::Taken { .. } => 4,
        Stand::Paused(_) => 5,
    }
}

// Returns the number of the server, or 0 if there is none.
fn number(server: Option<ServerId>) -> u64
    ensures { result ≡ unwrap_or server 0 }
{
    match server {
        Some(server) => u64::from(server.number()),
        None => 0,
    }
}

// Returns the stand of this phase with these servers, if there is one.
fn stand_of(phase: u64, owner: Option<ServerId>, other: Option<ServerId>) -> Option<Stand>
    ensures some { IfSome result (λ stand. NamesServers stand × (phase_of stand ≡ phase)
        × (server_of (owner_number stand) ≡ owner) × (server_of (other_number stand) ≡ other)) }
    ensures none { (stand : StandValue) → NamesServers stand → phase_of stand ≡ phase
        → server_of (owner_number stand) ≡ owner → server_of (other_number stand) ≡ other → result ≡ Some stand }
{
    let Some(owner) = owner else {
        return if phase == 0 && other.is_none() {
            Some(Stand::Vacant)
        } else {
            None
        };
    };
    let Some(other) = other else {
        return match phase {
            1 => Some(Stand::Serving(owner)),
            5 => Some(Stand::Paused(owner)),
            _ => None,
        };
    };
    if other == owner {
        return None;
    }
    match phase {
        2 => Some(Stand::Prepared { owner, next: other }),
        3 => Some(Stand::Forwarding { owner, next: other }),
        4 => Some(Stand::Taken {
            owner,
            previous: other,
        }),
        _ => None,
    }
}

// Returns whether a record of this stand may be admitted or idle as given, and have this generation.
fn fits_stand(stand: &Stand, admitted: bool, generation: u64) -> bool
    ensures { IsTrue result ↔ FitsStand stand.now admitted generation }
{
    match stand {
        Stand::Vacant => !admitted && generation == 0,
        Stand::Paused(_) => !admitted && generation >= 1,
        _ => generation >= 1,
    }
}
