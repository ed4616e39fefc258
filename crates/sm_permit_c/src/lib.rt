//! Permits, for callers in C and Rust: whether a process may execute a shard's requests, from its knowledge. The caller
//! keeps that knowledge as numbers, reads the store and the clock, and tells the call its news. Each call returns 0,
//! and is the function of its name on `ShardView` of sm_permit. Otherwise it returns a code of library/codes.txt and
//! changes nothing. No call keeps or allocates anything.
#![tactic(auto)]

ghost use Rattle.std.specs.Prelude.{◌≡◌, ◌≢◌, ◌<◌, ◌⊎◌};
ghost use Rattle.sm_ranges.specs.declared.limits.TheConstants.{MAX_SERVER};
ghost use Rattle.sm_ownership.specs.declared.mode.Mode.{Mode as ModeValue};
ghost use Rattle.sm_permit.specs.declared.hand_over.HandOver.{HandOver as HandOverValue};
ghost use Rattle.sm_permit.specs.declared.shard_reading.ShardReading.{ShardReading as ReadingValue};
ghost use Rattle.sm_permit.specs.declared.shard_view.ShardView.{ShardView as ViewValue};
ghost use Rattle.sm_permit.specs.Views.{may_ack, may_execute, new_view, view_acked, view_handed, view_kept};
ghost use Rattle.sm_permit.specs.Views.{view_let_go, view_read};
ghost use Rattle.sm_permit_c.specs.Numbers.{AreOfNone, AreOfReading, AreOfView, Becomes, ComesBy, IsBadServer};
ghost use Rattle.sm_permit_c.specs.Numbers.{IsBadWord, hand_over_numbers};

mod codes;
pub mod hand_over_numbers;
pub mod reading_numbers;
pub mod view_numbers;

use codes::{BAD_ARGUMENT, BAD_WORD};
pub use hand_over_numbers::HandOverNumbers;
pub use reading_numbers::ReadingNumbers;
use sm_ownership::mode::Mode;
use sm_permit::ShardView;
use sm_ranges::server_id::ServerId;
pub use view_numbers::ViewNumbers;

/// Writes the knowledge of a server's process that has joined at this revision. It executes nothing until it reads.
#[unsafe(no_mangle)]
pub extern "C" fn durkenzo_permit_new(
    server: u16,
    joined: u64,
    until: u64,
    view: &mut ViewNumbers,
) -> u32
    ensures made { result ≡ 0 → AreOfView view.new (new_view server joined until) }
    ensures refused { result ≢ 0 → (result ≡ 2) × IsBadServer server }
    ensures kept { result ≢ 0 → view.new ≡ view.old }
{
    let Some(server) = ServerId::new(server) else {
        return BAD_ARGUMENT;
    };
    *view = ViewNumbers::of(&ShardView::new(server, joined, until));
    0
}

/// Writes whether the process may execute a request that came directly (`from` 0) or from that server, at this time of
/// its clock.
#[unsafe(no_mangle)]
pub extern "C" fn durkenzo_permit_may_execute(
    view: &ViewNumbers,
    from: u16,
    time: u64,
    may: &mut bool,
) -> u32
    ensures told { result ≡ 0 → (known : ViewValue) × (mode : ModeValue) × AreOfView view.now known
        × ComesBy from mode × (may.new ≡ may_execute known mode time) }
    ensures refused { result ≢ 0 → AreOfNone view.now result ⊎ ((result ≡ 2) × (MAX_SERVER < from)) }
    ensures kept { result ≢ 0 → may.new ≡ may.old }
{
    let known = match view.view() {
        Ok(known) => known,
        Err(code) => return code,
    };
    let mode = match ServerId::new(from) {
        Some(server) => Mode::Forwarded(server),
        None => {
            if from != 0 {
                return BAD_ARGUMENT;
            }
            Mode::Direct
        }
    };
    *may = known.may_execute(mode, time);
    0
}

/// Writes whether the process may ack its record.
#[unsafe(no_mangle)]
pub extern "C" fn durkenzo_permit_may_ack(view: &ViewNumbers, may: &mut bool) -> u32
    ensures told { result ≡ 0 → (known : ViewValue) × AreOfView view.now known × (may.new ≡ may_ack known) }
    ensures refused { result ≢ 0 → AreOfNone view.now result }
    ensures kept { result ≢ 0 → may.new ≡ may.old }
{
    match view.view() {
        Ok(known) => {
            *may = known.may_ack();
            0
        }
        Err(code) => code,
    }
}

/// Tells the view that a keep of the lease was answered, by which the process goes until this time of its clock.
#[unsafe(no_mangle)]
pub extern "C" fn durkenzo_permit_kept(view: &mut ViewNumbers, until: u64) -> u32
    ensures made { result ≡ 0 → Becomes view.old (λ known. view_kept known until) view.new }
    ensures refused { result ≢ 0 → AreOfNone view.old result }
    ensures kept { result ≢ 0 → view.new ≡ view.old }
{
    match view.view() {
        Ok(known) => {
            *view = ViewNumbers::of(&known.kept(until));
            0
        }
        Err(code) => code,
    }
}

/// Tells the view that the process has read the shard.
#[unsafe(no_mangle)]
pub extern "C" fn durkenzo_permit_read(view: &mut ViewNumbers, reading: &ReadingNumbers) -> u32
    ensures made { result ≡ 0 → (told : ReadingValue) × AreOfReading reading.now told
        × Becomes view.old (λ known. view_read known told) view.new }
    ensures refused { result ≢ 0 → AreOfNone view.old result ⊎ ((result ≡ 4) × IsBadWord reading.now.word) }
    ensures kept { result ≢ 0 → view.new ≡ view.old }
{
    let known = match view.view() {
        Ok(known) => known,
        Err(code) => return code,
    };
    let Some(told) = reading.reading() else {
        return BAD_WORD;
    };
    *view = ViewNumbers::of(&known.read(told));
    0
}

/// Tells the view that the process has read that the server acked up to this generation.
#[unsafe(no_mangle)]
pub extern "C" fn durkenzo_permit_acked(view: &mut ViewNumbers, server: u16, generation: u64) -> u32
    ensures made { result ≡ 0 → Becomes view.old (λ known. view_acked known server generation) view.new }
    ensures refused { result ≢ 0 → AreOfNone view.old result ⊎ ((result ≡ 2) × IsBadServer server) }
    ensures kept { result ≢ 0 → view.new ≡ view.old }
{
    let known = match view.view() {
        Ok(known) => known,
        Err(code) => return code,
    };
    let Some(server) = ServerId::new(server) else {
        return BAD_ARGUMENT;
    };
    *view = ViewNumbers::of(&known.acked(server, generation));
    0
}

/// Tells the view that the process has bytes that name this.
#[unsafe(no_mangle)]
pub extern "C" fn durkenzo_permit_handed(view: &mut ViewNumbers, hand: &HandOverNumbers) -> u32
    ensures made { result ≡ 0 → (named : HandOverValue) × (hand.now ≡ hand_over_numbers named)
        × Becomes view.old (λ known. view_handed known named) view.new }
    ensures refused { result ≢ 0 → AreOfNone view.old result ⊎ ((result ≡ 2) × IsBadServer hand.now.server) }
    ensures kept { result ≢ 0 → view.new ≡ view.old }
{
    let known = match view.view() {
        Ok(known) => known,
        Err(code) => return code,
    };
    let Some(named) = hand.hand_over() else {
        return BAD_ARGUMENT;
    };
    *view = ViewNumbers::of(&known.handed(named));
    0
}

/// Notes that the process acks its record, or hands over: it executes no more by it.
#[unsafe(no_mangle)]
pub extern "C" fn durkenzo_permit_let_go(view: &mut ViewNumbers) -> u32
    ensures made { result ≡ 0 → Becomes view.old view_let_go view.new }
    ensures refused { result ≢ 0 → AreOfNone view.old result }
    ensures kept { result ≢ 0 → view.new ≡ view.old }
{
    match view.view() {
        Ok(known) => {
            *view = ViewNumbers::of(&known.let_go());
            0
        }
        Err(code) => code,
    }
}
