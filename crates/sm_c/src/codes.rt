//! The codes by which calls answer C.
ghost use Rattle.std.specs.Prelude.{◌≡◌, ◌≢◌, ◌<◌};
ghost use Rattle.sm_c.specs.Codes.{act_fault_code, admit_fault_code, change_fault_code, command_fault_code};
ghost use Rattle.sm_c.specs.Codes.{cut_fault_code, open_fault_code, pass_code, refusal_code, request_fault_code};
ghost use Rattle.sm_c.specs.Codes.{restart_fault_code, told_code, word_fault_code};

use crate::requests::RequestFault;
use crate::word_fault::WordFault;
use sm_desk::CommandFault;
use sm_foreign::OpenFault;
use sm_handle::{ActFault, CutFault};
use sm_ownership::admit_fault::AdmitFault;
use sm_ownership::change_fault::ChangeFault;
use sm_place::{BooksFault, PlaceFault};
use sm_ranges::key::KeyFault;
use sm_ranges::layout::LayoutFault;
use sm_rule::{AdmitRefusal, MakeFault, ToldRefusal};
use sm_server::{CheckpointFault, Refusal};
use sm_tasks::RestartFault;

// By tools/library-codes, the codes of library/codes.txt:

/// The handle keeps nothing that the call is for.
pub(crate) const WRONG_HANDLE: u32 = 1;

/// A server or a kind is out of range.
pub(crate) const BAD_ARGUMENT: u32 = 2;

/// Out of memory.
pub(crate) const NO_MEMORY: u32 = 3;

/// No record has the word.
pub(crate) const BAD_WORD: u32 = 4;

/// The ceiling of generations is 3 to 68,719,476,735.
pub(crate) const BAD_CEILING: u32 = 5;

/// A board, or a map of routes, has at least one shard.
pub(crate) const NO_SHARD: u32 = 6;

/// A board, a layout or a map of routes has at most 4,096 shards.
pub(crate) const TOO_MANY: u32 = 7;

/// There are no servers.
pub(crate) const BAD_BOOKS: u32 = 8;

/// The number of bodies isn't the number of shards of the settings.
pub(crate) const BAD_COUNT: u32 = 9;

/// There is no such shard.
pub(crate) const UNKNOWN_SHARD: u32 = 10;

/// The change doesn't begin from the shard's stand.
pub(crate) const WRONG_PHASE: u32 = 11;

/// The server owns the shard.
pub(crate) const SAME_SERVER: u32 = 12;

/// The shard's generations are spent.
pub(crate) const CHANGE_SPENT: u32 = 13;

/// The shard is admitted.
pub(crate) const BUSY: u32 = 14;

/// Another thread was first.
pub(crate) const RACED: u32 = 15;

/// Fencing tokens begin after a number of at most 9,223,371,968,135,299,072.
pub(crate) const BAD_AFTER: u32 = 16;

/// Nobody owns the shard.
pub(crate) const NOBODY_OWNS: u32 = 21;

/// The shard is paused.
pub(crate) const IS_PAUSED: u32 = 22;

/// Another server executes the shard's requests.
pub(crate) const NOT_EXECUTOR: u32 = 23;

/// The server executes only what the owner forwards.
pub(crate) const NOT_YET: u32 = 24;

/// The shard is admitted.
pub(crate) const ADMITTED: u32 = 25;

/// The shard's generations are spent.
pub(crate) const SPENT: u32 = 26;

/// The word has no admission that can end.
pub(crate) const NOT_ADMITTED: u32 = 27;

/// There is no such server.
pub(crate) const UNKNOWN_SERVER: u32 = 30;

/// The server is leaving.
pub(crate) const LEAVING: u32 = 31;

/// The server has no room.
pub(crate) const NO_CAPACITY: u32 = 32;

/// The server's domain has as many shards of the group as its limit allows.
pub(crate) const DOMAIN_LIMIT: u32 = 33;

/// The server isn't up.
pub(crate) const NOT_UP: u32 = 40;

/// No restart of the server is asked for.
pub(crate) const NOT_ASKED: u32 = 41;

/// Too many servers would be leaving.
pub(crate) const GLOBAL_CAP: u32 = 42;

/// A shard may not be down.
pub(crate) const SHARD_CAP: u32 = 43;

/// Too many shards of a group would be down.
pub(crate) const GROUP_CAP: u32 = 44;

/// Too many servers of a domain would be down.
pub(crate) const DOMAIN_CAP: u32 = 45;

/// The server's restart isn't approved.
pub(crate) const NOT_APPROVED: u32 = 46;

/// A shard that names the server isn't paused.
pub(crate) const STILL_SERVING: u32 = 47;

/// The server is up already.
pub(crate) const ALREADY_UP: u32 = 48;

/// The server has failed already.
pub(crate) const ALREADY_FAILED: u32 = 49;

/// A layout has at least one bound.
pub(crate) const NO_BOUND: u32 = 50;

/// The first bound is not empty.
pub(crate) const FIRST_NOT_EMPTY: u32 = 51;

/// A bound is not above the one before it.
pub(crate) const NOT_RISING: u32 = 52;

/// A bound has more than 255 bytes.
pub(crate) const BOUND_TOO_LONG: u32 = 53;

/// What would be written is longer than the room for it.
pub(crate) const TOO_SHORT: u32 = 55;

/// The plan has no such line, or the reply no such pair.
pub(crate) const NO_MORE: u32 = 56;

/// A key has at least one byte.
pub(crate) const KEY_EMPTY: u32 = 57;

/// A key has at most 255 bytes.
pub(crate) const KEY_TOO_LONG: u32 = 58;

/// The envelope must go on to the server `to`.
pub(crate) const FORWARD: u32 = 60;

/// The request's key is of another shard.
pub(crate) const WRONG_SHARD: u32 = 61;

/// The request was forwarded too often.
pub(crate) const TOO_MANY_HOPS: u32 = 62;

/// The shard keeps as many requests as it may: make a checkpoint.
pub(crate) const KEPT_FULL: u32 = 63;

/// The shard's published route is as new.
pub(crate) const OLD_ROUTE: u32 = 64;
// End of them.

/// Returns the code of the fault that forbids a step of a word.
pub(crate) fn code_of_word(fault: WordFault) -> u32
    ensures code { result ≡ word_fault_code fault }
    ensures refused { result ≢ 0 }
{
    match fault {
        WordFault::BadWord => BAD_WORD,
        WordFault::BadCeiling => BAD_CEILING,
        WordFault::Change(fault) => code_of_change(fault),
        WordFault::Admit(fault) => code_of_admit(fault),
    }
}

/// Returns the code of why there is no board.
pub(crate) fn code_of_open(fault: OpenFault) -> u32
    ensures code { result ≡ open_fault_code fault }
    ensures refused { result ≢ 0 }
    ensures low { result < 70 }
{
    match fault {
        OpenFault::Board(fault) => match fault {
            MakeFault::NoShard => NO_SHARD,
            MakeFault::TooMany => TOO_MANY,
            MakeFault::BadCeiling => BAD_CEILING,
            MakeFault::NoMemory => NO_MEMORY,
        },
        OpenFault::Books(BooksFault::NoMemory) => NO_MEMORY,
        OpenFault::Books(_) => BAD_BOOKS,
        OpenFault::Bodies => BAD_COUNT,
        OpenFault::Servers | OpenFault::Restarts => BAD_ARGUMENT,
        OpenFault::NoMemory => NO_MEMORY,
    }
}

/// Returns the code of why parts of a text are no layout.
pub(crate) fn code_of_cut(fault: CutFault) -> u32
    ensures code { result ≡ cut_fault_code fault }
    ensures refused { result ≢ 0 }
{
    match fault {
        CutFault::Outside => BAD_ARGUMENT,
        CutFault::Layout(fault) => match fault {
            LayoutFault::Empty => NO_BOUND,
            LayoutFault::FirstNotEmpty => FIRST_NOT_EMPTY,
            LayoutFault::NotRising { .. } => NOT_RISING,
            LayoutFault::KeyTooLong { .. } => BOUND_TOO_LONG,
            LayoutFault::TooMany => TOO_MANY,
            LayoutFault::NoMemory => NO_MEMORY,
        },
    }
}

/// Returns the code of why parts are no request.
pub(crate) fn code_of_request(fault: RequestFault) -> u32
    ensures code { result ≡ request_fault_code fault }
    ensures refused { result ≢ 0 }
{
    match fault {
        RequestFault::Argument => BAD_ARGUMENT,
        RequestFault::Key(fault) => match fault {
            KeyFault::Empty => KEY_EMPTY,
            KeyFault::TooLong => KEY_TOO_LONG,
            KeyFault::NoMemory => NO_MEMORY,
        },
    }
}

/// Returns the code of why a call on a handle did nothing.
pub(crate) fn code_of_act(fault: ActFault) -> u32
    ensures code { result ≡ act_fault_code fault }
    ensures refused { result ≢ 0 }
    ensures stays { result ≢ FORWARD }
{
    match fault {
        ActFault::WrongHandle => WRONG_HANDLE,
        ActFault::UnknownShard => UNKNOWN_SHARD,
        ActFault::UnknownServer => UNKNOWN_SERVER,
        ActFault::NoMemory => NO_MEMORY,
        ActFault::TooShort => TOO_SHORT,
        ActFault::NotSent => BAD_ARGUMENT,
        ActFault::NoMore => NO_MORE,
        ActFault::Admit(refusal) => code_of_told(&refusal),
        ActFault::Checkpoint(fault) => match fault {
            CheckpointFault::Admit(refusal) => code_of_admission(refusal),
            CheckpointFault::NoMemory => NO_MEMORY,
        },
        ActFault::Command(fault) => code_of_command(fault),
    }
}

/// Returns the code of why a server refused an envelope.
pub(crate) fn code_of_refusal(refusal: Refusal) -> u32
    ensures code { result ≡ refusal_code refusal }
    ensures refused { result ≢ 0 }
    ensures stays { result ≢ FORWARD }
{
    match refusal {
        Refusal::WrongShard => WRONG_SHARD,
        Refusal::TooManyHops => TOO_MANY_HOPS,
        Refusal::KeptFull => KEPT_FULL,
        Refusal::NoMemory => NO_MEMORY,
        Refusal::Admit(refusal) => code_of_admission(refusal),
    }
}

/// Returns the code of the reason for which a pass wasn't admitted or its admission not ended. It leaves out the
/// reasons of other calls, because these would slow down calls that count each instruction.
#[inline(always)]
pub(crate) fn code_of_pass(fault: &ActFault) -> u32
    ensures code { result ≡ pass_code fault.now }
    ensures refused { result ≢ 0 }
{
    match fault {
        ActFault::Admit(refusal) => code_of_told(refusal),
        ActFault::UnknownShard => UNKNOWN_SHARD,
        _ => WRONG_HANDLE,
    }
}

#[inline(always)]
fn code_of_told(refusal: &ToldRefusal) -> u32
    ensures code { result ≡ told_code refusal.now }
    ensures refused { result ≢ 0 }
    ensures stays { result ≢ FORWARD }
{
    match refusal.fault() {
        Some(fault) => code_of_admit(fault),
        None => RACED,
    }
}

fn code_of_admission(refusal: AdmitRefusal) -> u32
    ensures code { result ≡ told_code refusal }
    ensures refused { result ≢ 0 }
    ensures stays { result ≢ FORWARD }
{
    match refusal {
        AdmitRefusal::Refused(fault, _) => code_of_admit(fault),
        AdmitRefusal::Raced { .. } => RACED,
    }
}

fn code_of_change(fault: ChangeFault) -> u32
    ensures code { result ≡ change_fault_code fault }
    ensures refused { result ≢ 0 }
    ensures stays { result ≢ FORWARD }
{
    match fault {
        ChangeFault::UnknownShard => UNKNOWN_SHARD,
        ChangeFault::WrongPhase => WRONG_PHASE,
        ChangeFault::SameServer => SAME_SERVER,
        ChangeFault::Spent(_) => CHANGE_SPENT,
        ChangeFault::Busy(_) => BUSY,
    }
}

fn code_of_admit(fault: AdmitFault) -> u32
    ensures code { result ≡ admit_fault_code fault }
    ensures refused { result ≢ 0 }
    ensures stays { result ≢ FORWARD }
{
    match fault {
        AdmitFault::Vacant => NOBODY_OWNS,
        AdmitFault::Paused => IS_PAUSED,
        AdmitFault::NotExecutor => NOT_EXECUTOR,
        AdmitFault::NotYet => NOT_YET,
        AdmitFault::Admitted => ADMITTED,
        AdmitFault::Spent => SPENT,
    }
}

fn code_of_command(fault: CommandFault) -> u32
    ensures code { result ≡ command_fault_code fault }
    ensures refused { result ≢ 0 }
    ensures stays { result ≢ FORWARD }
{
    match fault {
        CommandFault::UnknownServer => UNKNOWN_SERVER,
        CommandFault::Change(fault) => code_of_change(fault),
        CommandFault::Place(fault) => match fault {
            PlaceFault::Leaving => LEAVING,
            PlaceFault::NoCapacity => NO_CAPACITY,
            PlaceFault::DomainLimit => DOMAIN_LIMIT,
        },
        CommandFault::Restart(fault) => code_of_restart(fault),
        CommandFault::Raced { .. } => RACED,
    }
}

fn code_of_restart(fault: RestartFault) -> u32
    ensures code { result ≡ restart_fault_code fault }
    ensures refused { result ≢ 0 }
    ensures stays { result ≢ FORWARD }
{
    match fault {
        RestartFault::NotUp => NOT_UP,
        RestartFault::NotAsked => NOT_ASKED,
        RestartFault::GlobalCap => GLOBAL_CAP,
        RestartFault::ShardCap(_) => SHARD_CAP,
        RestartFault::GroupCap(_) => GROUP_CAP,
        RestartFault::DomainCap(_) => DOMAIN_CAP,
        RestartFault::NotApproved => NOT_APPROVED,
        RestartFault::StillServing(_) => STILL_SERVING,
        RestartFault::AlreadyUp => ALREADY_UP,
        RestartFault::AlreadyFailed => ALREADY_FAILED,
    }
}
