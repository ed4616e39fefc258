//! The codes by which calls answer C.
ghost use Rattle.std.specs.Prelude.{◌≡◌, ◌≢◌, ◌<◌, ◌≤◌};
ghost use Rattle.sm_director.specs.Calls.{IsRefusal};
ghost use Rattle.sm_director.specs.Kinds.{change_code, command_code, fault_code, line_code, restart_code};
ghost use Rattle.sm_director.specs.Resettlings.{IsOfSettings};

use crate::director_fault::DirectorFault;
use sm_desk::CommandFault;
use sm_lead::{LoadFault, ResettleFault};
use sm_ownership::change_fault::ChangeFault;
use sm_place::PlaceFault;
use sm_settings::SettingsFault;
use sm_tasks::RestartFault;

// By tools/library-codes, the codes of library/codes.txt:
/// The handle keeps no control of a store.
pub(crate) const WRONG_HANDLE: u32 = 1;

/// A kind, a shard or a server is out of range, or the revision of the election is 0.
pub(crate) const BAD_ARGUMENT: u32 = 2;

/// Out of memory.
pub(crate) const NO_MEMORY: u32 = 3;

/// There is no such shard.
pub(crate) const UNKNOWN_SHARD: u32 = 10;

/// The change doesn't begin from the shard's stand.
pub(crate) const WRONG_PHASE: u32 = 11;

/// The server owns the shard.
pub(crate) const SAME_SERVER: u32 = 12;

/// The shard's generations are spent.
pub(crate) const CHANGE_SPENT: u32 = 13;

/// The record has an admission, or has changed: it must be read again.
pub(crate) const BUSY: u32 = 14;

/// There is no such server.
pub(crate) const UNKNOWN_SERVER: u32 = 30;

/// The server is leaving.
pub(crate) const LEAVING: u32 = 31;

/// The server has no room.
pub(crate) const NO_CAPACITY: u32 = 32;

/// The server's domain has as many shards of the group as its limit allows.
pub(crate) const DOMAIN_LIMIT: u32 = 33;

/// The server isn't up.
pub(crate) const NOT_UP: u32 = 40;

/// No restart of the server is asked for.
pub(crate) const NOT_ASKED: u32 = 41;

/// Too many servers would be leaving.
pub(crate) const GLOBAL_CAP: u32 = 42;

/// A shard may not be down.
pub(crate) const SHARD_CAP: u32 = 43;

/// Too many shards of a group would be down.
pub(crate) const GROUP_CAP: u32 = 44;

/// Too many servers of a domain would be down.
pub(crate) const DOMAIN_CAP: u32 = 45;

/// The server's restart isn't approved.
pub(crate) const NOT_APPROVED: u32 = 46;

/// A shard that names the server isn't paused.
pub(crate) const STILL_SERVING: u32 = 47;

/// The server is up already.
pub(crate) const ALREADY_UP: u32 = 48;

/// The server has failed already.
pub(crate) const ALREADY_FAILED: u32 = 49;

/// What would be written is longer than the room for it.
pub(crate) const TOO_SHORT: u32 = 55;

/// There is no such server.
pub(crate) const NO_MORE: u32 = 56;

/// Nothing was read yet, or all is to be read again.
pub(crate) const UNREAD: u32 = 90;

/// A command was sent, and its outcome isn't known yet.
pub(crate) const UNDER_WAY: u32 = 91;

/// No command was sent.
pub(crate) const NOT_SENT: u32 = 92;

/// What lies at a key is wrong.
pub(crate) const BAD_BYTES: u32 = 93;

/// No commands lead to the records and states that were read.
pub(crate) const UNREACHED: u32 = 94;

/// The records or states, or their number, differ from those that commands lead to.
pub(crate) const DIFFERENT: u32 = 95;

/// A follower hasn't read that the shard is taken.
pub(crate) const NOT_FOLLOWED: u32 = 96;

/// A server that the command waits for hasn't acked the shard's record.
pub(crate) const NOT_ACKED: u32 = 97;

/// The server's process is the one that was stopped, or isn't known.
pub(crate) const EARLIER_PROCESS: u32 = 98;

/// The two directors didn't read the same records and states.
pub(crate) const READ_APART: u32 = 99;

/// The new settings have other shards.
pub(crate) const OTHER_SHARDS: u32 = 100;

/// The new settings have another ceiling.
pub(crate) const OTHER_CEILING: u32 = 101;

/// A server without a row in the new settings has neither stopped nor failed.
pub(crate) const IN_USE: u32 = 102;
// End of them.

/// Returns the code of why a call on a director did nothing.
pub(crate) fn code_of(fault: DirectorFault) -> u32
    ensures code { result ≡ fault_code fault }
    ensures some { result ≢ 0 }
    ensures refused { 10 ≤ result → result < 50 → IsRefusal fault result }
    ensures settings { 99 ≤ result → IsOfSettings fault result }
{
    match fault {
        DirectorFault::Memory => NO_MEMORY,
        DirectorFault::Bytes => BAD_BYTES,
        DirectorFault::Load(fault) => match fault {
            LoadFault::Unreached(_) => UNREACHED,
            LoadFault::Different => DIFFERENT,
        },
        DirectorFault::Command(fault) => code_of_command(fault),
        DirectorFault::Unread => UNREAD,
        DirectorFault::UnderWay => UNDER_WAY,
        DirectorFault::NotFollowed => NOT_FOLLOWED,
        DirectorFault::NotAcked => NOT_ACKED,
        DirectorFault::EarlierProcess => EARLIER_PROCESS,
        DirectorFault::NotSent => NOT_SENT,
        DirectorFault::Resettle(fault) => match fault {
            ResettleFault::Apart => READ_APART,
            ResettleFault::OtherShards => OTHER_SHARDS,
            ResettleFault::OtherCeiling => OTHER_CEILING,
            ResettleFault::InUse(_) => IN_USE,
        },
        DirectorFault::TooShort => TOO_SHORT,
    }
}

/// Returns the code of why a command is refused.
pub(crate) fn code_of_command(fault: CommandFault) -> u32
    ensures code { result ≡ command_code fault }
    ensures refused { result ≢ 0 }
{
    match fault {
        CommandFault::UnknownServer => UNKNOWN_SERVER,
        CommandFault::Change(fault) => code_of_change(fault),
        CommandFault::Place(fault) => match fault {
            PlaceFault::Leaving => LEAVING,
            PlaceFault::NoCapacity => NO_CAPACITY,
            PlaceFault::DomainLimit => DOMAIN_LIMIT,
        },
        CommandFault::Restart(fault) => code_of_restart(fault),
        // Boards alone say so.
        CommandFault::Raced { .. } => BUSY,
    }
}

fn code_of_change(fault: ChangeFault) -> u32
    ensures code { result ≡ change_code fault }
    ensures refused { result ≢ 0 }
{
    match fault {
        ChangeFault::UnknownShard => UNKNOWN_SHARD,
        ChangeFault::WrongPhase => WRONG_PHASE,
        ChangeFault::SameServer => SAME_SERVER,
        ChangeFault::Spent(_) => CHANGE_SPENT,
        ChangeFault::Busy(_) => BUSY,
    }
}

fn code_of_restart(fault: RestartFault) -> u32
    ensures code { result ≡ restart_code fault }
    ensures refused { result ≢ 0 }
{
    match fault {
        RestartFault::NotUp => NOT_UP,
        RestartFault::NotAsked => NOT_ASKED,
        RestartFault::GlobalCap => GLOBAL_CAP,
        RestartFault::ShardCap(_) => SHARD_CAP,
        RestartFault::GroupCap(_) => GROUP_CAP,
        RestartFault::DomainCap(_) => DOMAIN_CAP,
        RestartFault::NotApproved => NOT_APPROVED,
        RestartFault::StillServing(_) => STILL_SERVING,
        RestartFault::AlreadyUp => ALREADY_UP,
        RestartFault::AlreadyFailed => ALREADY_FAILED,
    }
}

/// Returns the code of what a line of settings breaks.
pub(crate) fn code_of_line(fault: SettingsFault) -> u32
    ensures code { result ≡ line_code fault }
    ensures refused { result ≢ 0 }
{
    match fault {
        SettingsFault::TooLong => 70,
        SettingsFault::BadJson => 71,
        SettingsFault::BadVersion => 72,
        SettingsFault::BadShape => 73,
        SettingsFault::BadLayout => 74,
        SettingsFault::BadServers => 75,
        SettingsFault::BadGroups => 76,
        SettingsFault::BadShards => 77,
        SettingsFault::BadOps => 78,
        SettingsFault::BadKept => 79,
        SettingsFault::BadCeiling => 80,
        SettingsFault::BadWorkers => 81,
        SettingsFault::BadDomains => 82,
        SettingsFault::TooManyWorkers => 83,
        SettingsFault::NoMemory => NO_MEMORY,
    }
}
