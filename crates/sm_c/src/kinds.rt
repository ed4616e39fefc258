//! The meanings of C's numbers.
ghost use Rattle.std.specs.Prelude.{◌≡◌, ◌<◌, IfNone, IfSome};
ghost use Rattle.sm_c.specs.Words.{CameFrom, IsNoChange, IsNoServer, IsOfKind};
ghost use Rattle.sm_c.specs.Calls.{IsNoStep, IsStep};

use sm_desk::Command;
use sm_ownership::change::Change;
use sm_ownership::mode::Mode;
use sm_ranges::limits::MAX_SERVER;
use sm_ranges::server_id::ServerId;

/// Returns the change of this kind, for this server if it names one.
pub(crate) fn change_of(kind: u8, server: u16) -> Option<Change>
    ensures change { IfSome result (IsOfKind kind server) }
    ensures none { IfNone result (IsNoChange kind server) }
{
    match kind {
        1 => Some(Change::Assign(known_server(server)?)),
        2 => Some(Change::PrepareAddShard(known_server(server)?)),
        3 => Some(Change::PrepareDropShard),
        4 => Some(Change::AddShard),
        5 => Some(Change::DropShard),
        6 => Some(Change::Cancel),
        7 => Some(Change::Pause),
        8 => Some(Change::Resume),
        9 => Some(Change::Reassign(known_server(server)?)),
        _ => None,
    }
}

/// Returns the server with this number, or nothing if it isn't a server's.
pub(crate) fn known_server(number: u16) -> Option<ServerId>
    ensures server { IfSome result (λ server. server ≡ number) }
    ensures none { IfNone result (IsNoServer number) }
{
    if number == 0 || number > MAX_SERVER {
        return None;
    }
    Some(ServerId::of(number))
}

/// Returns how a request came: directly for 0, otherwise from this server; or nothing if the number isn't a server's.
pub(crate) fn mode_of(from: u16) -> Option<Mode>
    ensures mode { IfSome result (CameFrom from) }
    ensures none { IfNone result (MAX_SERVER < from) }
{
    if from == 0 {
        return Some(Mode::Direct);
    }
    Some(Mode::Forwarded(known_server(from)?))
}

/// Returns the step of this kind of a server's restart.
pub(crate) fn step_of(kind: u8, server: u16) -> Option<Command>
    ensures step { IfSome result (IsStep kind server) }
    ensures none { IfNone result (IsNoStep kind server) }
{
    let server = known_server(server)?;
    match kind {
        1 => Some(Command::Ask(server)),
        2 => Some(Command::Approve(server)),
        3 => Some(Command::Stopped(server)),
        4 => Some(Command::Back(server)),
        5 => Some(Command::Fail(server)),
        _ => None,
    }
}
