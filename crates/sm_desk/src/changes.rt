ghost use Rattle.std.specs.Prelude.{◌≡◌, ◌<◌, IfOk, IfSome, None, Some, length};
ghost use Rattle.std.specs.Result.{result_err};
ghost use Rattle.sm_place.specs.Books.{IsKnown, shard_at};
ghost use Rattle.sm_ownership.specs.Rules.{stand_after};
ghost use Rattle.sm_desk.specs.Desk.{books_changed, desk_change_fault, resume_fault, resumed, room_fault};

use crate::command::CommandFault;
use sm_ownership::change::Change;
use sm_ownership::change_fault::ChangeFault;
use sm_place::laws::{fewer_names_leave_room, fit_leaves_room};
use sm_place::{Books, PlaceFault};
use sm_ranges::server_id::ServerId;
use sm_ranges::shard_id::ShardId;
use sm_ranges::stand::Stand;

/// Returns the stand to which the change leads, if the books allow it, or the first fault that applies.
pub(crate) fn check_change(
    books: &Books,
    k: ShardId,
    change: &Change,
) -> Result<Stand, CommandFault>
    ensures fault { result_err result ≡ desk_change_fault books.now k change.now }
    ensures stand { IfOk result (λ stand. stand_after (shard_at books.now.shards k).stand change.now ≡ Some stand) }
{
    if k.index() >= books.shards().len() {
        return Err(ChangeFault::UnknownShard.into());
    }
    let named = change.newly_named();
    if let Some(server) = named {
        if !books.knows(server) {
            return Err(CommandFault::UnknownServer);
        }
    }
    books.soundness();
    let stand = books.stand(k);
    let next = change.apply_to(stand)?;
    if let Err(fault) = check_room(books, k, named) {
        return Err(fault);
    }
    match check_resumed(books, resumed(&stand, change)) {
        Ok(()) => Ok(next),
        Err(fault) => Err(fault),
    }
}

/// Returns whether the books allow the change, or the first fault that applies.
pub(crate) fn allows_change(books: &Books, k: ShardId, change: &Change) -> Result<(), CommandFault>
    ensures { result_err result ≡ desk_change_fault books.now k change.now }
{
    match check_change(books, k, change) {
        Ok(_) => Ok(()),
        Err(fault) => Err(fault),
    }
}

// Returns whether there is room for the shard on the server that a change newly names.
fn check_room(books: &Books, k: ShardId, server: Option<ServerId>) -> Result<(), CommandFault>
    requires shard { k < length books.now.shards }
    requires known { IfSome server (IsKnown books.now.servers) }
    ensures { result_err result ≡ room_fault books.now k server }
{
    match server {
        Some(a) => match books.fits(k, a) {
            Ok(()) => Ok(()),
            Err(fault) => Err(CommandFault::Place(fault)),
        },
        None => Ok(()),
    }
}

// Returns whether the owner that will execute again isn't leaving.
fn check_resumed(books: &Books, owner: Option<ServerId>) -> Result<(), CommandFault>
    requires { IfSome owner (IsKnown books.now.servers) }
    ensures { result_err result ≡ resume_fault books.now owner }
{
    match owner {
        Some(a) => if books.state(a).is_leaving() {
            Err(CommandFault::Place(PlaceFault::Leaving))
        } else {
            Ok(())
        },
        None => Ok(()),
    }
}

// Returns the owner that executes again because of the change.
fn resumed(stand: &Stand, change: &Change) -> Option<ServerId>
    ensures { result ≡ resumed stand.now change.now }
{
    match *stand {
        Stand::Paused(owner) => match *change {
            Change::Resume => Some(owner),
            _ => None,
        },
        _ => None,
    }
}

/// Makes a change that isn't refused. It must lead to this stand.
pub(crate) fn commit_change(books: &mut Books, k: ShardId, change: &Change, stand: &Stand)
    requires allowed { desk_change_fault books.old k change.now ≡ None }
    requires stand { stand_after (shard_at books.old.shards k).stand change.now ≡ Some stand.now }
    ensures { books.new ≡ books_changed books.old k change.now }
{
    books.soundness();
    fit_leaves_room();
    fewer_names_leave_room();
    books.set_stand(k, *stand);
}

/// Makes a change that isn't refused.
pub(crate) fn make_change(books: &mut Books, k: ShardId, change: &Change)
    requires { desk_change_fault books.old k change.now ≡ None }
    ensures { books.new ≡ books_changed books.old k change.now }
{
    books.soundness();
    let stand = books.stand(k);
    if let Ok(next) = change.apply_to(stand) {
        commit_change(books, k, change, &next);
    }
}
