ghost use Rattle.std.specs.Prelude.{◌≡◌};
ghost use Rattle.std.specs.Result.{result_err};
ghost use Rattle.sm_tasks.specs.Approvals.{approvable, askable, failable, returnable, stoppable};
ghost use Rattle.sm_desk.specs.Desk.{restart_fault};

use crate::command::CommandFault;
use sm_place::Books;
use sm_ranges::server_id::ServerId;
use sm_tasks::Tasks;

/// Returns whether a restart of the server may be asked for, or the first fault that applies.
pub(crate) fn check_ask(tasks: &Tasks, books: &Books, a: ServerId) -> Result<(), CommandFault>
    ensures { result_err result ≡ restart_fault books.now a (askable books.now a) }
{
    if !books.knows(a) {
        return Err(CommandFault::UnknownServer);
    }
    Ok(tasks.check_ask(books, a)?)
}

/// Returns whether the restart of the server is approved, or the first fault that applies.
pub(crate) fn check_approve(tasks: &Tasks, books: &Books, a: ServerId) -> Result<(), CommandFault>
    ensures { result_err result ≡ restart_fault books.now a (approvable tasks.now books.now a) }
{
    if !books.knows(a) {
        return Err(CommandFault::UnknownServer);
    }
    Ok(tasks.check_approve(books, a)?)
}

/// Returns whether the server may be stopped, or the first fault that applies.
pub(crate) fn check_stopped(tasks: &Tasks, books: &Books, a: ServerId) -> Result<(), CommandFault>
    ensures { result_err result ≡ restart_fault books.now a (stoppable books.now a) }
{
    if !books.knows(a) {
        return Err(CommandFault::UnknownServer);
    }
    Ok(tasks.check_stopped(books, a)?)
}

/// Returns whether the server may come back, or the first fault that applies.
pub(crate) fn check_back(tasks: &Tasks, books: &Books, a: ServerId) -> Result<(), CommandFault>
    ensures { result_err result ≡ restart_fault books.now a (returnable books.now a) }
{
    if !books.knows(a) {
        return Err(CommandFault::UnknownServer);
    }
    Ok(tasks.check_back(books, a)?)
}

/// Returns whether the server may be noted as failed, or the first fault that applies.
pub(crate) fn check_fail(tasks: &Tasks, books: &Books, a: ServerId) -> Result<(), CommandFault>
    ensures { result_err result ≡ restart_fault books.now a (failable books.now a) }
{
    if !books.knows(a) {
        return Err(CommandFault::UnknownServer);
    }
    Ok(tasks.check_fail(books, a)?)
}
