ghost use Rattle.std.specs.Prelude.{◌≡◌, IfOk, None, Some};
ghost use Rattle.std.specs.Result.{result_err};
ghost use Rattle.sm_ownership.specs.Rules.{stand_after};
ghost use Rattle.sm_place.specs.Books.{shard_at};
ghost use Rattle.sm_place.specs.Sound.{AreSound};
ghost use Rattle.sm_tasks.specs.Caps.{MeetsCaps};
ghost use Rattle.sm_desk.specs.declared.command.Command.TheVariants.{Change as ChangeOf};
ghost use Rattle.sm_desk.specs.Desk.{commanded, desk_fault, is_known, is_reached};

use crate::changes::{allows_change, check_change, commit_change, make_change};
use crate::command::{Command, CommandFault};
use crate::laws::commands_keep_caps;
use crate::restarts::{check_approve, check_ask, check_back, check_fail, check_stopped};
use sm_ownership::change::Change;
use sm_place::{Books, ServerState};
use sm_ranges::server_id::ServerId;
use sm_ranges::shard_id::ShardId;
use sm_ranges::stand::Stand;
use sm_tasks::Tasks;
use std::marker::Model;

/// The desk checks the control's commands. It has the books, and the steps of restarts with their caps. At all times
/// the books have room, and the caps of approved restarts are kept.
#[derive(Drop)]
pub struct Desk {
    books: Books,
    tasks: Tasks,
}

impl Model for Desk {
    ghost use Rattle.sm_tasks.specs.Caps.{MeetsCaps};
    ghost use Rattle.sm_desk.specs.Desk.{DeskView};

    ghost Value = { DeskView };

    ghost view = { λ desk. record { books = desk.books; caps = desk.tasks } };

    ghost invariant = { λ desk. MeetsCaps desk.tasks desk.books };
}

impl Desk {
    /// Makes a desk over these books, which must keep the caps.
    pub fn new(books: Books, tasks: Tasks) -> Desk
        requires { MeetsCaps tasks books }
        ensures books { result.books ≡ books }
        ensures caps { result.caps ≡ tasks }
    {
        Desk { books, tasks }
    }

    /// Returns the books.
    pub fn books(&self) -> &Books
        ensures { result.now ≡ self.now.books }
    {
        &self.books
    }

    /// Tells proofs that the books are sound and the caps are kept. It does nothing.
    pub fn soundness(&self)
        ensures books { AreSound self.now.books }
        ensures caps { MeetsCaps self.now.caps self.now.books }
    {
        self.books.soundness();
    }

    /// Returns whether the server exists.
    pub fn knows(&self, server: ServerId) -> bool
        ensures { result ≡ is_known self.now.books.servers server }
    {
        self.books.knows(server)
    }

    /// Returns whether requests reach the server. They don't if it is Stopped or Failed.
    pub fn reaches(&self, server: ServerId) -> bool
        ensures { result ≡ is_reached self.now server }
    {
        self.books.soundness();
        if !self.books.knows(server) {
            return true;
        }
        !self.books.state(server).is_unreached()
    }

    /// Returns the stand to which the change leads, if the desk allows it, or the first fault that applies. The desk
    /// never answers `Spent` or `Busy`, because only the ownership table knows about them.
    pub fn check_change(&self, k: ShardId, change: &Change) -> Result<Stand, CommandFault>
        ensures fault { result_err result ≡ desk_fault self.now (ChangeOf k change.now) }
        ensures stand { IfOk result (λ stand.
            stand_after (shard_at self.now.books.shards k).stand change.now ≡ Some stand) }
    {
        check_change(&self.books, k, change)
    }

    /// Makes the change. The desk must allow it, and it must lead to this stand.
    pub fn commit_change(&mut self, k: ShardId, change: &Change, stand: &Stand)
        requires allowed { desk_fault self.old (ChangeOf k change.now) ≡ None }
        requires stand { stand_after (shard_at self.old.books.shards k).stand change.now ≡ Some stand.now }
        ensures { self.new ≡ commanded self.old (ChangeOf k change.now) }
    {
        commands_keep_caps();
        self.books.soundness();
        commit_change(&mut self.books, k, change, stand);
    }

    /// Returns whether books and caps allow the command, or the first fault that applies. The desk never answers
    /// `Spent` or `Busy`, because only the ownership table knows about them.
    pub fn check(&self, command: &Command) -> Result<(), CommandFault>
        ensures { result_err result ≡ desk_fault self.now command.now }
    {
        match command {
            Command::Change(k, change) => allows_change(&self.books, *k, change),
            Command::Ask(a) => check_ask(&self.tasks, &self.books, *a),
            Command::Approve(a) => check_approve(&self.tasks, &self.books, *a),
            Command::Stopped(a) => check_stopped(&self.tasks, &self.books, *a),
            Command::Back(a) => check_back(&self.tasks, &self.books, *a),
            Command::Fail(a) => check_fail(&self.tasks, &self.books, *a),
        }
    }

    /// Makes the change or the step of a restart. The desk must not refuse the command.
    pub fn commit(&mut self, command: Command)
        requires { desk_fault self.old command ≡ None }
        ensures { self.new ≡ commanded self.old command }
    {
        commands_keep_caps();
        self.books.soundness();
        match command {
            Command::Change(k, change) => make_change(&mut self.books, k, &change),
            Command::Ask(a) => self.books.set_state(a, ServerState::Asked),
            Command::Approve(a) => self.books.set_state(a, ServerState::Approved),
            Command::Stopped(a) => self.books.set_state(a, ServerState::Stopped),
            Command::Back(a) => self.books.set_state(a, ServerState::Up),
            Command::Fail(a) => self.books.set_state(a, ServerState::Failed),
        }
    }
}
