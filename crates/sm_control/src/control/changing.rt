//! Changes of a shard's stand.
ghost use Rattle.std.specs.Prelude.{◌≡◌};
ghost use Rattle.sm_ownership.specs.declared.change.Change.TheVariants.{Assign, PrepareAddShard, PrepareDropShard};
ghost use Rattle.sm_ownership.specs.declared.change.Change.TheVariants.{AddShard, DropShard, Cancel, Pause, Resume};
ghost use Rattle.sm_ownership.specs.declared.change.Change.TheVariants.{Reassign};
ghost use Rattle.sm_desk.specs.declared.command.Command.TheVariants.{Change as ChangeOf};
ghost use Rattle.sm_desk.specs.Desk.{desk_fault};
ghost use Rattle.sm_control.specs.Controls.{Commanded, fault_of};

use super::Control;
use sm_body::service::Service;
use sm_desk::CommandFault;
use sm_ownership::change::Change;
use sm_ownership::change_fault::ChangeFault;
use sm_ranges::server_id::ServerId;
use sm_ranges::shard_id::ShardId;
use sm_rule::{Board, ChangeRefusal};

impl<S: Service> Control<S> {
    /// Gives a vacant shard this owner, or answers the first fault that applies.
    pub fn assign(&mut self, board: &Board<S>, k: ShardId, a: ServerId) -> Result<(), CommandFault>
        requires { self.old.chair.board ≡ board.now }
        ensures answer { let command = ChangeOf k (Assign a) in
            Commanded (desk_fault self.old.desk command) self.old self.new command result }
        ensures board { self.new.chair.board ≡ self.old.chair.board }
    {
        self.change(board, k, Change::Assign(a))
    }

    /// Begins a migration of the shard to this server, or answers the first fault that applies.
    pub fn prepare_add_shard(
        &mut self,
        board: &Board<S>,
        k: ShardId,
        next: ServerId,
    ) -> Result<(), CommandFault>
        requires { self.old.chair.board ≡ board.now }
        ensures answer { let command = ChangeOf k (PrepareAddShard next) in
            Commanded (desk_fault self.old.desk command) self.old self.new command result }
        ensures board { self.new.chair.board ≡ self.old.chair.board }
    {
        self.change(board, k, Change::PrepareAddShard(next))
    }

    /// Makes the shard's owner stop executing and forward to the next owner. If a fault applies, returns the first one.
    pub fn prepare_drop_shard(&mut self, board: &Board<S>, k: ShardId) -> Result<(), CommandFault>
        requires { self.old.chair.board ≡ board.now }
        ensures answer { let command = ChangeOf k PrepareDropShard in
            Commanded (desk_fault self.old.desk command) self.old self.new command result }
        ensures board { self.new.chair.board ≡ self.old.chair.board }
    {
        self.change(board, k, Change::PrepareDropShard)
    }

    /// Makes the next owner the owner, to which the previous one forwards. If a fault applies, returns the first one.
    pub fn add_shard(&mut self, board: &Board<S>, k: ShardId) -> Result<(), CommandFault>
        requires { self.old.chair.board ≡ board.now }
        ensures answer { let command = ChangeOf k AddShard in
            Commanded (desk_fault self.old.desk command) self.old self.new command result }
        ensures board { self.new.chair.board ≡ self.old.chair.board }
    {
        self.change(board, k, Change::AddShard)
    }

    /// Ends the migration, as the previous owner drops the shard, or answers the first fault that applies.
    pub fn drop_shard(&mut self, board: &Board<S>, k: ShardId) -> Result<(), CommandFault>
        requires { self.old.chair.board ≡ board.now }
        ensures answer { let command = ChangeOf k DropShard in
            Commanded (desk_fault self.old.desk command) self.old self.new command result }
        ensures board { self.new.chair.board ≡ self.old.chair.board }
    {
        self.change(board, k, Change::DropShard)
    }

    /// Gives the migration up before `add_shard`, or answers the first fault that applies.
    pub fn cancel(&mut self, board: &Board<S>, k: ShardId) -> Result<(), CommandFault>
        requires { self.old.chair.board ≡ board.now }
        ensures answer { let command = ChangeOf k Cancel in
            Commanded (desk_fault self.old.desk command) self.old self.new command result }
        ensures board { self.new.chair.board ≡ self.old.chair.board }
    {
        self.change(board, k, Change::Cancel)
    }

    /// Pauses the shard, so that no server executes its requests. If a fault applies, returns the first one.
    pub fn pause(&mut self, board: &Board<S>, k: ShardId) -> Result<(), CommandFault>
        requires { self.old.chair.board ≡ board.now }
        ensures answer { let command = ChangeOf k Pause in
            Commanded (desk_fault self.old.desk command) self.old self.new command result }
        ensures board { self.new.chair.board ≡ self.old.chair.board }
    {
        self.change(board, k, Change::Pause)
    }

    /// Makes the owner of a paused shard execute again. If a fault applies, returns the first one.
    pub fn resume(&mut self, board: &Board<S>, k: ShardId) -> Result<(), CommandFault>
        requires { self.old.chair.board ≡ board.now }
        ensures answer { let command = ChangeOf k Resume in
            Commanded (desk_fault self.old.desk command) self.old self.new command result }
        ensures board { self.new.chair.board ≡ self.old.chair.board }
    {
        self.change(board, k, Change::Resume)
    }

    /// Gives a paused shard this owner, or answers the first fault that applies.
    pub fn reassign(
        &mut self,
        board: &Board<S>,
        k: ShardId,
        next: ServerId,
    ) -> Result<(), CommandFault>
        requires { self.old.chair.board ≡ board.now }
        ensures answer { let command = ChangeOf k (Reassign next) in
            Commanded (desk_fault self.old.desk command) self.old self.new command result }
        ensures board { self.new.chair.board ≡ self.old.chair.board }
    {
        self.change(board, k, Change::Reassign(next))
    }

    // Has the desk judge the change. Then makes it on the board, and after that at the desk.
    pub(super) fn change(
        &mut self,
        board: &Board<S>,
        k: ShardId,
        change: Change,
    ) -> Result<(), CommandFault>
        requires { self.old.chair.board ≡ board.now }
        ensures answer { let command = ChangeOf k change in
            Commanded (desk_fault self.old.desk command) self.old self.new command result }
        ensures board { self.new.chair.board ≡ self.old.chair.board }
    {
        let stand = self.desk.check_change(k, &change)?;
        if let Err(refusal) = board.change_to(&mut self.chair, k, &change, &stand) {
            return Err(fault_of(refusal));
        }
        self.desk.commit_change(k, &change, &stand);
        Ok(())
    }
}

// The fault of a command whose change the board refuses.
fn fault_of(refusal: ChangeRefusal) -> CommandFault
    ensures { result ≡ fault_of refusal }
{
    match refusal {
        ChangeRefusal::Spent(state) => ChangeFault::Spent(state).into(),
        ChangeRefusal::Busy(state) => ChangeFault::Busy(state).into(),
        ChangeRefusal::Raced { read, found } => CommandFault::Raced { read, found },
    }
}
