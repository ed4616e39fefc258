ghost use Rattle.std.specs.Prelude.{◌≡◌, ℕ, All, List, [], Some, false, length};
ghost use Rattle.sm_ranges.specs.declared.stand.Stand.TheVariants.{Vacant};
ghost use Rattle.sm_ownership.specs.declared.entry.Entry.{Entry};
ghost use Rattle.sm_ownership.specs.History.{IsLegal, open_admissions};
ghost use Rattle.sm_ownership.specs.Rules.{executor};
ghost use Rattle.sm_place.specs.Books.{state_of};
ghost use Rattle.sm_place.specs.Sound.{AreSound};
ghost use Rattle.sm_tasks.specs.Caps.{MeetsCaps};
ghost use Rattle.sm_place.specs.ServerState.{is_stopped};
ghost use Rattle.sm_rule.specs.Views.{record_in};
ghost use Rattle.sm_desk.specs.Desk.{desk_fault};
ghost use Rattle.sm_control.specs.Controls.{AdmitsUnstopped, AreStandsIn, AreStandsSeen, Commanded, PassesLeadTo};

mod changing;
mod planning;
mod restarting;
mod telling;

use sm_body::service::Service;
use sm_desk::{Command, CommandFault, Desk};
use sm_ownership::laws::executor_admitted;
use sm_rule::{Board, Chair};
use std::marker::Model;

/// The chair of a board, and the desk that checks its changes. The desk's stands are always those of the whole history
/// that the chair has seen.
#[derive(Drop)]
pub struct Control<S: Service> {
    chair: Chair<S>,
    desk: Desk,
}

impl<S: Service> Model for Control<S> {
    ghost use Rattle.sm_control.specs.Controls.{AreStandsSeen, ControlValue};

    ghost Value = { ControlValue S.Request };

    ghost view = { λ control. record { chair = control.chair; desk = control.desk } };

    ghost invariant = { λ control. AreStandsSeen control.desk.books control.chair };
}

impl<S: Service> Control<S> {
    /// Returns the control of a new board: its chair has seen nothing yet, and the desk's books have a vacant row for
    /// each shard.
    pub fn new(chair: Chair<S>, desk: Desk) -> Control<S>
        requires seen { chair.seen ≡ [] }
        requires count { length desk.books.shards ≡ chair.board.limits.count }
        requires vacant { All (λ shard. shard.stand ≡ Vacant) desk.books.shards }
        ensures { result ≡ record { chair = chair; desk = desk } }
    {
        Control { chair, desk }
    }

    /// Returns the desk.
    pub fn desk(&self) -> &Desk
        ensures { result.now ≡ self.now.desk }
    {
        &self.desk
    }

    /// Returns the chair and the desk, for instance because the board must be closed.
    pub fn into_parts(self) -> (Chair<S>, Desk)
        ensures chair { result.0 ≡ self.chair }
        ensures desk { result.1 ≡ self.desk }
    {
        let Control { chair, desk } = self;
        (chair, desk)
    }

    /// Tells proofs that the history which the chair has seen is legal, and that the desk's stands are the shards'
    /// after it; that the books are sound, so that there is room; and that the caps of approved restarts are kept. It
    /// does nothing.
    pub fn soundness(&self)
        ensures legal { let limits = self.now.chair.board.limits in
            IsLegal limits.count limits.ceiling self.now.chair.seen }
        ensures stands { AreStandsSeen self.now.desk.books self.now.chair }
        ensures books { AreSound self.now.desk.books }
        ensures caps { MeetsCaps self.now.desk.caps self.now.desk.books }
    {
        self.chair.soundness();
        self.desk.soundness();
    }

    /// Tells proofs that passes change nothing of that. If only passes have added to the history that the chair has
    /// seen, the desk's stands are still the shards', and no stopped server executes a shard or is admitted to one. It
    /// does nothing.
    pub fn stays_sound(&self)
        ensures stands { (history : List (Entry S.Request)) → PassesLeadTo self.now.chair history
            → AreStandsIn self.now.desk.books self.now.chair.board.limits history }
        ensures executors { (history : List (Entry S.Request)) (shard server : ℕ) → PassesLeadTo self.now.chair history
            → executor (record_in self.now.chair.board.limits history shard) ≡ Some server
            → is_stopped (state_of self.now.desk.books server) ≡ false }
        ensures admissions { (history : List (Entry S.Request)) (shard : ℕ) → PassesLeadTo self.now.chair history
            → All (AdmitsUnstopped self.now.desk.books) (open_admissions history shard) }
    {
        executor_admitted::<S::Request>();
        self.soundness();
    }

    /// Gives the command to the desk, and a change to the board: the command is made, or refused by the first fault
    /// that applies.
    pub fn command(&mut self, board: &Board<S>, command: Command) -> Result<(), CommandFault>
        requires { self.old.chair.board ≡ board.now }
        ensures answer { Commanded (desk_fault self.old.desk command) self.old self.new command result }
        ensures board { self.new.chair.board ≡ self.old.chair.board }
    {
        match command {
            Command::Change(k, change) => self.change(board, k, change),
            Command::Ask(a) => self.ask(a),
            Command::Approve(a) => self.approve(a),
            Command::Stopped(a) => self.stopped(a),
            Command::Back(a) => self.back(a),
            Command::Fail(a) => self.fail(a),
        }
    }
}
