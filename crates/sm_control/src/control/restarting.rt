//! Steps of a server's restart, which change no stand.
ghost use Rattle.std.specs.Prelude.{◌≡◌};
ghost use Rattle.sm_desk.specs.declared.command.Command.TheVariants.{Ask, Approve, Stopped, Back, Fail};
ghost use Rattle.sm_desk.specs.Desk.{books_commanded, desk_fault};
ghost use Rattle.sm_control.specs.Controls.{Commanded, IsMadeOrRefused};

use super::Control;
use sm_body::service::Service;
use sm_desk::{Command, CommandFault};
use sm_ranges::server_id::ServerId;

impl<S: Service> Control<S> {
    /// Asks for a restart of the server, or answers the first fault that applies.
    pub fn ask(&mut self, a: ServerId) -> Result<(), CommandFault>
        ensures answer { Commanded (desk_fault self.old.desk (Ask a)) self.old self.new (Ask a) result }
        ensures board { self.new.chair.board ≡ self.old.chair.board }
    {
        self.step(Command::Ask(a))
    }

    /// Approves the restart of the server, or answers the first fault that applies.
    pub fn approve(&mut self, a: ServerId) -> Result<(), CommandFault>
        ensures answer { Commanded (desk_fault self.old.desk (Approve a)) self.old self.new (Approve a) result }
        ensures board { self.new.chair.board ≡ self.old.chair.board }
    {
        self.step(Command::Approve(a))
    }

    /// Notes that the server was stopped for its restart, or answers the first fault that applies.
    pub fn stopped(&mut self, a: ServerId) -> Result<(), CommandFault>
        ensures answer { Commanded (desk_fault self.old.desk (Stopped a)) self.old self.new (Stopped a) result }
        ensures board { self.new.chair.board ≡ self.old.chair.board }
    {
        self.step(Command::Stopped(a))
    }

    /// Notes that the server is up again, or answers the first fault that applies.
    pub fn back(&mut self, a: ServerId) -> Result<(), CommandFault>
        ensures answer { Commanded (desk_fault self.old.desk (Back a)) self.old self.new (Back a) result }
        ensures board { self.new.chair.board ≡ self.old.chair.board }
    {
        self.step(Command::Back(a))
    }

    /// Notes that the server failed, or answers the first fault that applies.
    pub fn fail(&mut self, a: ServerId) -> Result<(), CommandFault>
        ensures answer { Commanded (desk_fault self.old.desk (Fail a)) self.old self.new (Fail a) result }
        ensures board { self.new.chair.board ≡ self.old.chair.board }
    {
        self.step(Command::Fail(a))
    }

    // Makes a step, which leaves the stands as they are, if the desk allows it.
    fn step(&mut self, step: Command) -> Result<(), CommandFault>
        requires { (books_commanded self.old.desk.books step).shards ≡ self.old.desk.books.shards }
        ensures answer { IsMadeOrRefused (desk_fault self.old.desk step) self.old self.new step result }
        ensures board { self.new.chair.board ≡ self.old.chair.board }
    {
        self.desk.check(&step)?;
        self.desk.commit(step);
        Ok(())
    }
}
