ghost use Rattle.std.specs.Prelude.{◌≡◌, OnErr, OnOk};
ghost use Rattle.sm_place.specs.Books.{IsKnown, with_state};
ghost use Rattle.sm_place.specs.declared.server_state.ServerState.TheVariants.{Approved, Asked, Failed, Stopped, Up};
ghost use Rattle.sm_tasks.specs.Approvals.{approvable, askable, failable, returnable, stoppable};

use crate::counts::{capped_shard, leaving_count, serving_shard};
use crate::domains::full_domain;
use crate::groups::full_group;
use crate::restart_fault::RestartFault;
use sm_place::{Books, ServerState};
use sm_ranges::ServerId;
use std::marker::Model;

/// The steps of planned restarts, and the caps that an approval must keep. If a step is refused, it changes nothing. No
/// step is refused for lack of memory. Each step has a check, which says whether the step would be made.
#[derive(Clone, Copy, Drop)]
pub struct Tasks {
    ops: u16,
}

impl Model for Tasks {
    ghost use Rattle.sm_tasks.specs.Caps.{RestartCaps};

    ghost Value = { RestartCaps };

    ghost view = { λ tasks. record { ops = tasks.ops } };

    ghost inverse = { λ caps. record { ops = caps.ops } };
}

impl Tasks {
    /// Returns steps that approve a restart only if at most `ops` servers are then approved, stopped or failed.
    pub fn new(ops: u16) -> Tasks
        ensures { result.ops ≡ ops }
    {
        Tasks { ops }
    }

    /// Returns whether `ask` would be made, or why not.
    pub fn check_ask(&self, books: &Books, a: ServerId) -> Result<(), RestartFault>
        requires { IsKnown books.now.servers a }
        ensures { result ≡ askable books.now a }
    {
        match books.state(a) {
            ServerState::Up => Ok(()),
            _ => Err(RestartFault::NotUp),
        }
    }

    /// Asks for a restart of the server, which must be Up.
    pub fn ask(&self, books: &mut Books, a: ServerId) -> Result<(), RestartFault>
        requires { IsKnown books.old.servers a }
        ensures answer { result ≡ askable books.old a }
        ensures made { OnOk result (books.new ≡ with_state books.old a Asked) }
        ensures refused { OnErr result (books.new ≡ books.old) }
    {
        self.check_ask(books, a)?;
        books.set_state(a, ServerState::Asked);
        Ok(())
    }

    /// Returns whether `approve` would be made, or why not.
    pub fn check_approve(&self, books: &Books, a: ServerId) -> Result<(), RestartFault>
        requires { IsKnown books.now.servers a }
        ensures { result ≡ approvable self.now books.now a }
    {
        if !matches!(books.state(a), ServerState::Asked) {
            return Err(RestartFault::NotAsked);
        }
        if leaving_count(books) >= usize::from(self.ops) {
            return Err(RestartFault::GlobalCap);
        }
        if let Some(k) = capped_shard(books, a) {
            return Err(RestartFault::ShardCap(k));
        }
        if let Some(g) = full_group(books, a) {
            return Err(RestartFault::GroupCap(g));
        }
        if let Some(d) = full_domain(books, a) {
            return Err(RestartFault::DomainCap(d));
        }
        Ok(())
    }

    /// Approves the restart of the server, which must be Asked. From then on the server is leaving.
    pub fn approve(&self, books: &mut Books, a: ServerId) -> Result<(), RestartFault>
        requires { IsKnown books.old.servers a }
        ensures answer { result ≡ approvable self.now books.old a }
        ensures made { OnOk result (books.new ≡ with_state books.old a Approved) }
        ensures refused { OnErr result (books.new ≡ books.old) }
    {
        self.check_approve(books, a)?;
        books.set_state(a, ServerState::Approved);
        Ok(())
    }

    /// Returns whether `stopped` would be made, or why not.
    pub fn check_stopped(&self, books: &Books, a: ServerId) -> Result<(), RestartFault>
        requires { IsKnown books.now.servers a }
        ensures { result ≡ stoppable books.now a }
    {
        if !matches!(books.state(a), ServerState::Approved) {
            return Err(RestartFault::NotApproved);
        }
        match serving_shard(books, a) {
            Some(k) => Err(RestartFault::StillServing(k)),
            None => Ok(()),
        }
    }

    /// Notes that the server was stopped. It must be Approved.
    pub fn stopped(&self, books: &mut Books, a: ServerId) -> Result<(), RestartFault>
        requires { IsKnown books.old.servers a }
        ensures answer { result ≡ stoppable books.old a }
        ensures made { OnOk result (books.new ≡ with_state books.old a Stopped) }
        ensures refused { OnErr result (books.new ≡ books.old) }
    {
        self.check_stopped(books, a)?;
        books.set_state(a, ServerState::Stopped);
        Ok(())
    }

    /// Returns whether `back` would be made, or why not.
    pub fn check_back(&self, books: &Books, a: ServerId) -> Result<(), RestartFault>
        requires { IsKnown books.now.servers a }
        ensures { result ≡ returnable books.now a }
    {
        match books.state(a) {
            ServerState::Up => Err(RestartFault::AlreadyUp),
            _ => Ok(()),
        }
    }

    /// Notes that the server is Up again. It must not be Up before.
    pub fn back(&self, books: &mut Books, a: ServerId) -> Result<(), RestartFault>
        requires { IsKnown books.old.servers a }
        ensures answer { result ≡ returnable books.old a }
        ensures made { OnOk result (books.new ≡ with_state books.old a Up) }
        ensures refused { OnErr result (books.new ≡ books.old) }
    {
        self.check_back(books, a)?;
        books.set_state(a, ServerState::Up);
        Ok(())
    }

    /// Returns whether `fail` would be made, or why not.
    pub fn check_fail(&self, books: &Books, a: ServerId) -> Result<(), RestartFault>
        requires { IsKnown books.now.servers a }
        ensures { result ≡ failable books.now a }
    {
        match books.state(a) {
            ServerState::Failed => Err(RestartFault::AlreadyFailed),
            _ => Ok(()),
        }
    }

    /// Notes that the server failed, in every state except Failed. If it is Failed already, this is refused.
    pub fn fail(&self, books: &mut Books, a: ServerId) -> Result<(), RestartFault>
        requires { IsKnown books.old.servers a }
        ensures answer { result ≡ failable books.old a }
        ensures made { OnOk result (books.new ≡ with_state books.old a Failed) }
        ensures refused { OnErr result (books.new ≡ books.old) }
    {
        self.check_fail(books, a)?;
        books.set_state(a, ServerState::Failed);
        Ok(())
    }
}
