//! How a control goes on from its readings, as it would if it had led before.

ghost use Rattle.std.specs.Prelude.{◌≡◌, IfOk, None, Some, not, ◌&&◌};
ghost use Rattle.sm_desk.specs.declared.command.Command.TheVariants.{Change as ChangeOf};
ghost use Rattle.sm_place.specs.Books.{shard_at, state_of};
ghost use Rattle.sm_place.specs.ServerState.{is_approved, is_failed, is_unreached};
ghost use Rattle.sm_lead.specs.NextSteps.{IsAllowed, fallen, heir_of, is_following, lets_reassign, reassignment};
ghost use Rattle.sm_lead.specs.NextSteps.{server_step, shard_step};
ghost use Rattle.sm_lead.specs.NextSteps.{step_of_drain, step_of_moves, step_of_stand, step_of_state, unless_refused};
ghost use Rattle.sm_lead.specs.NextSteps.{step_of_assignment, step_of_vacant, takes_once, waits_for};
ghost use Rattle.sm_lead.specs.Waits.{lets_go};

use crate::ack_read::AckRead;
use crate::follower::{Follower, all_follow, is_following};
use crate::next_step::NextStep;
use crate::record_read::read_at;
use crate::store_control::{StoreControl, state_of};
use sm_desk::{Command, Desk};
use sm_ownership::change::Change;
use sm_place::{Plan, ServerState};
use sm_ranges::server_id::ServerId;
use sm_ranges::shard_id::ShardId;
use sm_ranges::stand::Stand;
use std::alloc::{AllocError, Global};

impl StoreControl {
    /// Returns how it goes on with the shard. A migration takes its next step once its next owner is prepared, and then
    /// once its owner has acked; it ends once each follower has read that the shard is taken. A migration is given up
    /// if its next owner is leaving before it forwards, or has failed before the shard is taken. Shards of a failed
    /// server go to another one.
    pub fn next_of_shard(
        &self,
        shard: ShardId,
        followers: &[Follower],
        acks: &[AckRead],
    ) -> NextStep
        ensures exact { result ≡ shard_step self.now followers.now acks.now shard }
        ensures allowed { IsAllowed self.now result }
    {
        let followed = all_follow(followers, read_at(&self.records, shard).stood);
        let stand = stand_of(&self.desk, shard);
        self.unless_refused(self.step_of_stand(followed, acks, shard, &stand))
    }

    /// Returns how it goes on with the server's restart. A restart that was asked for is approved as soon as the caps
    /// allow it. An approved server stops as soon as it serves nothing, and has acked the shards that are paused for
    /// it.
    pub fn next_of_server(&self, server: ServerId, acks: &[AckRead]) -> NextStep
        ensures exact { result ≡ server_step self.now acks.now server }
        ensures allowed { IsAllowed self.now result }
    {
        let may = self.may_stop(acks, server);
        self.unless_refused(step_of_state(may, state_of(&self.desk, server), server))
    }

    /// Returns how it goes on with the drain of a server: the first move of its plan begins. If there is none and the
    /// server's restart was approved, the first shard pauses that fits on no other server.
    pub fn next_of_drain(&self, alloc: Global, server: ServerId) -> Result<NextStep, AllocError>
        ensures exact { IfOk result (λ step. step ≡ unless_refused self.now
            (step_of_drain self.now.desk.books server)) }
        ensures allowed { IfOk result (λ step. IsAllowed self.now step) }
    {
        let plan = self.desk.books().plan_drain(alloc, server)?;
        let approved = is_approved(state_of(&self.desk, server));
        Ok(self.unless_refused(step_of_moves(&plan, approved)))
    }

    /// How it goes on with the vacant shards: the first move of their plan is made.
    pub fn next_of_vacant(&self, alloc: Global) -> Result<NextStep, AllocError>
        ensures exact { IfOk result (λ step. step ≡ unless_refused self.now
            (step_of_vacant self.now.desk.books)) }
        ensures allowed { IfOk result (λ step. IsAllowed self.now step) }
    {
        let plan = self.desk.books().plan_assign(alloc)?;
        Ok(self.unless_refused(step_of_assignment(&plan)))
    }

    /// Returns the first server whose key is absent, because its lease ended, although the desk lets requests go to it.
    /// It must be declared failed.
    pub fn fallen_server(&self, followers: &[Follower]) -> Option<ServerId>
        ensures { result ≡ fallen self.now.desk.books followers.now }
    {
        let found = self
            .desk
            .books()
            .rows()
            .iter()
            .find(|row| is_missing(&self.desk, followers, row.id));
        match found {
            Some(row) => Some(row.id),
            None => None,
        }
    }

    // Returns the step of a shard with this stand, whose record all have read or not.
    fn step_of_stand(&self, followed: bool, acks: &[AckRead], k: ShardId, stand: &Stand) -> NextStep
        ensures { result
            ≡ step_of_stand self.now.desk followed (lets_go self.now acks.now k) k stand.now }
    {
        let desk = &self.desk;
        match *stand {
            Stand::Vacant => NextStep::Nothing,
            Stand::Serving(owner) => if is_failed(state_of(desk, owner)) {
                NextStep::Takes(Command::Change(k, Change::Pause))
            } else {
                NextStep::Nothing
            },
            Stand::Prepared { next, .. } => if state_of(desk, next).is_leaving() {
                NextStep::Takes(Command::Change(k, Change::Cancel))
            } else {
                takes_once(self.lets_go(acks, k, next), k, Change::PrepareDropShard)
            },
            Stand::Forwarding { owner, next } => if is_failed(state_of(desk, next)) {
                NextStep::Takes(Command::Change(k, Change::Cancel))
            } else {
                takes_once(self.lets_go(acks, k, owner), k, Change::AddShard)
            },
            Stand::Taken { .. } => takes_once(followed, k, Change::DropShard),
            Stand::Paused(owner) => if is_failed(state_of(desk, owner)) {
                step_of_reassignment(desk, k)
            } else {
                NextStep::Nothing
            },
        }
    }

    // Returns the step, or to wait if its command is refused.
    fn unless_refused(&self, step: NextStep) -> NextStep
        ensures exact { result ≡ unless_refused self.now step }
        ensures allowed { IsAllowed self.now result }
    {
        match step {
            NextStep::Takes(command) => match self.judge(0, &command) {
                Ok(_) => NextStep::Takes(command),
                Err(_) => NextStep::Waits,
            },
            NextStep::Waits => NextStep::Waits,
            NextStep::Nothing => NextStep::Nothing,
        }
    }
}

// Returns the stand of the shard, or vacant if there is no such shard.
fn stand_of(desk: &Desk, shard: ShardId) -> Stand
    ensures { result ≡ (shard_at desk.now.books.shards shard).stand }
{
    match desk.books().shards().get(shard.index()) {
        Some(found) => found.stand,
        None => Stand::Vacant,
    }
}

pub(crate) fn is_failed(state: ServerState) -> bool
    ensures { result ≡ is_failed state }
{
    matches!(state, ServerState::Failed)
}

fn is_approved(state: ServerState) -> bool
    ensures { result ≡ is_approved state }
{
    matches!(state, ServerState::Approved)
}

// Returns the step with this change, once that holds.
fn takes_once(ready: bool, k: ShardId, change: Change) -> NextStep
    ensures { result ≡ takes_once ready (ChangeOf k change) }
{
    if ready {
        NextStep::Takes(Command::Change(k, change))
    } else {
        NextStep::Waits
    }
}

// Returns whether the desk lets the shard be reassigned to the server.
#[tactic(auto, unfolding(crate::specs::NextSteps::lets_reassign))]
fn lets_reassign(desk: &Desk, k: ShardId, server: ServerId) -> bool
    ensures { result ≡ lets_reassign desk.now k server }
{
    desk.check(&Command::Change(k, Change::Reassign(server)))
        .is_ok()
}

// Returns the first server to which the desk lets the shard go.
fn heir_of(desk: &Desk, k: ShardId) -> Option<ServerId>
    ensures { result ≡ heir_of desk.now k }
{
    let found = desk
        .books()
        .rows()
        .iter()
        .find(|row| lets_reassign(desk, k, row.id));
    match found {
        Some(row) => Some(row.id),
        None => None,
    }
}

// The shard goes there, or waits.
fn step_of_reassignment(desk: &Desk, k: ShardId) -> NextStep
    ensures { result ≡ waits_for (reassignment desk.now k) }
{
    match heir_of(desk, k) {
        Some(server) => NextStep::Takes(Command::Change(k, Change::Reassign(server))),
        None => NextStep::Waits,
    }
}

// The step of a server in this state, which may be stopped or not.
fn step_of_state(may: bool, state: ServerState, server: ServerId) -> NextStep
    ensures { result ≡ step_of_state may state server }
{
    match state {
        ServerState::Asked => NextStep::Takes(Command::Approve(server)),
        ServerState::Approved => if may {
            NextStep::Takes(Command::Stopped(server))
        } else {
            NextStep::Waits
        },
        ServerState::Up | ServerState::Stopped | ServerState::Failed => NextStep::Nothing,
    }
}

// The first move of the plan begins, or a shard that is left pauses.
fn step_of_moves(plan: &Plan, approved: bool) -> NextStep
    ensures { result ≡ step_of_moves approved plan.now.moves plan.now.left }
{
    if let [first, ..] = plan.moves() {
        return NextStep::Takes(Command::Change(first.shard, Change::PrepareAddShard(first.to)));
    }
    match plan.left() {
        [k, ..] => if approved {
            NextStep::Takes(Command::Change(*k, Change::Pause))
        } else {
            NextStep::Nothing
        },
        [] => NextStep::Nothing,
    }
}

// The first move of the plan is made.
fn step_of_assignment(plan: &Plan) -> NextStep
    ensures { result ≡ step_of_assignment plan.now.moves }
{
    match plan.moves() {
        [first, ..] => NextStep::Takes(Command::Change(first.shard, Change::Assign(first.to))),
        [] => NextStep::Nothing,
    }
}

// Whether requests go to the server, and its key isn't there.
fn is_missing(desk: &Desk, followers: &[Follower], server: ServerId) -> bool
    ensures { result
        ≡ (not (is_unreached (state_of desk.now.books server)) && not (is_following followers.now server)) }
{
    !state_of(desk, server).is_unreached() && !is_following(followers, server)
}
