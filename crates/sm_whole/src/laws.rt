//! The law of servers and controls together.

ghost use Rattle.std.specs.Prelude.{◌≡◌, ℕ, List, Result, Some, slice_get};
ghost use Rattle.std.specs.List.{AllByRecursion};
ghost use Rattle.sm_store.specs.Deeds.{Charter};
ghost use Rattle.sm_store.specs.Linear.{IsLinear};
ghost use Rattle.sm_store.specs.System.{IsLawful, system_after};
ghost use Rattle.sm_shard.specs.declared.replica.ReplayFault.{ReplayFault};
ghost use Rattle.sm_shard.specs.declared.shard_server.ShardServer.{ShardServer};
ghost use Rattle.sm_shard.specs.declared.steps.ShardInput.{ShardInput};
ghost use Rattle.sm_shard.specs.declared.steps.ShardOutput.{ShardOutput};
ghost use Rattle.sm_shard.specs.Bases.{Part};
ghost use Rattle.sm_shard.specs.Fleet.{Fleet, Running, Steps, events_of};
ghost use Rattle.sm_shard.specs.ShardServers.{IsTrueOf};
ghost use Rattle.sm_shard.specs.Steps.{IsInput};
ghost use Rattle.sm_shard.specs.StoreServers.{IsStoreStep};
ghost use Rattle.sm_lead.specs.Controls.{GoesByStore};
ghost use Rattle.sm_lead.specs.Placements.{AreKeptBy};
ghost use Rattle.sm_whole.specs.Runs.{AreByExecutors, AreGivenAsked, Given, IsRun, MayServe, WholeAct, charter_given};
ghost use Rattle.sm_whole.specs.Runs.{fleet_acts, whole_after};

use sm_desk::laws::commands_keep_soundness;
use sm_lead::laws::{
    commands_ask_for_nothing, commands_may_be_sent, controls_keep_caps, outcomes_are_known,
    reading_is_known, settings_may_be_sent,
};
use sm_shard::base_part::BasePart;
use sm_shard::laws::{fleets_are_lawful, fleets_are_linear};
use sm_shard::store_machine::StoreMachine;

/// The law of all that runs. Take any run of any number of servers and controls over one store: each step of either is
/// one of the code, messages come late, twice or never, processes stop, forget and start, and leading controls write
/// other settings. Then the store is lawful, the caps of approved restarts hold and there is room, by the settings in
/// force, and each batch was executed by the one server that the shard's record then named. All that servers and
/// controls hold is true of the store. If servers are given only requests that came, replies are linearizable.
pub fn servers_and_controls_are_lawful<Q: Drop, R: Copy + Drop, M: StoreMachine<Q, R>>()
    ensures lawful { (given : Given) (acts : List (WholeAct M Q R)) → IsRun M.service given acts
        → IsLawful M.service (charter_given M.service given) (whole_after acts).fleet.system }
    ensures caps { (given : Given) (acts : List (WholeAct M Q R)) → IsRun M.service given acts
        → AreKeptBy given.reading (whole_after acts).fleet.system.log }
    ensures executors { (given : Given) (acts : List (WholeAct M Q R)) → IsRun M.service given acts
        → AreByExecutors (whole_after acts).fleet.system.log }
    ensures linear { (given : Given) (acts : List (WholeAct M Q R)) → IsRun M.service given acts
        → AreGivenAsked acts → IsLinear M.service (events_of (fleet_acts acts)) }
    // The events are those of the run.
    ensures events { (acts : List (WholeAct M Q R))
        → (whole_after acts).fleet.system ≡ system_after (events_of (fleet_acts acts)) }
    ensures known { (given : Given) (acts : List (WholeAct M Q R)) → IsRun M.service given acts
        → let whole = whole_after acts in
        let log = whole.fleet.system.log in
        AllByRecursion (λ running. IsTrueOf M.service log running.server) whole.fleet.servers
        × AllByRecursion (GoesByStore given.reading.settings log) whole.controls }
{
    commands_keep_soundness();
    reading_is_known::<Q, BasePart<R>>();
    commands_may_be_sent::<Q, BasePart<R>>();
    settings_may_be_sent::<Q, BasePart<R>>();
    commands_ask_for_nothing::<Q, BasePart<R>>();
    outcomes_are_known::<Q, BasePart<R>>();
    controls_keep_caps::<Q, BasePart<R>>();
    fleets_are_lawful::<Q, R, M>();
    fleets_are_linear::<Q, R, M>();
}

/// A step of a `StoreServer` for a shard is one of that shard's server in the run, on an input that is so in the store.
pub fn store_servers_step<Q: Drop, R: Copy + Drop, M: StoreMachine<Q, R>>()
    ensures { (charter : Charter Q (Part R)) (fleet : Fleet M Q R) (which since shard : ℕ)
        (olds news : List (ShardServer M Q R)) (input : ShardInput Q R)
        (result : Result (ShardOutput Q R) ReplayFault)
        → (step : IsStoreStep M.service M.size olds shard input result news)
        → let old : Running M Q R = record { server = step.old; since = since } in
        slice_get fleet.servers which ≡ Some old → IsInput M.service fleet.system since step.old input
        → MayServe M.service charter fleet (Steps which old input result step.new) }
{}
