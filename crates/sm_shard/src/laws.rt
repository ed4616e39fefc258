//! Laws of servers and the store together.

ghost use Rattle.std.specs.Prelude.{◌≡◌, List};
ghost use Rattle.std.specs.List.{AllByRecursion};
ghost use Rattle.sm_store.specs.Clients.{Automaton};
ghost use Rattle.sm_store.specs.Deeds.{Charter};
ghost use Rattle.sm_store.specs.Linear.{IsLinear};
ghost use Rattle.sm_store.specs.System.{IsLawful, system_after};
ghost use Rattle.sm_shard.specs.Bases.{Part, base_of};
ghost use Rattle.sm_shard.specs.Fleet.{Act, AllAskFor, MightAct, events_of, fleet_after};
ghost use Rattle.sm_shard.specs.ShardServers.{IsTrueOf};

use crate::base_part::BasePart;
use crate::store_machine::StoreMachine;
use sm_store::laws::{runs_are_lawful, runs_are_linear};

/// The law of the store holds in every run of any number of servers, if each step of them is a step of the code.
/// Messages may be lost, late or doubled. A process may be stopped, forgotten and started at any moment. A control may
/// send everything that it is allowed to send. Then each server's knowledge is true in the store.
pub fn fleets_are_lawful<Q, R, M>()
    ensures lawful { (service : Automaton M Q R) (charter : Charter Q (Part R))
        (acts : List (Act M Q R)) → charter.parts ≡ base_of service → MightAct service charter acts
        → IsLawful service charter (fleet_after acts).system }
    ensures known { (service : Automaton M Q R) (charter : Charter Q (Part R))
        (acts : List (Act M Q R)) → charter.parts ≡ base_of service → MightAct service charter acts
        → let fleet = fleet_after acts in
        AllByRecursion (λ running. IsTrueOf service fleet.system.log running.server) fleet.servers }
    // The system of the servers is that of their events.
    ensures events { (acts : List (Act M Q R)) → (fleet_after acts).system ≡ system_after (events_of acts) }
{
    runs_are_lawful::<Q, BasePart<R>, R, M>();
}

/// Replies of any number of servers over a shared store are linearizable, if each server is given only requests that
/// came, and nobody else makes a request that wasn't asked. Each step of a server is a step of the code. Messages may
/// come late, twice or never, and processes may stop, forget and start.
pub fn fleets_are_linear<Q: Drop, R: Copy + Drop, M: StoreMachine<Q, R>>()
    ensures { (charter : Charter Q (Part R)) (acts : List (Act M Q R)) → charter.parts ≡ base_of M.service
        → MightAct M.service charter acts → AllAskFor acts → IsLinear M.service (events_of acts) }
{
    runs_are_lawful::<Q, BasePart<R>, R, M>();
    runs_are_linear::<Q, BasePart<R>, R, M>();
}
