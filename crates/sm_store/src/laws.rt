//! Laws of the store.

ghost use Rattle.std.specs.Prelude.{◌≡◌, ◌<◌, ◌≤◌, ◌++◌, ℕ, Bool, true, List, length, map, reverse};
ghost use Rattle.std.specs.Prelude.{◌≢◌, ◌∷◌, is_some};
ghost use Rattle.std.specs.List.{AllByRecursion};
ghost use Rattle.sm_ownership.specs.declared.record.Record.{Record};
ghost use Rattle.sm_ownership.specs.History.{IsLegal, all_of, record_at, table_of};
ghost use Rattle.sm_place.specs.declared.server_state.ServerState.TheVariants.{Failed, Stopped, Up};
ghost use Rattle.sm_store.specs.declared.store_key.PassingKey.{PassingKey};
ghost use Rattle.sm_store.specs.Clients.{Automaton, ReadsLeave};
ghost use Rattle.sm_store.specs.Histories.{history_of};
ghost use Rattle.sm_store.specs.Linear.{AreAskedFor, AreFresh, Cut, HasCome, IsLinear, IsOwn, IsTold, Operation};
ghost use Rattle.sm_store.specs.Linear.{StandsBefore};
ghost use Rattle.sm_store.specs.Store.{IsRising, Transaction, made, head_key, leader_key, leader_of, record_key};
ghost use Rattle.sm_store.specs.Store.{revision_of};
ghost use Rattle.sm_store.specs.Store.{stored_record, stored_settings};
ghost use Rattle.sm_store.specs.Store.{Placement, acked_of, placement_key, server_key, stored_process, stored_state};
ghost use Rattle.sm_store.specs.Waits.{HasLetGo, has_let_go};
ghost use Rattle.sm_store.specs.Deeds.{AreRight, Charter, Clearing, IsHonest, IsRight, MayDo, ShardLog, WasFound};
ghost use Rattle.sm_store.specs.Deeds.{StayOrAreReplaced, shard_log};
ghost use Rattle.sm_store.specs.System.{Event, IsAmong, IsLawful, MightHappen, StaysOvertaken, system_after};
ghost use Rattle.sm_store.specs.Whole.{IsLogWhole};

/// A value that was read is still the store's value if its key's revision is still the one that was read, because
/// revisions rise along the log.
pub fn read_stands<Q, P>()
    ensures leader { (log : List (Transaction Q P)) (process revision : ℕ) → IsRising log → 0 < revision
        → WasFound leader_of leader_key log process revision
        → revision_of leader_key log ≡ revision → leader_of log ≡ process }
    ensures record_of { (log : List (Transaction Q P)) (shard : ℕ) (state : Record) (revision : ℕ) → IsRising log
        → WasFound (stored_record shard) (record_key shard) log state revision
        → revision_of (record_key shard) log ≡ revision → stored_record shard log ≡ state }
    ensures log { (log : List (Transaction Q P)) (shard : ℕ) (read : ShardLog Q) (revision : ℕ) → IsRising log
        → WasFound (shard_log shard) (head_key shard) log read revision
        → revision_of (head_key shard) log ≡ revision → shard_log shard log ≡ read }
{}

/// Take an honest store, to which every process sent only transactions that it may send. Then each transaction was
/// right for the store before it. The process that led then made each change of a record or a state, and the rule
/// allowed it by all records and states as they were; a server failed only while its key wasn't there, and a state
/// names only a process that it may name. If commands must wait, the server that a change waits for had let go, and a
/// server that was stopped had let go of each shard that was paused for it. A server acked over its own key, as it
/// wrote it last, and acked no record by which it executes. The server that the record accepts made each batch, with
/// requests that come next. A head names a base that is there whole. Settings were the first, or the leader wrote them
/// and they may replace the settings in force. Commands were judged by the settings in force. Only keys that the base
/// replaces, and leases, were deleted; and revisions rise.
pub fn honest_is_right<Q, P>()
    ensures { (charter : Charter Q P) (log : List (Transaction Q P)) → IsHonest charter log → AreRight charter log }
{}

/// Settings that were written stay in force until the leader replaces them. The new settings have as many shards, the
/// same ceiling, and a row for each server that has neither stopped nor failed; the records and states keep to them.
/// Capacities, domains, groups and caps may change.
pub fn settings_are_replaced<Q, P>()
    ensures written { (charter : Charter Q P) (later past : List (Transaction Q P)) → IsHonest charter (later ++ past)
        → is_some (stored_settings past) ≡ true → is_some (stored_settings (later ++ past)) ≡ true }
    ensures replaced { (charter : Charter Q P) (past : List (Transaction Q P)) (txn : Transaction Q P)
        → IsHonest charter (txn ∷ past) → is_some (stored_settings past) ≡ true
        → StayOrAreReplaced charter past txn }
    ensures kept { (charter : Charter Q P) (later past : List (Transaction Q P)) → IsHonest charter (later ++ past)
        → is_some (stored_settings past) ≡ true
        → revision_of placement_key (later ++ past) ≡ revision_of placement_key past
        → stored_settings (later ++ past) ≡ stored_settings past }
{}

/// Deletions that are right one after the other are right as one deletion.
pub fn deletions_join<Q, P>()
    ensures may { (charter : Charter Q P) (log : List (Transaction Q P)) (keys more : List PassingKey)
        → MayDo charter log (Clearing keys) → MayDo charter log (Clearing more)
        → MayDo charter log (Clearing (keys ++ more)) }
    ensures right { (charter : Charter Q P) (log : List (Transaction Q P)) (keys more : List PassingKey)
        → IsRight charter log (Clearing keys) → IsRight charter log (Clearing more)
        → IsRight charter log (Clearing (keys ++ more)) }
{}

/// In every run, a server fails only by a transaction that was made while the server's key wasn't there. So a server
/// that is back under a new lease by then doesn't fail by it.
pub fn servers_fail_absent<Q, P, R, S>()
    ensures { (service : Automaton S Q R) (charter : Charter Q P) (events : List (Event Q P R))
        → MightHappen service charter events
        → (later past : List (Transaction Q P)) (txn : Transaction Q P) (server : ℕ)
        → (system_after events).log ≡ later ++ txn ∷ past
        → stored_state server past ≢ Failed → stored_state server (txn ∷ past) ≡ Failed
        → revision_of (server_key server) past ≡ 0 }
{}

/// Assume that a control read the record as it is, an ack that was made, and no failure that isn't true. Then the
/// server for which its change must wait has let go if `has_let_go` says so. This stays true, because an ack that was
/// made counts forever.
pub fn controls_wait<Q, P>()
    ensures waited { (log : List (Transaction Q P)) (read : Placement) (shard server acked : ℕ) (failed : Bool)
        → acked ≤ acked_of shard server log → (failed ≡ true → read.states server ≡ Failed)
        → has_let_go (read.records shard) acked failed ≡ true → HasLetGo log read shard server }
    ensures stays { (later past : List (Transaction Q P)) (read : Placement) (shard server : ℕ)
        → HasLetGo past read shard server → HasLetGo (later ++ past) read shard server }
{}

/// In every run, if a server is stopped, its state names the process that was stopped. The server is up again only by a
/// process that began later, so a leader that has just begun can tell the two apart. The number of the process that a
/// state names never falls.
pub fn stopped_servers_begin_anew<Q, P, R, S>()
    ensures process { (service : Automaton S Q R) (charter : Charter Q P) (events : List (Event Q P R))
        → MightHappen service charter events → (server : ℕ)
        → stored_state server (system_after events).log ≡ Stopped
        → 0 < stored_process server (system_after events).log }
    ensures later { (service : Automaton S Q R) (charter : Charter Q P) (events : List (Event Q P R))
        → MightHappen service charter events
        → (later past : List (Transaction Q P)) (txn : Transaction Q P) (server : ℕ)
        → (system_after events).log ≡ later ++ txn ∷ past
        → stored_state server past ≡ Stopped → stored_state server (txn ∷ past) ≡ Up
        → stored_process server past < stored_process server (txn ∷ past) }
    ensures rises { (service : Automaton S Q R) (charter : Charter Q P) (events : List (Event Q P R))
        → MightHappen service charter events → (later past : List (Transaction Q P)) (server : ℕ)
        → (system_after events).log ≡ later ++ past
        → stored_process server past ≤ stored_process server (later ++ past) }
{}

/// The values at a shard's keys lead to all requests that are made: the base that the head names, and the batches after
/// it.
pub fn keys_are_whole<Q, P>()
    ensures { (charter : Charter Q P) (log : List (Transaction Q P)) (shard : ℕ)
        → IsHonest charter log → IsLogWhole charter shard log }
{}

/// The law of the store, over every run of all processes, if each sends only transactions that it may send and claims
/// only facts that it knows. A request that was claimed to be overtaken is never made later.
pub fn runs_are_lawful<Q, P, R, S>()
    ensures lawful { (service : Automaton S Q R) (charter : Charter Q P)
        (events : List (Event Q P R)) → MightHappen service charter events
        → IsLawful service charter (system_after events) }
    ensures overtaken { (service : Automaton S Q R) (charter : Charter Q P)
        (later earlier : List (Event Q P R)) → MightHappen service charter (later ++ earlier)
        → let before = system_after earlier in
        let now = system_after (later ++ earlier) in
        AllByRecursion (StaysOvertaken before now) before.claims }
{}

/// Replies over a shared store are linearizable. Take any run of any number of processes over one store: messages come
/// late, twice or never, and processes stop and start. Then all requests to the shards have one order, in which one
/// thread for each shard gives each reply that a client was told, and the updates are the requests that the store made,
/// in its order. Each reply that a client was told has its place in the order, and each request in the order was asked
/// by a client. If a client was told of an operation before a request first came under its number, the operation comes
/// before that request.
pub fn runs_are_linear<Q, P, R, S>()
    ensures linear { (service : Automaton S Q R) (charter : Charter Q P) (events : List (Event Q P R))
        → ReadsLeave service → MightHappen service charter events → AreAskedFor events
        → IsLinear service events }
    ensures in_time { (moment : List (Event Q P R)) (order : List (Operation Q R)) → Cut order moment
        → (one other : Operation Q R) → IsAmong one order → IsAmong other order
        → IsTold moment one → (HasCome moment other → ⊥) → StandsBefore one other order }
    // A reply is never the reply to another request, if each client's number stands for one request.
    ensures own_request { (events : List (Event Q P R)) (order : List (Operation Q R))
        → AllByRecursion (HasCome events) order → AreFresh (system_after events).asked
        → AllByRecursion (IsOwn (system_after events).asked) order }
{}

/// An honest store stands for a legal history of the ownership table, so the table's laws hold of the store too: each
/// change is legal, and for each request only its executor is admitted.
pub fn store_is_a_history<Q, P>()
    ensures legal { (charter : Charter Q P) (ceiling : ℕ) (log : List (Transaction Q P)) → IsHonest charter log
        → length (history_of log) ≤ ceiling → IsLegal charter.count ceiling (reverse (history_of log)) }
    ensures stands { (charter : Charter Q P) (ceiling : ℕ) (log : List (Transaction Q P)) → IsHonest charter log
        → length (history_of log) ≤ ceiling → (shard : ℕ) → shard < charter.count
        → (record_at (table_of charter.count ceiling (reverse (history_of log))) shard).stand
        ≡ (stored_record shard log).stand }
    ensures requests { (charter : Charter Q P) (log : List (Transaction Q P)) (shard : ℕ) → IsHonest charter log
        → all_of (reverse (history_of log)) shard ≡ map (λ item. item.request) (made shard log) }
{}
