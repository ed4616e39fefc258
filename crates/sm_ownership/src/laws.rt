//! Laws of the definitions, which hold for every history.

ghost use Rattle.std.specs.Prelude.{◌≡◌, ◌≢◌, ℕ, ◌+◌, ◌<◌, ◌≤◌, ◌↔◌, ◌==◌, nat_lt, IsTrue, Some, None, List, [], ◌∷◌};
ghost use Rattle.std.specs.Prelude.{◌++◌, All, count_by, if◌then◌else◌, length, reverse, take};
ghost use Rattle.sm_ownership.specs.declared.admit_fault.AdmitFault.TheVariants.{Admitted, Spent};
ghost use Rattle.sm_ownership.specs.declared.change.Change.{Change};
ghost use Rattle.sm_ownership.specs.declared.entry.Ending.{Ending};
ghost use Rattle.sm_ownership.specs.declared.entry.Ending.TheVariants.{Checkpoint};
ghost use Rattle.sm_ownership.specs.declared.entry.Entry.{Entry};
ghost use Rattle.sm_ownership.specs.declared.entry.Kind.TheVariants.{Change as Changed, Admit, Done};
ghost use Rattle.sm_ownership.specs.declared.mode.Mode.{Mode};
ghost use Rattle.sm_ownership.specs.declared.record.Record.{Record};
ghost use Rattle.sm_ownership.specs.History.{IsLegal, acts_as, admit_fits, open_admissions, all_of, change_fits};
ghost use Rattle.sm_ownership.specs.History.{ending_of, first_of, is_admission_of, kept, kept_after, latest_of};
ghost use Rattle.sm_ownership.specs.History.{record_at, table_of};
ghost use Rattle.sm_ownership.specs.Reach.{IsApart, IsReached, IsServed};
ghost use Rattle.sm_ownership.specs.Rules.{accepts, admit_fault, executor, phase_fault};
ghost use Rattle.sm_ownership.specs.Tables.{apply_fault, record_fault, table_admitted, table_changed, table_done};
ghost use Rattle.sm_ownership.specs.Tables.{table_view};

/// The control may make a change if and only if no fault stops it. Legality says this in its own words: the record is
/// idle, below the ceiling, and at a stand from which the change leads on.
pub fn change_refused_exactly()
    ensures { (ceiling : ℕ) (state : Record) (change : Change)
        → IsTrue (change_fits ceiling state 0 change)
        ↔ ((phase_fault state.stand change ≡ None) × (record_fault ceiling state ≡ None)) }
{}

/// An actor other than the control, which acts as this one server for good, is admitted if and only if no fault stops
/// it. Legality says this in its own words: the record is idle, has room for the admission and its end, and accepts the
/// server.
pub fn admission_refused_exactly<Q>()
    ensures { (ceiling : ℕ) (earlier : List (Entry Q)) (state : Record) (actor server : ℕ) (mode : Mode)
        → IsTrue (admit_fits ceiling earlier state actor server mode)
        ↔ ((actor ≢ 0) × IsTrue (acts_as earlier actor server) × (admit_fault ceiling state server mode ≡ None)) }
{}

/// A change by the control is the next entry of a legal history if and only if the history's table doesn't refuse it.
/// It then makes the table of the longer history.
pub fn change_extends_history<Q>()
    ensures { (count ceiling : ℕ) (history : List (Entry Q)) (shard : ℕ) (change : Change)
        → IsLegal count ceiling history
        → let table = table_view count ceiling history in
        let longer = history ++ record { actor = 0; shard = shard; kind = Changed change } ∷ [] in
        (IsLegal count ceiling longer ↔ (apply_fault table shard change ≡ None))
        × (IsLegal count ceiling longer → table_view count ceiling longer ≡ table_changed table shard change) }
{}

/// An admission of a server, by an actor other than the control that acts only as this server, is the next entry of a
/// legal history if and only if the shard's record doesn't refuse it. It then makes the table of the longer history.
pub fn admission_extends_history<Q>()
    ensures { (count ceiling : ℕ) (history : List (Entry Q)) (actor shard server : ℕ) (mode : Mode)
        → IsLegal count ceiling history → shard < count → actor ≢ 0 → IsTrue (acts_as (reverse history) actor server)
        → let table = table_view count ceiling history in
        let longer = history ++ record { actor = actor; shard = shard; kind = Admit server mode } ∷ [] in
        (IsLegal count ceiling longer ↔ (admit_fault ceiling (record_at table.records shard) server mode ≡ None))
        × (IsLegal count ceiling longer → table_view count ceiling longer ≡ table_admitted table shard) }
{}

/// The end of an admission is the next entry of a legal history if and only if the shard's record is admitted and the
/// shard's latest entry is an admission by the same actor. It then makes the table of the longer history.
pub fn end_extends_history<Q>()
    ensures { (count ceiling : ℕ) (history : List (Entry Q)) (actor shard : ℕ) (ending : Ending Q)
        → IsLegal count ceiling history → shard < count
        → let table = table_view count ceiling history in
        let longer = history ++ record { actor = actor; shard = shard; kind = Done ending } ∷ [] in
        (IsLegal count ceiling longer
        ↔ (IsTrue (record_at table.records shard).admitted
        × IsTrue (is_admission_of actor (latest_of (reverse history) shard))))
        × (IsLegal count ceiling longer → table_view count ceiling longer ≡ table_done table shard) }
{}

/// If a history is legal, each history with which it begins is legal.
pub fn legal_prefix<Q>()
    ensures { (count ceiling : ℕ) (history later : List (Entry Q))
        → IsLegal count ceiling (history ++ later) → IsLegal count ceiling history }
{}

/// At each point of a legal history at most one admission of a shard stands: one if the shard's record is admitted,
/// none otherwise.
pub fn one_admission<Q>()
    ensures at_most_one { (count ceiling : ℕ) (history later : List (Entry Q)) (shard : ℕ)
        → IsLegal count ceiling (history ++ later)
        → length (open_admissions history shard) ≤ 1 }
    ensures where_admitted { (count ceiling : ℕ) (history later : List (Entry Q)) (shard : ℕ)
        → IsLegal count ceiling (history ++ later)
        → let state = record_at (table_of count ceiling history) shard in
        length (open_admissions history shard) ≡ (if state.admitted then 1 else 0) }
{}

/// At each point of a legal history, if an admission of a shard stands, it is the executor's.
pub fn executor_admitted<Q>()
    ensures { (count ceiling : ℕ) (history later : List (Entry Q)) (shard : ℕ)
        → IsLegal count ceiling (history ++ later)
        → let state = record_at (table_of count ceiling history) shard in
        let IsOfExecutor : Entry Q → Type 0 = λ entry.
        (server : ℕ) × (mode : Mode) × (entry.kind ≡ Admit server mode) × (executor state ≡ Some server) in
        All IsOfExecutor (open_admissions history shard) }
{}

/// In a legal history the generation of a shard's record is the number of the shard's entries.
pub fn generation_counts_entries<Q>()
    ensures { (count ceiling : ℕ) (history : List (Entry Q)) (shard : ℕ) → IsLegal count ceiling history
        → let state = record_at (table_of count ceiling history) shard in
        state.generation ≡ count_by (λ entry. entry.shard == shard) history }
{}

/// If a shard has the same generation at two points of a legal history, it has the same record at both.
pub fn same_generation_same_record<Q>()
    ensures { (count ceiling : ℕ) (history later : List (Entry Q)) (shard : ℕ)
        → IsLegal count ceiling (history ++ later)
        → let before = record_at (table_of count ceiling history) shard in
        let after = record_at (table_of count ceiling (history ++ later)) shard in
        before.generation ≡ after.generation → before ≡ after }
{}

/// In a legal history no generation passes the ceiling, and while a server is admitted there is room for the end of its
/// admission.
pub fn generation_within_ceiling<Q>()
    ensures within { (count ceiling : ℕ) (history : List (Entry Q)) (shard : ℕ) → IsLegal count ceiling history
        → let state = record_at (table_of count ceiling history) shard in
        state.generation ≤ ceiling }
    ensures room_to_end { (count ceiling : ℕ) (history : List (Entry Q)) (shard : ℕ) → IsLegal count ceiling history
        → let state = record_at (table_of count ceiling history) shard in
        IsTrue state.admitted → state.generation < ceiling }
{}

/// All requests of a shard in a longer history begin with those of the shorter one.
pub fn all_grows<Q>()
    ensures { (history later : List (Entry Q)) (shard : ℕ)
        → all_of (history ++ later) shard ≡ all_of history shard ++ all_of later shard }
{}

/// The requests that a shard keeps are the last ones of all its requests.
pub fn kept_ends_all<Q>()
    ensures within { (history : List (Entry Q)) (shard : ℕ) → first_of history shard ≤ length (all_of history shard) }
    ensures parts { (history : List (Entry Q)) (shard : ℕ)
        → take (first_of history shard) (all_of history shard) ++ kept history shard ≡ all_of history shard }
{}

/// An entry of a shard adds its request to the kept ones, or leaves them, or is a checkpoint: the shard then keeps
/// none, and all its requests came before the checkpoint. An entry of another shard leaves them.
pub fn kept_grows<Q>()
    ensures own { (history : List (Entry Q)) (entry : Entry Q)
        → kept (history ++ entry ∷ []) entry.shard ≡ kept_after (kept history entry.shard) (ending_of entry.kind) }
    ensures checkpoint { (history : List (Entry Q)) (actor shard : ℕ)
        → let longer = history ++ record { actor = actor; shard = shard; kind = Done Checkpoint } ∷ [] in
        (kept longer shard ≡ []) × (first_of longer shard ≡ length (all_of history shard)) }
    ensures others { (history : List (Entry Q)) (entry : Entry Q) (shard : ℕ) → entry.shard ≢ shard
        → kept (history ++ entry ∷ []) shard ≡ kept history shard }
{}

/// In a legal history the next or previous server of a migration is never the shard's owner.
pub fn two_servers<Q>()
    ensures { (count ceiling : ℕ) (history : List (Entry Q)) (shard : ℕ) → IsLegal count ceiling history
        → IsApart (record_at (table_of count ceiling history) shard).stand }
{}

/// While a shard is neither vacant nor paused, no phase of a migration refuses by its stand a request that comes
/// directly to the shard's owner, or to its previous owner until that one drops the shard. Either the stand makes the
/// server execute it, or the server forwards it to the executor. The executor accepts it and forwards nothing, also
/// after `AddShard` and `DropShard`. The law says nothing about a `Cancel` in the meantime.
pub fn no_phase_refuses<Q>()
    ensures { (count ceiling : ℕ) (history : List (Entry Q)) (shard server : ℕ) → IsLegal count ceiling history
        → let stand = (record_at (table_of count ceiling history) shard).stand in
        IsReached stand server → IsServed stand server }
{}

/// If a record accepts a server for a request that came in this mode, its admission is refused only if the shard is
/// admitted or its generations are spent.
pub fn accepted_is_admitted()
    ensures { (ceiling : ℕ) (state : Record) (server : ℕ) (mode : Mode) → IsTrue (accepts state server mode)
        → admit_fault ceiling state server mode
        ≡ (if state.admitted then Some Admitted else if nat_lt ceiling (state.generation + 2) then Some Spent
        else None) }
{}
