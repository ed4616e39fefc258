//! The law of permits.

ghost use Rattle.std.specs.Prelude.{◌≡◌, ◌≤◌, ℕ, IsTrue, true, List};
ghost use Rattle.sm_ownership.specs.declared.mode.Mode.{Mode};
ghost use Rattle.sm_store.specs.Store.{stored_record};
ghost use Rattle.sm_store.specs.Clients.{Automaton};
ghost use Rattle.sm_store.specs.System.{Event, MightHappen, system_after};
ghost use Rattle.sm_store.specs.Deeds.{AreRight, Charter};
ghost use Rattle.sm_permit.specs.declared.shard_view.ShardView.{ShardView};
ghost use Rattle.sm_permit.specs.Timelines.{TimedStep, latest_moment, stored};
ghost use Rattle.sm_store.specs.Waits.{MayLetGo};
ghost use Rattle.sm_permit.specs.Waits.{KeepsWaits, let_go_of};
ghost use Rattle.sm_permit.specs.Permits.{AreSafe, HasPermit, OnePermit, Terms};
ghost use Rattle.sm_permit.specs.Runs.{IsMoved};
ghost use Rattle.sm_permit.specs.Views.{AreOne, StaysKnown, Knows, WasGranted, may_ack, may_execute, new_view};

use sm_store::laws::runs_are_lawful;

/// At each moment at most one process may execute requests for a shard. Take any timeline whose log keeps the law of
/// the store, as it does in every run, with a charter whose commands must wait for acks, so that the changes that give
/// a shard to another server have waited for the server that may still execute. If the store ends no lease early, and
/// if no clock is slower than the terms say, then two permits for one shard at one moment belong to one process.
pub fn one_permit<Q, P>()
    ensures { (charter : Charter Q P) (terms : Terms) (timeline : List (TimedStep Q P)) → IsTrue charter.waits
        → AreSafe terms → AreRight charter (stored timeline) → KeepsWaits terms.length timeline
        → OnePermit terms timeline }
{}

/// The same holds in every run of all processes over the store, if the timeline gives the run its moments.
pub fn one_permit_in_runs<Q, P, R, S>()
    ensures { (service : Automaton S Q R) (charter : Charter Q P) (events : List (Event Q P R)) (terms : Terms)
        (timeline : List (TimedStep Q P)) → IsTrue charter.waits → MightHappen service charter events
        → (system_after events).log ≡ stored timeline → AreSafe terms → KeepsWaits terms.length timeline
        → OnePermit terms timeline }
{
    runs_are_lawful::<Q, P, R, S>();
    one_permit::<Q, P>();
}

/// If the knowledge of a process is true, the process has a permit whenever `ShardView::may_execute` says that it may
/// execute. So of all processes that decide by that, at most one may execute at one moment, if commands wait for acks.
/// If `may_ack` says so, an ack of its record is allowed.
pub fn views_decide<Q, P>()
    ensures permits { (terms : Terms) (clock : ℕ → ℕ) (timeline : List (TimedStep Q P)) (now shard : ℕ)
        (view : ShardView) (mode : Mode) → Knows terms clock timeline now shard view
        → may_execute view mode (clock now) ≡ true → HasPermit terms clock timeline now shard view.server mode }
    ensures one { (charter : Charter Q P) (terms : Terms) (timeline : List (TimedStep Q P)) → IsTrue charter.waits
        → AreSafe terms → AreRight charter (stored timeline) → KeepsWaits terms.length timeline
        → AreOne terms timeline }
    ensures acks { (charter : Charter Q P) (terms : Terms) (clock : ℕ → ℕ) (timeline : List (TimedStep Q P))
        (now shard : ℕ) (view : ShardView) → AreRight charter (stored timeline)
        → Knows terms clock timeline now shard view → may_ack view ≡ true
        → MayLetGo view.server view.reading.state.generation (stored_record shard (stored timeline)) }
{}

/// The knowledge of a process is true once it has joined. It stays true after each call that tells the process more,
/// and while others act.
pub fn views_know<Q, P>()
    ensures new { (terms : Terms) (clock : ℕ → ℕ) (timeline : List (TimedStep Q P)) (now shard server joined until : ℕ)
        → latest_moment timeline ≤ now → WasGranted terms clock timeline server joined until
        → let_go_of shard server joined timeline ≡ 0
        → Knows terms clock timeline now shard (new_view server joined until) }
    ensures told { (terms : Terms) (clock : ℕ → ℕ) (timeline : List (TimedStep Q P)) (now shard : ℕ) (view : ShardView)
        → Knows terms clock timeline now shard view → StaysKnown terms clock timeline now shard view }
{}

/// There is a run that keeps all of this, and in which a permit is given, and goes from one server to another.
pub fn permits_move<Q, P>()
    ensures { IsMoved Q P }
{}
