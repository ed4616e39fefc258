//! Laws of the caps of approved restarts, for the layers above: which steps and stands keep the caps.

ghost use Rattle.std.specs.Prelude.{◌≡◌, ℕ, ◌<◌, All, Ok, List, false, length, true};
ghost use Rattle.sm_ranges.specs.declared.stand.Stand.{Stand};
ghost use Rattle.sm_ranges.specs.declared.stand.Stand.TheVariants.{Prepared, Serving, Vacant};
ghost use Rattle.sm_rows.specs.declared.domain_row.DomainRow.{DomainRow};
ghost use Rattle.sm_rows.specs.declared.group_row.GroupRow.{GroupRow};
ghost use Rattle.sm_rows.specs.declared.server_row.ServerRow.{ServerRow};
ghost use Rattle.sm_place.specs.declared.server_state.ServerState.TheVariants.{Approved, Asked, Failed, Stopped, Up};
ghost use Rattle.sm_rows.specs.declared.shard_row.ShardRow.{ShardRow};
ghost use Rattle.sm_place.specs.Books.{BooksView, IsKnown, new_books, shard_at, state_of, with_stand, with_state};
ghost use Rattle.sm_ranges.specs.Stand.{AllNamed, names, is_paused};
ghost use Rattle.sm_place.specs.ServerState.{is_leaving};
ghost use Rattle.sm_tasks.specs.Approvals.{approvable, stoppable};
ghost use Rattle.sm_tasks.specs.Caps.{MeetsCaps, RestartCaps, TakesNoneLeaving};

/// If all servers are up and all shards are vacant, the books meet the caps. So do new books.
pub fn all_up_meets_caps()
    ensures all_up { (caps : RestartCaps) (books : BooksView)
        → All (λ state. state ≡ Up) books.states → All (λ shard. shard.stand ≡ Vacant) books.shards
        → MeetsCaps caps books }
    ensures new { (caps : RestartCaps) (servers : List ServerRow) (groups : List GroupRow) (shards : List ShardRow)
        (domains : List DomainRow)
        → MeetsCaps caps (new_books servers groups shards domains) }
{}

/// If a step of a restart is made, it keeps the caps. Coming back and failing keep them in every state.
pub fn steps_keep_caps()
    ensures ask { (caps : RestartCaps) (books : BooksView) (a : ℕ)
        → length books.states ≡ length books.servers → IsKnown books.servers a
        → MeetsCaps caps books → MeetsCaps caps (with_state books a Asked) }
    ensures approve { (caps : RestartCaps) (books : BooksView) (a : ℕ)
        → length books.states ≡ length books.servers → IsKnown books.servers a
        → approvable caps books a ≡ Ok tt → MeetsCaps caps books → MeetsCaps caps (with_state books a Approved) }
    ensures stopped { (caps : RestartCaps) (books : BooksView) (a : ℕ)
        → length books.states ≡ length books.servers → IsKnown books.servers a
        → stoppable books a ≡ Ok tt → MeetsCaps caps books → MeetsCaps caps (with_state books a Stopped) }
    ensures back { (caps : RestartCaps) (books : BooksView) (a : ℕ)
        → length books.states ≡ length books.servers → IsKnown books.servers a
        → MeetsCaps caps books → MeetsCaps caps (with_state books a Up) }
    ensures fail { (caps : RestartCaps) (books : BooksView) (a : ℕ)
        → length books.states ≡ length books.servers → IsKnown books.servers a
        → MeetsCaps caps books → MeetsCaps caps (with_state books a Failed) }
{}

/// A new stand of a shard keeps the caps if it takes on no server that is leaving. So they are kept if a server that
/// isn't leaving comes to serve the shard or is prepared beside the owner, and if a shard that is not paused names no
/// more servers than before. If a paused shard keeps naming a server that is leaving, it must stay paused.
pub fn stands_keep_caps()
    ensures taken { (caps : RestartCaps) (books : BooksView) (k : ℕ) (stand : Stand) → k < length books.shards
        → TakesNoneLeaving books (shard_at books.shards k).stand stand
        → MeetsCaps caps books → MeetsCaps caps (record books { shards = with_stand books.shards k stand }) }
    ensures serving { (caps : RestartCaps) (books : BooksView) (k a : ℕ) → k < length books.shards
        → is_leaving (state_of books a) ≡ false
        → MeetsCaps caps books → MeetsCaps caps (record books { shards = with_stand books.shards k (Serving a) }) }
    ensures prepared { (caps : RestartCaps) (books : BooksView) (k owner a : ℕ) → k < length books.shards
        → (shard_at books.shards k).stand ≡ Serving owner → is_leaving (state_of books a) ≡ false
        → MeetsCaps caps books
        → MeetsCaps caps (record books { shards = with_stand books.shards k (Prepared owner a) }) }
    ensures fewer { (caps : RestartCaps) (books : BooksView) (k : ℕ) (stand : Stand) → k < length books.shards
        → is_paused (shard_at books.shards k).stand ≡ false
        → AllNamed (λ a. names (shard_at books.shards k).stand a ≡ true) stand
        → MeetsCaps caps books → MeetsCaps caps (record books { shards = with_stand books.shards k stand }) }
{}
