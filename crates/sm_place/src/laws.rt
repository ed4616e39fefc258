//! Laws of the definitions, for the layers above: which stands leave room.

ghost use Rattle.std.specs.Prelude.{◌≡◌, ◌⊎◌, ℕ, ◌<◌, Ok, length, true, false};
ghost use Rattle.sm_ranges.specs.declared.stand.Stand.{Stand};
ghost use Rattle.sm_ranges.specs.declared.stand.Stand.TheVariants.{Prepared, Serving};
ghost use Rattle.sm_place.specs.Books.{BooksView, shard_at, state_of, with_stand};
ghost use Rattle.sm_place.specs.Room.{fit, HasRoom};
ghost use Rattle.sm_ranges.specs.Stand.{AllNamed, names};
ghost use Rattle.sm_place.specs.ServerState.{is_leaving};

/// If a shard fits a server, the server is not leaving. There is then room for each stand that names this server, and
/// beside it only servers that the shard names already. So there is room for the server to serve the shard, or to be
/// prepared beside the owner.
pub fn fit_leaves_room()
    ensures stays { (books : BooksView) (k a : ℕ) → fit books k a ≡ Ok tt → is_leaving (state_of books a) ≡ false }
    ensures named { (books : BooksView) (k a : ℕ) (stand : Stand) → k < length books.shards
        → HasRoom books.servers books.groups books.shards → fit books k a ≡ Ok tt
        → AllNamed (λ b. (b ≡ a) ⊎ (names (shard_at books.shards k).stand b ≡ true)) stand
        → HasRoom books.servers books.groups (with_stand books.shards k stand) }
    ensures serving { (books : BooksView) (k a : ℕ) → k < length books.shards
        → HasRoom books.servers books.groups books.shards → fit books k a ≡ Ok tt
        → HasRoom books.servers books.groups (with_stand books.shards k (Serving a)) }
    ensures prepared { (books : BooksView) (k a owner : ℕ) → k < length books.shards
        → HasRoom books.servers books.groups books.shards → fit books k a ≡ Ok tt
        → (shard_at books.shards k).stand ≡ Serving owner
        → HasRoom books.servers books.groups (with_stand books.shards k (Prepared owner a)) }
{}

/// If a stand names only servers that the shard names already, it leaves room.
pub fn fewer_names_leave_room()
    ensures { (books : BooksView) (k : ℕ) (stand : Stand) → k < length books.shards
        → HasRoom books.servers books.groups books.shards
        → AllNamed (λ b. names (shard_at books.shards k).stand b ≡ true) stand
        → HasRoom books.servers books.groups (with_stand books.shards k stand) }
{}
