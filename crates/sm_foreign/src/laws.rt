//! Laws of the definitions, which hold for each board.
ghost use Rattle.std.specs.Prelude.{◌<◌, ◌+◌, ◌++◌, ℕ, List, [], ◌∷◌};
ghost use Rattle.sm_ownership.specs.declared.entry.Entry.{Entry};
ghost use Rattle.sm_ownership.specs.declared.entry.Kind.TheVariants.{Admit};
ghost use Rattle.sm_ownership.specs.declared.mode.Mode.{Mode};
ghost use Rattle.sm_ownership.specs.History.{IsLegal};
ghost use Rattle.sm_rule.specs.declared.limits.Limits.{Limits};
ghost use Rattle.sm_rule.specs.Views.{entry_of, record_in};

/// The fencing token of an admission is greater than the shard's generation gave at any point before it in the history
/// of the board, and so than the token of each earlier admission to the shard.
pub fn tokens_rise<Q>()
    ensures { (after : ℕ) (limits : Limits) (history others : List (Entry Q)) (actor shard server : ℕ) (mode : Mode)
        → let later = (history ++ others) ++ entry_of actor shard (Admit server mode) ∷ [] in
        IsLegal limits.count limits.ceiling later
        → after + (record_in limits history shard).generation < after + (record_in limits later shard).generation }
{}
