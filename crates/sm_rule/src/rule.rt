//! The rule that every step on a board keeps, and the kinds of step.

use crate::origin::Origin;
use crate::view::View;
use atomic_table::{Join, Play, Split, TableRule};
use sm_body::service::Service;
use std::marker::{Brand, PhantomData};

/// The rule's requirement on bodies: each rests on the requests of its shard, of which so many came before its base;
/// and the most requests that it keeps.
pub trait Keeping<S, Q> {
    ghost use Rattle.std.specs.Prelude.{ℕ, List};

    ghost keeps: { S → ℕ → List Q → Type 0 };

    ghost limit: { S → ℕ };
}

/// The requests that the bodies of a service keep.
pub struct Kept<S> {
    service: PhantomData<S>,
}

impl<S: Service> Keeping<S, S::Request> for Kept<S> {
    ghost use Rattle.sm_rule.specs.Bodies.{Keeps};

    ghost keeps = { Keeps S.initial S.next S.base S.before S.requests };

    ghost limit = { S.limit };
}

/// The properties of a board's words and bodies, and of each seat's knowledge. It is generic in `Keeping`, and not in
/// the service itself, so that a thread can be started over a board.
pub struct BoardRule<P> {
    keeping: PhantomData<P>,
}

impl<S, Q, P: Keeping<S, Q>> TableRule<Option<S>, View<Q>, Origin<S>> for BoardRule<P> {
    ghost use Rattle.std.specs.Prelude.{[], None};
    ghost use Rattle.sm_rule.specs.Boards.{limits_of};
    ghost use Rattle.sm_rule.specs.Rule.{Rule};
    ghost use Rattle.sm_rule.specs.Views.{newcomer};

    ghost holds = { λ origin table.
        Rule P.keeps P.limit (limits_of P.limit origin.count origin.ceiling origin.bodies.value.items) table };

    // The chair's.
    ghost first = { λ origin.
        newcomer (limits_of P.limit origin.count origin.ceiling origin.bodies.value.items) 0 None [] };
}

/// A load of a word.
pub struct Load;

impl<S, Q> Play<Option<S>, View<Q>> for Load {
    ghost use Rattle.sm_rule.specs.Steps.{Loaded};

    ghost then = { Loaded };
}

// The meaning of a step depends on its brand, and a proof picks the brand at a call from the arguments only. So `pass`,
// `admit`, `change` and `finish` each have a twin with the same clauses, whose call picks the brand.

/// The server of a new seat. Each call picks it.
pub trait Hires {
    ghost use Rattle.std.specs.Prelude.{ℕ, Option};

    ghost server: { Option ℕ };
}

impl Hires for Brand {
    ghost use Rattle.std.specs.Prelude.{None};

    ghost server = { None };
}

/// The first load of a new seat.
pub struct Enter<B> {
    hires: PhantomData<B>,
}

impl<S, Q, B: Hires> Play<Option<S>, View<Q>> for Enter<B> {
    ghost use Rattle.sm_rule.specs.Steps.{Entered};

    ghost then = { Entered B.server };
}

/// The kind of the entry that a step adds. Each call picks it.
pub trait Asks<Q> {
    ghost use Rattle.sm_ownership.specs.declared.entry.Kind.{Kind};

    ghost kind: { Kind Q };
}

impl<Q> Asks<Q> for Brand {
    ghost use Rattle.sm_ownership.specs.declared.entry.Ending.TheVariants.{Nothing};
    ghost use Rattle.sm_ownership.specs.declared.entry.Kind.TheVariants.{Done};

    ghost kind = { Done Nothing };
}

/// A compare-exchange. If it is won, it admits and takes the shard's slot, or changes the stand. Otherwise it is a
/// load.
pub struct Exchange<P, B> {
    asks: PhantomData<(P, B)>,
}

impl<S, Q, P: Keeping<S, Q>, B: Asks<Q>> Play<Option<S>, View<Q>> for Exchange<P, B> {
    ghost use Rattle.sm_rule.specs.Steps.{Exchanged};

    ghost then = { Exchanged P.keeps P.limit B.kind };
}

/// The store that ends an admission, and gives the slot back.
pub struct Store<B> {
    asks: PhantomData<B>,
}

impl<S, Q, B: Asks<Q>> Play<Option<S>, View<Q>> for Store<B> {
    ghost use Rattle.sm_rule.specs.Steps.{Stored};

    ghost then = { Stored B.kind };
}

/// How a seat is cut in two, and how it takes in another.
pub struct Halves;

impl<Q> Split<View<Q>> for Halves {
    ghost use Rattle.sm_rule.specs.Views.{cut_off, cutting};

    ghost left = { cutting };

    ghost right = { cut_off };
}

impl<Q> Join<View<Q>> for Halves {
    ghost use Rattle.sm_rule.specs.Views.{informed, left_behind};

    ghost both = { informed };

    ghost spent = { left_behind };
}

/// The first load of a seat that was cut from another.
pub struct Enroll;

impl<S, Q> Play<Option<S>, View<Q>> for Enroll {
    ghost use Rattle.sm_rule.specs.Steps.{Enrolled};

    ghost then = { Enrolled };
}

/// The load after another seat was taken in.
pub struct Meet;

impl<S, Q> Play<Option<S>, View<Q>> for Meet {
    ghost use Rattle.sm_rule.specs.Steps.{Met};

    ghost then = { Met };
}
