//! The facts about a table of route words, and the kinds of step.

use crate::word_view::WordView;
use atomic_table::{Play, Seat, Split, Table, TableRule};
use std::alloc::Global;

/// Each word is that of its shard's last route, in one list of publications. The publisher has seen all of them, and
/// each router the first ones.
pub struct WordRule;

impl TableRule<(), WordView, usize> for WordRule {
    ghost use Rattle.std.specs.Prelude.{[]};
    ghost use Rattle.sm_publish.specs.WordSteps.{WordRuleHolds};

    ghost holds = { λ count. WordRuleHolds count };

    // This is the publisher's view.
    ghost first = { λ count. record { count = count; seen = [] } };
}

/// The publisher's load of a word.
pub struct RouteRecall;

impl Play<(), WordView> for RouteRecall {
    ghost use Rattle.sm_publish.specs.WordSteps.{RouteRecalled};

    ghost then = { RouteRecalled };
}

/// The publisher's store of a word, which publishes its route.
pub struct RouteStore;

impl Play<(), WordView> for RouteStore {
    ghost use Rattle.sm_publish.specs.WordSteps.{RouteStored};

    ghost then = { RouteStored };
}

/// A router's load of a word.
pub struct RouteLoad;

impl Play<(), WordView> for RouteLoad {
    ghost use Rattle.sm_publish.specs.WordSteps.{RouteRead};

    ghost then = { RouteRead };
}

/// A router is cut from the publisher, and has seen everything that the publisher has seen.
pub struct RouterCut;

impl Split<WordView> for RouterCut {
    ghost left = { λ view. view };

    ghost right = { λ view. view };
}

/// A table with a word for each shard.
pub type WordTable = Table<(), WordView, usize, WordRule, Global>;

/// The seat with which a publisher or a router takes its steps.
pub type WordSeat = Seat<(), WordView>;
