//! How two passes of one board relate. These laws take steps, and combine the contracts of the other files. No running
//! code calls them.
ghost use Rattle.std.specs.Prelude.{◌≡◌, ◌≢◌};
ghost use Rattle.sm_rule.specs.Admissions.{HoldsPermit};
ghost use Rattle.sm_rule.specs.Passes.{HoldsInSeen, PassLooks};
ghost use Rattle.sm_rule.specs.Views.{Begins};

use super::Board;
use crate::pass::Pass;
use crate::permit::Permit;
use sm_body::service::Service;

impl<S: Service> Board<S> {
    /// Two permits that are held at one moment are of different shards, whoever holds them.
    pub fn apart(
        &self,
        mine: &mut Pass<S>,
        permit: &Permit<S>,
        theirs: &mut Pass<S>,
        other: &Permit<S>,
    )
        requires mine { mine.old.board ≡ self.now }
        requires theirs { theirs.old.board ≡ self.now }
        requires permit { HoldsPermit mine.old permit.now }
        requires other { HoldsPermit theirs.old other.now }
        ensures apart { permit.now.shard ≢ other.now.shard }
        ensures mine { PassLooks mine.old mine.new }
        ensures theirs { PassLooks theirs.old theirs.new }
    {
        self.differ(mine, theirs);
        self.one_history(mine, theirs);
        self.one_history(theirs, mine);
        // The knowledge that a pass was told leaves open whether it has acted since, so it looks once more.
        self.one_history(mine, theirs);
    }

    /// Two passes have different numbers.
    pub fn differ(&self, one: &mut Pass<S>, other: &mut Pass<S>)
        requires one { one.old.board ≡ self.now }
        requires other { other.old.board ≡ self.now }
        ensures numbers { one.old.number ≢ other.old.number }
        ensures one { PassLooks one.old one.new }
        ensures other { PassLooks other.old other.new }
    {
        let first = self.cut(&mut one.seat);
        self.take_in(&mut other.seat, first);
        let second = self.cut(&mut other.seat);
        self.take_in(&mut one.seat, second);
    }

    /// The histories that two passes have seen are parts of one history. After this call the other one has seen
    /// everything that either had. If it holds a shard, that is in its history.
    pub fn one_history(&self, one: &mut Pass<S>, other: &mut Pass<S>)
        requires one { one.old.board ≡ self.now }
        requires other { other.old.board ≡ self.now }
        ensures unchanged { one.new ≡ one.old }
        ensures looks { PassLooks other.old other.new }
        ensures seen { Begins one.old.seen other.new.seen }
        ensures holds { HoldsInSeen other.new }
    {
        let half = self.cut(&mut one.seat);
        self.take_in(&mut other.seat, half);
    }
}
