//! Changes of stands by the chair.
ghost use Rattle.std.specs.Prelude.{◌≡◌, ◌<◌, ◌≤◌, false, None, Some, IfErr, IfOk, OnOk};
ghost use Rattle.sm_ownership.specs.declared.entry.Kind.TheVariants.{Change as Changed};
ghost use Rattle.sm_ownership.specs.History.{after_change};
ghost use Rattle.sm_ownership.specs.Rules.{phase_fault, stand_after};
ghost use Rattle.sm_word.specs.Known.{NewlyNamesServer};
ghost use Rattle.sm_rule.specs.Changes.{ChairAdds, ChairLooks, Forbids, NotMade, record_at_chair};

use super::Board;
use crate::chair::Chair;
use crate::change_refusal::ChangeRefusal;
use crate::rule::Asks;
use sm_body::service::Service;
use sm_ownership::change::Change;
use sm_ownership::record::Record;
use sm_ranges::shard_id::ShardId;
use sm_ranges::stand::Stand;
use sm_word::word::pack;
use std::marker::Brand;

impl<S: Service> Board<S> {
    /// Makes the change, if the shard's stand in the history that the chair has seen allows it. Otherwise returns that
    /// the shard's generations are spent, that the shard is admitted, or that the call was overtaken. A refusal adds no
    /// entry of the chair. No clause says that a call adds no entries of other actors.
    pub fn change(
        &self,
        chair: &mut Chair<S>,
        k: ShardId,
        change: Change,
    ) -> Result<(), ChangeRefusal>
        requires board { chair.old.board ≡ self.now }
        requires shard { k < self.now.limits.count }
        requires fits { phase_fault (record_at_chair chair.old k).stand change ≡ None }
        ensures made { OnOk result (ChairAdds chair.old k change chair.new) }
        ensures refused { IfErr result
            (λ refusal. ChairLooks chair.old chair.new × NotMade chair.old chair.new k refusal) }
    {
        match change.apply_to(chair.stand(k)) {
            Ok(stand) => self.change_to(chair, k, &change, &stand),
            Err(_) => unreachable!(),
        }
    }

    /// Does the same as `change`. The caller must know that the change leads to this stand.
    pub fn change_to(
        &self,
        chair: &mut Chair<S>,
        k: ShardId,
        change: &Change,
        stand: &Stand,
    ) -> Result<(), ChangeRefusal>
        requires board { chair.old.board ≡ self.now }
        requires shard { k < self.now.limits.count }
        requires leads { stand_after (record_at_chair chair.old k).stand change.now ≡ Some stand.now }
        ensures made { OnOk result (ChairAdds chair.old k change.now chair.new) }
        ensures refused { IfErr result
            (λ refusal. ChairLooks chair.old chair.new × NotMade chair.old chair.new k refusal) }
    {
        self.change_as::<Brand>(chair, k, change, stand)
    }

    fn change_as<B: Asks<S::Request>>(
        &self,
        chair: &mut Chair<S>,
        k: ShardId,
        change: &Change,
        stand: &Stand,
    ) -> Result<(), ChangeRefusal>
        requires board { chair.old.board ≡ self.now }
        requires shard { k < self.now.limits.count }
        requires leads { stand_after (record_at_chair chair.old k).stand change.now ≡ Some stand.now }
        requires kind { B.kind ≡ Changed change.now }
        ensures made { OnOk result (ChairAdds chair.old k change.now chair.new) }
        ensures refused { IfErr result
            (λ refusal. ChairLooks chair.old chair.new × NotMade chair.old chair.new k refusal) }
    {
        let (word, read) = self.load(&mut chair.seat, k);
        let next = self.changed(&read, change, stand)?;
        let new = pack(next);
        match self.exchange::<B>(&mut chair.seat, k, &read, &next, word, new) {
            Ok(()) => {
                chair.stands[k.index()] = next.stand;
                Ok(())
            }
            Err((_, found)) => Err(ChangeRefusal::Raced { read, found }),
        }
    }

    // Returns the record after the change, which leads to this stand; or why the record read doesn't allow a change
    // now.
    fn changed(
        &self,
        read: &Record,
        change: &Change,
        stand: &Stand,
    ) -> Result<Record, ChangeRefusal>
        requires leads { stand_after read.now.stand change.now ≡ Some stand.now }
        requires below { read.now.generation ≤ self.now.limits.ceiling }
        ensures known { OnOk result (NewlyNamesServer change.now) }
        ensures idle { OnOk result (read.now.admitted ≡ false) }
        ensures below { OnOk result (read.now.generation < self.now.limits.ceiling) }
        ensures next { IfOk result (λ next. next ≡ after_change read.now change.now) }
        ensures refused { IfErr result (λ refusal. Forbids self.now.limits.ceiling read.now refusal) }
    {
        names_servers(change);
        if read.generation >= self.ceiling {
            return Err(ChangeRefusal::Spent(*read));
        }
        if read.admitted {
            return Err(ChangeRefusal::Busy(*read));
        }
        Ok(Record {
            stand: *stand,
            admitted: false,
            generation: read.generation + 1,
        })
    }
}

// Shows that the servers in a change have valid numbers. Reading a number tells that to the proof, and does nothing
// else.
fn names_servers(change: &Change)
    ensures { NewlyNamesServer change.now }
{
    match change {
        Change::Assign(server) | Change::PrepareAddShard(server) | Change::Reassign(server) => {
            let _ = server.number();
        }
        _ => {}
    }
}
