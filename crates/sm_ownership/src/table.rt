ghost use Rattle.std.specs.Prelude.{◌≡◌, ◌<◌, length, replicate, true, Some, IfOk, OnOk, OnErr};
ghost use Rattle.std.specs.Result.{result_err};
ghost use Rattle.sm_ownership.specs.History.{vacant, record_at};
ghost use Rattle.sm_ownership.specs.Rules.{admit_fault, stand_after};
ghost use Rattle.sm_ownership.specs.Tables.{apply_fault, record_fault, table_changed, table_admitted, table_done};

use crate::admit_fault::AdmitFault;
use crate::change::Change;
use crate::change_fault::ChangeFault;
use crate::mode::Mode;
use crate::record::Record;
use sm_ranges::server_id::ServerId;
use sm_ranges::shard_id::ShardId;
use sm_ranges::stand::Stand;
use std::alloc::{AllocError, Global};
use std::marker::Model;

/// The ownership table: each shard's record, and the ceiling. No generation passes the ceiling.
#[derive(Drop)]
pub struct Table {
    records: Vec<Record>,
    ceiling: u64,
}

impl Model for Table {
    ghost use Rattle.std.specs.Prelude.{All};
    ghost use Rattle.sm_ownership.specs.Tables.{TableView, IsBelowCeiling};

    ghost Value = { TableView };

    ghost view = { λ table. record { records = table.records.items; ceiling = table.ceiling } };

    ghost invariant = { λ table. All (IsBelowCeiling table.ceiling) table.records.items };
}

impl Table {
    /// Makes a table with this many shards, without history. All of them are vacant.
    pub fn new(alloc: Global, count: usize, ceiling: u64) -> Result<Table, AllocError>
        ensures records { IfOk result (λ table. table.records ≡ replicate count vacant) }
        ensures ceiling { IfOk result (λ table. table.ceiling ≡ ceiling) }
    {
        let vacant = Record {
            stand: Stand::Vacant,
            admitted: false,
            generation: 0,
        };
        Ok(Table {
            records: vec![in alloc; vacant; count]?,
            ceiling,
        })
    }

    /// Returns the greatest generation.
    pub fn ceiling(&self) -> u64
        ensures { result ≡ self.now.ceiling }
    {
        self.ceiling
    }

    /// Returns the number of shards.
    pub fn count(&self) -> usize
        ensures { result ≡ length self.now.records }
    {
        self.records.len()
    }

    /// Returns the record of the shard.
    pub fn record(&self, k: ShardId) -> Record
        requires { k < length self.now.records }
        ensures { result ≡ record_at self.now.records k }
    {
        let at = k.index();
        self.records[at]
    }

    /// Changes the stand of the shard, or returns the first fault that applies. If the change is refused, the table
    /// doesn't change.
    pub fn apply(&mut self, k: ShardId, change: Change) -> Result<(), ChangeFault>
        ensures fault { result_err result ≡ apply_fault self.old k change }
        ensures made { OnOk result (self.new ≡ table_changed self.old k change) }
        ensures unchanged { OnErr result (self.new ≡ self.old) }
    {
        if k.index() >= self.count() {
            return Err(ChangeFault::UnknownShard);
        }
        let stand = change.apply_to(self.record(k).stand)?;
        self.change_to(k, &change, &stand)
    }

    /// Does the same as `apply`. The caller must know that the shard exists and that the change leads to this stand, so
    /// only `Spent` and `Busy` can refuse it.
    pub fn change_to(
        &mut self,
        k: ShardId,
        change: &Change,
        stand: &Stand,
    ) -> Result<(), ChangeFault>
        requires known { k < length self.old.records }
        requires leads { stand_after (record_at self.old.records k).stand change.now ≡ Some stand.now }
        ensures fault { result_err result ≡ record_fault self.old.ceiling (record_at self.old.records k) }
        ensures made { OnOk result (self.new ≡ table_changed self.old k change.now) }
        ensures unchanged { OnErr result (self.new ≡ self.old) }
    {
        let next = self.record(k).changed_to(change, stand, self.ceiling)?;
        self.records[k.index()] = next;
        Ok(())
    }

    /// Admits the server to the shard, for a request that came in this mode, or returns the first fault that applies.
    /// If the admission is refused, the table doesn't change.
    pub fn admit(&mut self, k: ShardId, server: ServerId, mode: Mode) -> Result<(), AdmitFault>
        requires { k < length self.old.records }
        ensures fault { result_err result
            ≡ admit_fault self.old.ceiling (record_at self.old.records k) server mode }
        ensures admitted { OnOk result (self.new ≡ table_admitted self.old k) }
        ensures unchanged { OnErr result (self.new ≡ self.old) }
    {
        match self.record(k).admitted(server, mode, self.ceiling) {
            Ok(next) => {
                self.records[k.index()] = next;
                Ok(())
            }
            Err(fault) => Err(fault),
        }
    }

    /// Ends the shard's admission. There is always room for this below the ceiling.
    pub fn done(&mut self, k: ShardId)
        requires known { k < length self.old.records }
        requires admitted { (record_at self.old.records k).admitted ≡ true }
        ensures done { self.new ≡ table_done self.old k }
        ensures room { (record_at self.old.records k).generation < self.old.ceiling }
    {
        let next = self.record(k).ended();
        self.records[k.index()] = next;
    }
}
