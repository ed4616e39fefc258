ghost use Rattle.std.specs.Prelude.{◌≡◌, map, IfOk};
ghost use Rattle.sm_map.specs.Val.{row_of};

use crate::pair::Pair;
use sm_map::val::Val;
use std::alloc::{AllocError, Global};
use std::marker::Model;

/// The pairs that a scan found, in the order of their keys.
#[derive(Drop)]
pub struct PairList {
    pairs: Vec<Pair>,
}

impl Model for PairList {
    ghost use Rattle.std.specs.Prelude.{List};
    ghost use Rattle.sm_map.specs.KeyMap.{KeyPair};

    ghost Value = { List KeyPair };

    ghost view = { λ list. list.pairs.items };
}

impl PairList {
    // Returns a copy of a map's rows.
    pub(crate) fn new(alloc: Global, rows: &[(&[u8], Val<'_>)]) -> Result<PairList, AllocError>
        ensures { IfOk result (λ list. list ≡ map row_of rows.now) }
    {
        let mut pairs = Vec::with_capacity(alloc, rows.len())?;
        for row in rows {
            pairs.push(Pair::new(alloc, row)?)?;
        }
        Ok(PairList { pairs })
    }

    /// Returns the pairs.
    pub fn as_slice(&self) -> &[Pair]
        ensures { result.now ≡ self.now }
    {
        &self.pairs
    }
}
