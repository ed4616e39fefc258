//! The end of a board.
ghost use Rattle.core.specs.Mem.Slots.{IsFull, slots_items, slots_len};
ghost use Rattle.std.specs.Prelude.{◌≡◌, ◌≤◌, [], None, length, vec_capacity, if◌then◌else◌};
ghost use Rattle.sm_rule.specs.Bodies.{Keeps};
ghost use Rattle.sm_rule.specs.Closing.{AreTaken, AreWords, WasClosed};

use super::Board;
use crate::chair::Chair;
use crate::pass::Pass;
use atomic_table::Closed;
use sm_body::service::Service;
use sm_ownership::record::Record;
use sm_word::word::record_of_word;
use std::alloc::Global;

impl<S: Service> Board<S> {
    /// Ends the board. Returns each shard's record, and the body of each idle shard, which has the shard's limit and
    /// rests on all its requests, after one legal history. That history extends everything that the chair had seen by
    /// entries of passes, and extends everything that the pass had seen. If a shard's permit was never spent, its body
    /// is missing.
    pub fn close(self, chair: Chair<S>, pass: Pass<S>) -> Vec<(Record, Option<S>)>
        requires board { chair.board ≡ self }
        requires pass { pass.board ≡ self }
        requires free { pass.held ≡ None }
        ensures { WasClosed (Keeps S.initial S.next S.base S.before S.requests) S.limit chair pass result.items }
    {
        let Chair {
            mut seat,
            stands: _,
            room,
        } = chair;
        let Pass {
            seat: other,
            server: _,
        } = pass;
        self.take_in(&mut seat, other);
        let Board {
            table,
            count: _,
            ceiling: _,
        } = self;
        emptied(table.close_with(seat), room)
    }
}

// Returns each shard's record, and its body if it isn't admitted.
fn emptied<S: Drop>(
    mut closed: Closed<Option<S>, Global>,
    mut rows: Vec<(Record, Option<S>)>,
) -> Vec<(Record, Option<S>)>
    requires room { (rows.items ≡ []) × (slots_len closed.slots ≤ vec_capacity rows) }
    requires full { IsFull closed.words × IsFull closed.slots × (slots_len closed.words ≡ slots_len closed.slots) }
    requires words { AreWords (slots_items closed.words) }
    ensures length { length result.items ≡ slots_len closed.slots }
    ensures rows { AreTaken (slots_items closed.words) (slots_items closed.slots) result.items }
{
    for shard in 0..closed.slot_count() {
        let state = record_of_word(closed.word(shard));
        let slot = closed.take(shard);
        let body = at_home(slot, &state);
        let Ok(()) = rows.push((state, body)) else {
            unreachable!()
        };
    }
    closed.free();
    rows
}

// Returns the body in the slot of a shard with this record, if it is at home.
fn at_home<S: Drop>(slot: Option<S>, state: &Record) -> Option<S>
    ensures { result ≡ (if state.now.admitted then None else slot) }
{
    if state.admitted { None } else { slot }
}
