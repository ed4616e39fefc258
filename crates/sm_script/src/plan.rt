ghost use Rattle.std.specs.Prelude.{◌≡◌, ◌++◌, OnOk, OnErr, codes, flat_map};
ghost use Rattle.sm_script.specs.Answers.{left_text, move_text, plan_text};

use crate::append::append_all;
use itoa::Buffer;
use sm_place::{Move, Plan};
use sm_ranges::shard_id::ShardId;
use std::alloc::AllocError;

// Appends a move.
fn append_move(out: &mut Vec<u8>, one: &Move) -> Result<(), AllocError>
    ensures ok { OnOk result (out.new.items ≡ out.old.items ++ move_text one.now) }
    ensures err { OnErr result (out.new.items ≡ out.old.items) }
{
    let mut shard = Buffer::new();
    let mut to = Buffer::new();
    append_all(
        out,
        &[
            b" ",
            shard.format(one.shard.number()).as_bytes(),
            b">",
            to.format(one.to.number()).as_bytes(),
        ],
    )
}

// Appends the moves.
fn append_moves(out: &mut Vec<u8>, moves: &[Move]) -> Result<(), AllocError>
    ensures ok { OnOk result (out.new.items ≡ out.old.items ++ (codes "plan" ++ flat_map move_text moves.now)) }
    ensures err { OnErr result (out.new.items ≡ out.old.items) }
{
    let start = out.len();
    append_all(out, &[b"plan"])?;
    for one in moves {
        if append_move(out, one).is_err() {
            out.truncate(start);
            return Err(AllocError);
        }
    }
    Ok(())
}

// Appends a shard that the plan leaves.
fn append_shard(out: &mut Vec<u8>, shard: ShardId) -> Result<(), AllocError>
    ensures ok { OnOk result (out.new.items ≡ out.old.items ++ left_text shard) }
    ensures err { OnErr result (out.new.items ≡ out.old.items) }
{
    let mut number = Buffer::new();
    append_all(out, &[b" ", number.format(shard.number()).as_bytes()])
}

// Appends the shards that the plan leaves.
fn append_left(out: &mut Vec<u8>, left: &[ShardId]) -> Result<(), AllocError>
    ensures ok { OnOk result (out.new.items ≡ out.old.items ++ (codes " left" ++ flat_map left_text left.now)) }
    ensures err { OnErr result (out.new.items ≡ out.old.items) }
{
    let start = out.len();
    append_all(out, &[b" left"])?;
    for shard in left {
        if append_shard(out, *shard).is_err() {
            out.truncate(start);
            return Err(AllocError);
        }
    }
    Ok(())
}

/// Appends the text of a plan.
pub(crate) fn append_plan(out: &mut Vec<u8>, plan: &Plan) -> Result<(), AllocError>
    ensures ok { OnOk result (out.new.items ≡ out.old.items ++ plan_text plan.now) }
    ensures err { OnErr result (out.new.items ≡ out.old.items) }
{
    let start = out.len();
    append_moves(out, plan.moves())?;
    if append_left(out, plan.left()).is_err() {
        out.truncate(start);
        return Err(AllocError);
    }
    Ok(())
}
