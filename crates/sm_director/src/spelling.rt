//! The compares and writes of a command's transaction, as bytes.
ghost use Rattle.std.specs.Prelude.{◌≡◌, ◌++◌, IfErr, IfOk, OnOk};
ghost use Rattle.sm_director.specs.Calls.{IsWrittenTo, SpellsCommand, written_bytes};
ghost use Rattle.sm_director.specs.Refusals.{IsUnreadable, IsUnspelled, LacksSpace};
ghost use Rattle.sm_director.specs.Resettlings.{SpellsResettling};

use crate::command_numbers::CommandNumbers;
use crate::director_fault::DirectorFault;
use crate::kinds::number_of;
use crate::words::has_word;
use crate::written::write;
use sm_codec::{StoredRecord, StoredState, write_process, write_record, write_state};
use sm_lead::{CommandSending, CommandWrite, StoreControl};
use std::alloc::{AllocError, Global};

/// Writes the compares of the transaction, and the bytes of its writes.
pub(crate) fn spell(
    alloc: Global,
    sending: &CommandSending,
    numbers: &mut CommandNumbers,
    into: &mut [u8],
) -> Result<(), DirectorFault>
    ensures spelled { OnOk result (SpellsCommand sending.now numbers.new into.new) }
    ensures refused { IfErr result IsUnspelled }
{
    let written = written_by(alloc, sending.process, &sending.write)?;
    let commands = write_process(alloc, sending.process)?;
    let (number, is_state) = written_to(&sending.write);
    let compared = CommandNumbers {
        elected: sending.elected,
        placed: sending.placed,
        length: written.len(),
        commands_length: commands.len(),
        number,
        absent: number_of(sending.absent),
        is_state,
    };
    let bytes = joined(written, &commands)?;
    if !write(&bytes, into) {
        return Err(DirectorFault::TooShort);
    }
    *numbers = compared;
    Ok(())
}

/// Writes the compares of the transaction by which the control writes other settings, and the bytes for the key of
/// commands. The caller has those of the settings.
pub(crate) fn spell_resettling(
    alloc: Global,
    control: &StoreControl,
    numbers: &mut CommandNumbers,
    into: &mut [u8],
) -> Result<(), DirectorFault>
    ensures spelled { OnOk result (SpellsResettling control.now numbers.new into.new) }
    ensures refused { IfErr result LacksSpace }
{
    let commands = write_process(alloc, control.lead.process)?;
    if !write(&commands, into) {
        return Err(DirectorFault::TooShort);
    }
    *numbers = CommandNumbers {
        elected: control.lead.elected,
        placed: control.placed,
        length: 0,
        commands_length: commands.len(),
        number: 0,
        absent: 0,
        is_state: false,
    };
    Ok(())
}

// Returns the bytes that the command writes to the shard's record or to the server's state.
fn written_by(alloc: Global, process: u64, write: &CommandWrite) -> Result<Vec<u8>, DirectorFault>
    ensures refused { IfErr result IsUnreadable }
    ensures written { IfOk result (λ bytes. bytes.items ≡ written_bytes process write.now) }
{
    match write {
        CommandWrite::Record { next, .. } => {
            if !has_word(next) {
                return Err(DirectorFault::Bytes);
            }
            let bytes = write_record(
                alloc,
                &StoredRecord {
                    state: *next,
                    process,
                },
            )?;
            Ok(bytes)
        }
        CommandWrite::State { run, .. } => {
            let bytes = write_state(alloc, &StoredState { run: *run, process })?;
            Ok(bytes)
        }
    }
}

// Returns the shard or the server of that record or state, and whether it is a state.
fn written_to(write: &CommandWrite) -> (u16, bool)
    ensures { (numbers : _) → numbers.number ≡ result.0 → numbers.is_state ≡ result.1 → IsWrittenTo write.now numbers }
{
    match write {
        CommandWrite::Record { shard, .. } => (shard.number(), false),
        CommandWrite::State { server, .. } => (server.number(), true),
    }
}

// Returns the bytes, followed by those of the tail.
fn joined(bytes: Vec<u8>, tail: &[u8]) -> Result<Vec<u8>, AllocError>
    ensures { IfOk result (λ all. all.items ≡ bytes.items ++ tail.now) }
{
    let mut all = bytes;
    all.extend_from_slice(tail)?;
    Ok(all)
}
