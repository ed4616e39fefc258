//! The record that a refused call had read.
ghost use Rattle.std.specs.Prelude.{◌≡◌};
ghost use Rattle.sm_c.specs.Reading.{TellsAdmission, TellsRecord, act_read, refusal_read};
ghost use Rattle.sm_rule.specs.Admissions.{record_told};

use crate::record_parts::RecordParts;
use sm_desk::CommandFault;
use sm_handle::ActFault;
use sm_ownership::change_fault::ChangeFault;
use sm_ownership::record::Record;
use sm_rule::AdmitRefusal;
use sm_server::{CheckpointFault, Refusal};
use sm_word::word::record_of_word;

/// Writes the record that a refused call had read, if it read one. An admission's record comes from its word, which is
/// the short way.
#[inline(always)]
pub(crate) fn tell_parts(fault: &ActFault, read: &mut RecordParts)
    ensures { TellsRecord (act_read fault.now) read.old read.new }
{
    match fault {
        ActFault::Admit(refusal) => *read = RecordParts::of_word(refusal.word()),
        _ => tell(read_of(fault), read),
    }
}

/// Writes the word of the record that a refused admission had read, if it read one.
#[inline(always)]
pub(crate) fn tell_word(fault: &ActFault, word: &mut u64)
    ensures { TellsAdmission fault.now word.old word.new }
{
    match fault {
        ActFault::Admit(refusal) => *word = refusal.word(),
        _ => {}
    }
}

/// Writes the record, if there is one.
#[inline(always)]
pub(crate) fn tell(state: Option<Record>, read: &mut RecordParts)
    ensures { TellsRecord state read.old read.new }
{
    match state {
        Some(state) => *read = RecordParts::of(&state),
        None => {}
    }
}

/// Returns the record by which a server refused an envelope, or the record that was found in its place.
pub(crate) fn read_of_refusal(refusal: &Refusal) -> Option<Record>
    ensures { result ≡ refusal_read refusal.now }
{
    match refusal {
        Refusal::Admit(refusal) => Some(read_of_admission(refusal)),
        _ => None,
    }
}

fn read_of_admission(refusal: &AdmitRefusal) -> Record
    ensures { result ≡ record_told refusal.now }
{
    match refusal {
        AdmitRefusal::Refused(_, read) => *read,
        AdmitRefusal::Raced { read: _, found } => *found,
    }
}

/// Returns the record by which a call was refused, or the record that was found in its place; nothing if no record was
/// read.
#[inline(always)]
pub(crate) fn read_of(fault: &ActFault) -> Option<Record>
    ensures { result ≡ act_read fault.now }
{
    match fault {
        ActFault::Admit(refusal) => Some(record_of_word(refusal.word())),
        ActFault::Checkpoint(CheckpointFault::Admit(refusal)) => Some(read_of_admission(refusal)),
        ActFault::Command(CommandFault::Raced { read: _, found }) => Some(*found),
        ActFault::Command(CommandFault::Change(ChangeFault::Spent(read))) => Some(*read),
        ActFault::Command(CommandFault::Change(ChangeFault::Busy(read))) => Some(*read),
        _ => None,
    }
}
