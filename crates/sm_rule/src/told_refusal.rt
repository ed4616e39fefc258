ghost use Rattle.std.specs.Prelude.{◌≡◌};
ghost use Rattle.sm_rule.specs.Admissions.{fault_told, record_told};
ghost use Rattle.sm_rule.specs.declared.admit_refusal.AdmitRefusal.TheVariants.{Refused, Raced};
ghost use Rattle.sm_rule.specs.Words.{IsWordOf};

use crate::admit_refusal::AdmitRefusal;
use sm_ownership::admit_fault::AdmitFault;
use sm_ownership::record::Record;
use sm_word::word::record_of_word;
use std::fmt;
use std::marker::Model;
use std::snapshot::Snapshot;
use thiserror::Error;

/// Why a pass was not admitted, with the words that were read. A caller that asks for no record pays for none.
#[derive(Drop, Error)]
#[error("{}", self.refusal())]
pub struct ToldRefusal {
    // The refusal as proofs see it. It takes no memory.
    told: Snapshot<AdmitRefusal>,
    fault: Option<AdmitFault>,
    read: u64,
    // The word that was found in its place. If a fault applies, it is the word that was read.
    found: u64,
}

impl Model for ToldRefusal {
    ghost use Rattle.sm_rule.specs.declared.admit_refusal.AdmitRefusal.{AdmitRefusal as RefusalValue};
    ghost use Rattle.sm_rule.specs.Admissions.{IsToldBy};

    ghost Value = { RefusalValue };

    ghost view = { λ it. it.told.value };

    ghost invariant = { λ it. IsToldBy it.told.value it.fault it.read it.found };
}

impl ToldRefusal {
    /// Returns the refusal of the record that has this word, for this fault.
    #[inline(always)]
    pub(crate) fn refused(fault: AdmitFault, read: &Record, word: u64) -> ToldRefusal
        requires { IsWordOf read.now word }
        ensures { result ≡ Refused fault read.now }
    {
        let told = AdmitRefusal::Refused(fault, *read);
        ToldRefusal {
            told: Snapshot::of(&told),
            fault: Some(fault),
            read: word,
            found: word,
        }
    }

    /// Returns the refusal of a call that read one record and found another one, with their words.
    #[inline(always)]
    pub(crate) fn raced(read: &Record, found: &Record, word: u64, other: u64) -> ToldRefusal
        requires read { IsWordOf read.now word }
        requires found { IsWordOf found.now other }
        ensures { result ≡ Raced read.now found.now }
    {
        let told = AdmitRefusal::Raced {
            read: *read,
            found: *found,
        };
        ToldRefusal {
            told: Snapshot::of(&told),
            fault: None,
            read: word,
            found: other,
        }
    }

    /// Returns the refusal, with records.
    pub fn refusal(&self) -> AdmitRefusal
        ensures { result ≡ self.now }
    {
        let read = record_of_word(self.read);
        match self.fault {
            Some(fault) => AdmitRefusal::Refused(fault, read),
            None => AdmitRefusal::Raced {
                read,
                found: record_of_word(self.found),
            },
        }
    }

    /// Returns the fault that applies to the record read, or nothing if another record was found in its place.
    pub fn fault(&self) -> Option<AdmitFault>
        ensures { result ≡ fault_told self.now }
    {
        self.fault
    }

    /// Returns the word of the record by which the pass is refused, or of the record that was found in its place.
    pub fn word(&self) -> u64
        ensures { IsWordOf (record_told self.now) result }
    {
        self.found
    }
}

// Shown like the refusal with records, because nothing shows a snapshot.
impl fmt::Debug for ToldRefusal {
    fn fmt<W: fmt::Write>(&self, f: &mut fmt::Formatter<W>) -> fmt::Result {
        fmt::Debug::fmt(&self.refusal(), f)
    }
}
