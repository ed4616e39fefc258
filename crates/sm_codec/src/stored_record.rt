use sm_ownership::record::Record;

/// The value of a shard's record: the record, and the process whose change led to it.
#[derive(Clone, Copy, PartialEq, Eq, Drop)]
pub struct StoredRecord {
    pub state: Record,
    pub process: u64,
}
