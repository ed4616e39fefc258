use crate::store_key::StoreKey;

/// A demand of a transaction: that the key was last written at this revision, or, if the revision is 0, that it isn't
/// there.
#[derive(Clone, Copy, Debug, PartialEq, Eq, Drop)]
pub struct Compare {
    pub key: StoreKey,
    pub revision: u64,
}
