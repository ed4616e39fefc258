//! The encoding of the values at the keys of a shared store, with versions: written values are read again, and all
//! other bytes are a named fault.
//!
//! ```rust
//! let head = Head {
//!     batches: 3,
//!     base: 2,
//!     parts: 1,
//! };
//! let bytes = write_head(rt.alloc(), &head).expect(&rt, "memory");
//! assert!(rt; read_head(&bytes) == Ok(head));
//! assert!(rt; read_head(&bytes[..24]) == Err(ReadError::Fault(Fault::Short)));
//! ```
#![tactic(auto)]

mod control_keys;
mod fault;
mod fields;
mod reading;
mod stored_batch;
mod stored_part;
mod stored_record;
mod stored_state;
mod writing;

pub use control_keys::{read_state, write_process, write_state};
pub use fault::{Fault, ReadError};
pub use reading::{read_batch, read_head, read_part, read_record};
pub use stored_batch::StoredBatch;
pub use stored_part::StoredPart;
pub use stored_record::StoredRecord;
pub use stored_state::StoredState;
pub use writing::{write_head, write_part, write_record, write_requests};
