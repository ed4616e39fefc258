//! A store that several machines share: its transactions in one order, the transactions that a process may send to it
//! and the claims that it may make, and the laws that then hold in every run.
//!
//! The store keeps a value at a key, and makes a transaction as a whole: it writes if each compare still holds. While a
//! control runs, it asks only two questions of all this: which server a change must wait for, and whether that server
//! has let go.
//!
//! ```rust
//! let shard = ShardId::new(7).expect(&rt, "a shard");
//! let head = StoreKey::Lasting(LastingKey::Head(shard));
//! let compare = Compare {
//!     key: head,
//!     revision: 3,
//! };
//! assert!(rt; compare.key == head);
//! assert!(rt; compare.key != StoreKey::Passing(PassingKey::Batch(shard, 3)));
//! ```
#![tactic(auto)]

pub mod compare;
pub mod head;
pub mod item;
pub mod laws;
pub mod server_run;
pub mod store_key;
pub mod waits;

pub use compare::Compare;
pub use head::Head;
pub use item::Item;
pub use server_run::ServerRun;
pub use store_key::{LastingKey, PassingKey, StoreKey};
pub use waits::{has_let_go, waits_for};
