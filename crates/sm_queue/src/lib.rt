//! A queue of jobs by key, as a user of the manager writes a service. `docs/OWN_SERVICE.md` explains it.
//!
//! A job is pushed, and taken by its key:
//! ```rust
//! let (key, work) = (Bytes::new(alloc, b"oven")?, Bytes::new(alloc, b"bake")?);
//! let mut queue = JobQueue::new(alloc, 100);
//! let pushed = queue.apply(Request::Push(Job { key, work }));
//! assert!(rt; matches!(pushed, Ok(Reply::Queued)));
//! let Ok(Reply::Given(job)) = queue.apply(Request::Take(Bytes::new(alloc, b"oven")?)) else {
//!     return Err("a job".into());
//! };
//! assert_eq!(rt; job.work.as_bytes(), b"bake".as_slice());
//! ```
#![tactic(auto)]

pub mod job;
pub mod queue_machine;
pub mod reply;
pub mod request;

pub use job::Job;
pub use queue_machine::{JobQueue, QueueMachine};
pub use reply::Reply;
pub use request::Request;
