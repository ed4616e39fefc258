//! The model: a world of the sample service on one thread, and the scripts that run on it.
//!
//! ```rust
//! let mut written = Vec::new(alloc);
//! let mut dialogue = Dialogue::new(alloc, script, &mut written)?;
//! let status = run_model(alloc, &mut dialogue)?;
//! assert_eq!(rt; status, Status::Ran);
//! ```
#![tactic(auto)]

mod calls;
pub mod engine;
pub mod laws;
mod world_backend;

pub use engine::{ModelEngine, run_model, run_model_explained};
pub use world_backend::WorldBackend;
