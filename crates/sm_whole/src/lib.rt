//! Servers and controls over one store: the law of every run of both. Nothing here runs: each step is one of
//! `sm_shard::step`, or of `sm_lead::StoreControl`, as here.
//!
//! ```rust
//! let assign = Command::Change(shard, Change::Assign(one));
//! assert!(rt; control.has_waited(&[], &assign));
//! let Judged::Sent(sent) = control.command(0, assign) else {
//!     return;
//! };
//! let control = sent.outcome(SendOutcome::Made(2)).expect(&rt, "made");
//! let read = read_at(&control.records, shard);
//! let known = server.on_read(rt.alloc(), read.state, read.stood, head, 0, &[], &[]);
//! assert!(rt; known.is_ok());
//! assert!(rt; matches!(server.on_request(item), Ok(Decision::Waits)));
//! assert!(rt; matches!(server.flush(rt.alloc()), Ok(true)));
//! let told = server.on_made(rt.alloc(), 3).ok().expect(&rt, "answers");
//! assert!(rt; told.made[0].reply == 5);
//! ```
#![tactic(auto)]

pub mod laws;
