//! The published map: one publisher of routes, and routers that read its map. What a router has seen only grows.
//!
//! ```rust
//! let (mut publisher, mut routers) = Publisher::new(&rt, rt.alloc(), 2, 1)?;
//! assert_eq!(rt; routers.len(), 1);
//! let router = &mut routers[0];
//! assert_eq!(rt; router.route(&layout, b"a"), None);
//! assert_eq!(rt; publisher.publish(&rt, first), Ok(()));
//! assert_eq!(rt; router.route(&layout, b"a"), Some(first));
//! ```
#![tactic(auto)]

pub mod publisher;
mod route_map;
mod route_word;
pub mod router;
mod rule;
pub mod word_publisher;
pub mod word_router;
pub mod word_rule;
pub mod word_view;

pub use publisher::Publisher;
pub use router::Router;
pub use word_publisher::WordPublisher;
pub use word_router::WordRouter;
