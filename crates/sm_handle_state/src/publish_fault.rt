use sm_ownership::route_fault::RouteFault;
use thiserror::Error;

/// Why a handle published no route.
#[derive(Clone, Copy, Debug, Drop, Error)]
pub enum PublishFault {
    /// The handle keeps no publisher.
    #[error("the handle keeps no publisher")]
    WrongHandle,
    /// The publisher refused the route.
    #[error(transparent)]
    Refused(RouteFault),
}
