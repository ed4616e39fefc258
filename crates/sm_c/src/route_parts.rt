ghost use Rattle.sm_c.specs.Routes.{AreRouteParts};

use sm_ownership::route::Route;

/// A shard's route as C sees it: the owner and its generation when it was published, or 0 and 0 if there is none.
#[repr(C)]
#[derive(Clone, Copy, Drop)]
pub struct RouteParts {
    pub generation: u64,
    pub server: u16,
}

impl RouteParts {
    /// Returns the parts of a route, if there is one.
    pub(crate) fn of(route: Option<Route>) -> RouteParts
        ensures { AreRouteParts result route }
    {
        match route {
            Some(route) => RouteParts {
                generation: route.generation,
                server: route.server.number(),
            },
            None => RouteParts {
                generation: 0,
                server: 0,
            },
        }
    }
}
