//! The knowledge of the publisher and the routers about the map.
ghost use Rattle.std.specs.Prelude.{[]};
ghost use Rattle.sm_publish.specs.Seen.{IsSeen, Sees};

use crate::route_map::RouteMap;
use crossbeam_utils::rule::{Outcome, Protocol};
use left_right::reader::Reader;
use left_right::writer::Writer;
use sm_ownership::route::Route;
use std::collections::LinkedList;

/// The view of each one is the list of publications that it has seen. All publications begin with this list.
pub struct Extending;

impl Protocol<RouteMap, LinkedList<Route>> for Extending {
    ghost holds = { IsSeen };

    ghost first = { [] };
}

/// A step after which its seat has seen everything that is published.
pub struct Seeing;

impl Outcome<RouteMap, LinkedList<Route>> for Seeing {
    ghost then = { Sees };
}

/// The type with which a router reads the published map.
pub type MapReader = Reader<RouteMap, LinkedList<Route>, Extending>;

/// The type with which a publisher writes the published map.
pub type MapWriter = Writer<RouteMap, Route, LinkedList<Route>, Extending>;
