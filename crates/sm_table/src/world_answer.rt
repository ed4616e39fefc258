use sm_envelope::refusal::Refusal;
use sm_ownership::record::Record;
use sm_ownership::route::Route;
use sm_ranges::server_id::ServerId;

/// The answer to a step.
#[derive(Drop)]
pub enum WorldAnswer<R> {
    /// The step was made.
    Made,
    /// The shard's record.
    Seen(Record),
    /// The request is in flight.
    Sent,
    /// The server was admitted, and has the request in hand.
    Began(ServerId),
    /// The server forwarded the request to this one, and it is in flight again, as the last.
    Forwarded(ServerId),
    /// The request was refused, and is gone.
    Refused(Refusal),
    /// The server executed the request of this number. The request has this place among all requests of the shard, from
    /// 0.
    Replied {
        number: u64,
        server: ServerId,
        reply: R,
        place: u64,
    },
    /// The published route, if there is one.
    Way(Option<Route>),
}
