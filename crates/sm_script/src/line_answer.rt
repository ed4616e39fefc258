ghost use Rattle.std.specs.Prelude.{◌≡◌, ◌++◌, OnOk, OnErr, Some, codes};
ghost use Rattle.sm_script.specs.Answers.{numbered, refused_name, refused_number};

use crate::append::append_all;
use crate::fault::LineFault;
use crate::load_verdict::LoadVerdict;
use crate::plan::append_plan;
use crate::record::append_record;
use crate::refused::Refused;
use crate::reply::append_executed;
use crate::route::append_route;
use itoa::Buffer;
use sm_ownership::record::Record;
use sm_ownership::route::Route;
use sm_place::Plan;
use sm_ranges::server_id::ServerId;
use sm_service::reply::Reply;
use std::alloc::AllocError;

/// The answer to a line of a script.
#[derive(Drop)]
pub enum LineAnswer {
    /// The line's call was made.
    Made,
    /// The line's call was refused.
    Refused(Refused),
    /// A shard's record.
    Seen(Record),
    /// The server executed a request. The request has this place among all requests of the shard, from 0.
    Executed {
        reply: Reply,
        server: ServerId,
        place: u64,
    },
    /// The shards that would move, each with its destination, and the shards that the plan leaves.
    Planned(Plan),
    /// The published route of a key's shard, if there is one.
    Way(Option<Route>),
    /// The result of clients that added to one count at the same time.
    Loaded(LoadVerdict),
    /// The line made no call.
    Error(LineFault),
}

impl LineAnswer {
    ghost use Rattle.sm_script.specs.Answers.{answer_text};

    /// Appends the answer's text, without a line feed. Appends nothing if memory for it is refused.
    pub fn write_to(&self, out: &mut Vec<u8>) -> Result<(), AllocError>
        ensures ok { OnOk result (out.new.items ≡ out.old.items ++ answer_text self.now) }
        ensures err { OnErr result (out.new.items ≡ out.old.items) }
    {
        match self {
            LineAnswer::Made => append_all(out, &[b"ok"]),
            LineAnswer::Refused(refused) => append_refused(out, refused),
            LineAnswer::Seen(record) => append_record(out, record),
            LineAnswer::Executed {
                reply,
                server,
                place,
            } => append_executed(out, reply, *server, *place),
            LineAnswer::Planned(plan) => append_plan(out, plan),
            LineAnswer::Way(Some(route)) => append_route(out, route),
            LineAnswer::Way(None) => append_all(out, &[b"none"]),
            LineAnswer::Loaded(verdict) => append_all(out, &[b"load ", verdict.name().as_bytes()]),
            LineAnswer::Error(fault) => append_all(out, &[b"error ", fault.name().as_bytes()]),
        }
    }
}

// Appends the refusal's name, and the number after it if there is one.
fn append_refused(out: &mut Vec<u8>, refused: &Refused) -> Result<(), AllocError>
    ensures ok { OnOk result (out.new.items ≡ out.old.items
        ++ (codes "refused " ++ numbered (refused_name refused.now) (refused_number refused.now))) }
    ensures err { OnErr result (out.new.items ≡ out.old.items) }
{
    match refused.number() {
        Some(number) => append_numbered(out, refused.name().as_bytes(), number),
        None => append_all(out, &[b"refused ", refused.name().as_bytes()]),
    }
}

// Appends the name of a refusal, and the number after it.
fn append_numbered(out: &mut Vec<u8>, name: &[u8], number: u16) -> Result<(), AllocError>
    ensures ok { OnOk result (out.new.items ≡ out.old.items ++ (codes "refused " ++ numbered name.now (Some number))) }
    ensures err { OnErr result (out.new.items ≡ out.old.items) }
{
    let mut buffer = Buffer::new();
    append_all(
        out,
        &[b"refused ", name, b" ", buffer.format(number).as_bytes()],
    )
}
