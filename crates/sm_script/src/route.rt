ghost use Rattle.std.specs.Prelude.{◌≡◌, ◌++◌, OnOk, OnErr};
ghost use Rattle.sm_script.specs.Answers.{route_text};

use crate::append::append_all;
use itoa::Buffer;
use sm_ownership::route::Route;
use std::alloc::AllocError;

/// Appends the text of a shard's route.
pub(crate) fn append_route(out: &mut Vec<u8>, route: &Route) -> Result<(), AllocError>
    ensures ok { OnOk result (out.new.items ≡ out.old.items ++ route_text route.now) }
    ensures err { OnErr result (out.new.items ≡ out.old.items) }
{
    let mut shard = Buffer::new();
    let mut server = Buffer::new();
    let mut generation = Buffer::new();
    append_all(
        out,
        &[
            b"route ",
            shard.format(route.shard.number()).as_bytes(),
            b" ",
            server.format(route.server.number()).as_bytes(),
            b" ",
            generation.format(route.generation).as_bytes(),
        ],
    )
}
