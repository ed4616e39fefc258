ghost use Rattle.std.specs.Prelude.{◌≡◌, ◌++◌, OnOk, OnErr, codes, if◌then◌else◌, unwrap_or};
ghost use Rattle.sm_script.specs.Answers.{stand_name, record_text};

use crate::append::append_all;
use itoa::Buffer;
use sm_ownership::record::Record;
use sm_ranges::server_id::ServerId;
use sm_ranges::stand::Stand;
use std::alloc::AllocError;

// Returns the name of the kind of stand in an answer.
fn stand_name(stand: &Stand) -> &'static str
    ensures { result.now ≡ stand_name stand.now }
{
    match stand {
        Stand::Vacant => "Vacant",
        Stand::Serving(_) => "Serving",
        Stand::Prepared { .. } => "Prepared",
        Stand::Forwarding { .. } => "Forwarding",
        Stand::Taken { .. } => "Taken",
        Stand::Paused(_) => "Paused",
    }
}

// Returns the number of a server, or 0 if there is none.
fn server_number(server: Option<ServerId>) -> u16
    ensures { result ≡ unwrap_or server 0 }
{
    match server {
        Some(server) => server.number(),
        None => 0,
    }
}

// Returns the word that says whether a server is admitted.
fn admission_name(admitted: bool) -> &'static str
    ensures { result.now ≡ (if admitted then codes "admitted" else codes "idle") }
{
    if admitted { "admitted" } else { "idle" }
}

/// Appends the text of a shard's record.
pub(crate) fn append_record(out: &mut Vec<u8>, seen: &Record) -> Result<(), AllocError>
    ensures ok { OnOk result (out.new.items ≡ out.old.items ++ record_text seen.now) }
    ensures err { OnErr result (out.new.items ≡ out.old.items) }
{
    let mut owner = Buffer::new();
    let mut other = Buffer::new();
    let mut generation = Buffer::new();
    append_all(
        out,
        &[
            stand_name(&seen.stand).as_bytes(),
            b" ",
            owner.format(server_number(seen.stand.owner())).as_bytes(),
            b" ",
            other.format(server_number(seen.stand.other())).as_bytes(),
            b" ",
            admission_name(seen.admitted).as_bytes(),
            b" ",
            generation.format(seen.generation).as_bytes(),
        ],
    )
}
