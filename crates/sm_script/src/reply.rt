ghost use Rattle.std.specs.Prelude.{◌≡◌, ◌++◌, OnOk, OnErr, codes, decimal};
ghost use Rattle.sm_service.specs.declared.reply.Reply.TheVariants.{Pairs};
ghost use Rattle.sm_script.specs.Answers.{reply_text, pair_text};

use crate::append::append_all;
use itoa::Buffer;
use sm_ranges::server_id::ServerId;
use sm_service::Val;
use sm_service::pair::Pair;
use sm_service::reply::Reply;
use std::alloc::AllocError;

// Appends a pair of a scan.
fn append_pair(out: &mut Vec<u8>, pair: &Pair) -> Result<(), AllocError>
    ensures ok { OnOk result (out.new.items ≡ out.old.items ++ pair_text pair.now) }
    ensures err { OnErr result (out.new.items ≡ out.old.items) }
{
    let mut long = Buffer::new();
    let mut number = Buffer::new();
    let key = pair.key();
    let length = long.format(key.len()).as_bytes();
    match pair.value() {
        Val::Text(text) => append_all(
            out,
            &[
                b" ",
                length,
                b":",
                key,
                b" t",
                number.format(text.len()).as_bytes(),
                b":",
                text,
            ],
        ),
        Val::Count(count) => append_all(
            out,
            &[
                b" ",
                length,
                b":",
                key,
                b" c",
                number.format(count).as_bytes(),
            ],
        ),
    }
}

// Appends the pairs of a scan.
fn append_pairs(out: &mut Vec<u8>, pairs: &[Pair]) -> Result<(), AllocError>
    ensures ok { OnOk result (out.new.items ≡ out.old.items ++ reply_text (Pairs pairs.now)) }
    ensures err { OnErr result (out.new.items ≡ out.old.items) }
{
    let start = out.len();
    let mut number = Buffer::new();
    append_all(out, &[b"pairs ", number.format(pairs.len()).as_bytes()])?;
    for pair in pairs {
        if append_pair(out, pair).is_err() {
            out.truncate(start);
            return Err(AllocError);
        }
    }
    Ok(())
}

// Appends the reply's text.
fn append_reply(out: &mut Vec<u8>, reply: &Reply) -> Result<(), AllocError>
    ensures ok { OnOk result (out.new.items ≡ out.old.items ++ reply_text reply.now) }
    ensures err { OnErr result (out.new.items ≡ out.old.items) }
{
    let mut number = Buffer::new();
    match reply {
        Reply::Nothing => append_all(out, &[b"nothing"]),
        Reply::Done => append_all(out, &[b"done"]),
        Reply::Text(text) => {
            let bytes = text.as_bytes();
            append_all(
                out,
                &[b"text ", number.format(bytes.len()).as_bytes(), b":", bytes],
            )
        }
        Reply::Count(count) => append_all(out, &[b"count ", number.format(*count).as_bytes()]),
        Reply::Pairs(pairs) => append_pairs(out, pairs.as_slice()),
        Reply::WrongKind => append_all(out, &[b"reply WrongKind"]),
        Reply::Overflow => append_all(out, &[b"reply Overflow"]),
        Reply::TooLong => append_all(out, &[b"reply TooLong"]),
    }
}

// Appends the server that executed a request, and the request's place.
fn append_place(out: &mut Vec<u8>, server: ServerId, place: u64) -> Result<(), AllocError>
    ensures ok { OnOk result (out.new.items
        ≡ out.old.items ++ (codes " @" ++ decimal server ++ codes "#" ++ decimal place)) }
    ensures err { OnErr result (out.new.items ≡ out.old.items) }
{
    let mut by = Buffer::new();
    let mut at = Buffer::new();
    append_all(
        out,
        &[
            b" @",
            by.format(server.number()).as_bytes(),
            b"#",
            at.format(place).as_bytes(),
        ],
    )
}

/// Appends the text of an executed request.
pub(crate) fn append_executed(
    out: &mut Vec<u8>,
    reply: &Reply,
    server: ServerId,
    place: u64,
) -> Result<(), AllocError>
    ensures ok { OnOk result (out.new.items ≡ out.old.items
        ++ (reply_text reply.now ++ codes " @" ++ decimal server ++ codes "#" ++ decimal place)) }
    ensures err { OnErr result (out.new.items ≡ out.old.items) }
{
    let start = out.len();
    append_reply(out, reply)?;
    if append_place(out, server, place).is_err() {
        out.truncate(start);
        return Err(AllocError);
    }
    Ok(())
}
