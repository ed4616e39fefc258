ghost use Rattle.std.specs.Prelude.{◌≡◌};
ghost use Rattle.sm_map.specs.Val.{held_of};
ghost use Rattle.sm_handle_state.specs.Maps.{AreReplyParts, AreValueParts};

use sm_service::{Reply, Val};

/// A reply, or the value in a pair of it, as C sees it. The kind is 0 if the key has no value, 1 for done, 2 for a text
/// of this length, 3 for this count, 4 for so many pairs, 5 for a value of the wrong kind, 6 for a count that would be
/// too large, and 7 for a text that would be too long.
#[repr(C)]
#[derive(Clone, Copy, Drop)]
pub struct ReplyParts {
    pub count: i64,
    pub length: usize,
    pub kind: u8,
}

impl ReplyParts {
    /// Returns the parts of a reply.
    pub fn of(reply: &Reply) -> ReplyParts
        ensures { AreReplyParts result reply.now }
    {
        match reply {
            Reply::Nothing => ReplyParts::bare(0),
            Reply::Done => ReplyParts::bare(1),
            Reply::Text(text) => ReplyParts::long(2, text.as_bytes().len()),
            Reply::Count(count) => ReplyParts::counted(*count),
            Reply::Pairs(pairs) => ReplyParts::long(4, pairs.as_slice().len()),
            Reply::WrongKind => ReplyParts::bare(5),
            Reply::Overflow => ReplyParts::bare(6),
            Reply::TooLong => ReplyParts::bare(7),
        }
    }

    /// Returns the parts of a key's value.
    pub(crate) fn of_value(value: Val<'_>) -> ReplyParts
        ensures { AreValueParts result (held_of value.entry) }
    {
        match value {
            Val::Text(text) => ReplyParts::long(2, text.len()),
            Val::Count(count) => ReplyParts::counted(count),
        }
    }

    pub(crate) fn bare(kind: u8) -> ReplyParts
        ensures { result.kind ≡ kind }
    {
        ReplyParts::long(kind, 0)
    }

    fn long(kind: u8, length: usize) -> ReplyParts
        ensures kind { result.kind ≡ kind }
        ensures length { result.length ≡ length }
    {
        ReplyParts {
            count: 0,
            length,
            kind,
        }
    }

    fn counted(count: i64) -> ReplyParts
        ensures kind { result.kind ≡ 3 }
        ensures count { result.count ≡ count }
    {
        ReplyParts {
            count,
            length: 0,
            kind: 3,
        }
    }
}
