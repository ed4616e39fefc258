ghost use Rattle.std.specs.Prelude.{IfNone, IfSome};
ghost use Rattle.sm_c.specs.Requests.{AreNoSentParts, AreSentParts};
ghost use Rattle.sm_c.specs.Words.{CameFrom};

use crate::kinds::mode_of;
use sm_handle::SentAs;
use sm_ownership::mode::Mode;
use sm_ranges::shard_id::ShardId;

/// An envelope without its request and its note, as C sees it: its number, its shard, the server that forwarded it, or
/// 0 if it came directly, and how often it was forwarded.
#[repr(C)]
#[derive(Clone, Copy, Drop)]
pub struct SentParts {
    pub number: u64,
    pub shard: u16,
    pub from: u16,
    pub hops: u8,
}

impl SentParts {
    /// Returns the envelope's data in these parts, or nothing if they name no shard or server.
    pub(crate) fn sent(&self) -> Option<SentAs>
        ensures sent { IfSome result (AreSentParts self.now) }
        ensures none { IfNone result (AreNoSentParts self.now) }
    {
        let (Some(shard), Some(mode)) = (ShardId::new(self.shard), mode_of(self.from)) else {
            return None;
        };
        Some(SentAs {
            number: self.number,
            shard,
            mode,
            hops: self.hops,
        })
    }

    /// Returns the parts of an envelope.
    pub(crate) fn of(sent: &SentAs) -> SentParts
        ensures { AreSentParts result sent.now }
    {
        SentParts {
            number: sent.number,
            shard: sent.shard.number(),
            from: from_of(&sent.mode),
            hops: sent.hops,
        }
    }
}

fn from_of(mode: &Mode) -> u16
    ensures { CameFrom result mode.now }
{
    match mode {
        Mode::Direct => 0,
        Mode::Forwarded(server) => server.number(),
    }
}
