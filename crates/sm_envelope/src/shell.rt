ghost use Rattle.std.specs.Prelude.{◌≡◌, ◌<◌, ◌+◌};
ghost use Rattle.sm_envelope.specs.Envelope.{whole};
ghost use Rattle.sm_envelope.specs.declared.envelope.TheConstants.{MOST_HOPS};
ghost use Rattle.sm_ownership.specs.declared.mode.Mode.TheVariants.{Direct, Forwarded};

use crate::envelope::Envelope;
use sm_ownership::mode::Mode;
use sm_ranges::server_id::ServerId;
use sm_ranges::shard_id::ShardId;
use std::marker::Model;

/// An envelope without its request and its note. Only `Envelope::parts` makes one.
#[derive(Drop)]
pub struct Shell {
    number: u64,
    shard: ShardId,
    mode: Mode,
    hops: u8,
}

impl Model for Shell {
    ghost use Rattle.std.specs.Prelude.{◌≤◌};
    ghost use Rattle.sm_envelope.specs.Envelope.{ShellView};
    ghost use Rattle.sm_envelope.specs.declared.envelope.TheConstants.{MOST_HOPS};

    ghost Value = { ShellView };

    ghost view = { λ shell. record {
      number = shell.number;
      shard = shell.shard;
      mode = shell.mode;
      hops = shell.hops;
    } };

    ghost invariant = { λ shell. shell.hops ≤ MOST_HOPS };
}

impl Shell {
    // Returns the shell of a request that comes from a client.
    pub(crate) fn direct(number: u64, shard: ShardId) -> Shell
        ensures { result ≡ record { number = number; shard = shard; mode = Direct; hops = 0 } }
    {
        Shell {
            number,
            shard,
            mode: Mode::Direct,
            hops: 0,
        }
    }

    // Returns the shell after one more hop, from this server on.
    pub(crate) fn forwarded(self, from: ServerId) -> Shell
        requires { self.hops < MOST_HOPS }
        ensures { result ≡ record self { mode = Forwarded from; hops = self.hops + 1 } }
    {
        Shell {
            number: self.number,
            shard: self.shard,
            mode: Mode::Forwarded(from),
            hops: self.hops + 1,
        }
    }

    /// Returns the number that the sender gave it.
    pub fn number(&self) -> u64
        ensures { result ≡ self.now.number }
    {
        self.number
    }

    /// Returns the shard of its request.
    pub fn shard(&self) -> ShardId
        ensures { result ≡ self.now.shard }
    {
        self.shard
    }

    /// Returns how it came: from a client, or forwarded.
    pub fn mode(&self) -> Mode
        ensures { result ≡ self.now.mode }
    {
        self.mode
    }

    /// Returns how often the request was forwarded, from 0 to [`MOST_HOPS`](crate::MOST_HOPS).
    pub fn hops(&self) -> u8
        ensures { result ≡ self.now.hops }
    {
        self.hops
    }

    /// Returns the envelope of this shell, the request and the note.
    pub fn whole<Q: Drop, N: Drop>(self, request: Q, note: N) -> Envelope<Q, N>
        ensures { result ≡ whole self request note }
    {
        Envelope::of_parts(self, request, note)
    }
}
