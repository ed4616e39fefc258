ghost use Rattle.std.specs.Prelude.{◌≡◌};
ghost use Rattle.sm_ownership.specs.declared.mode.Mode.TheVariants.{Direct};
ghost use Rattle.sm_envelope.specs.Envelope.{forwarded, shell_of, whole};

use crate::shell::Shell;
use sm_ownership::mode::Mode;
use sm_ownership::record::Record;
use sm_ranges::server_id::ServerId;
use sm_ranges::shard_id::ShardId;
use std::marker::Model;

/// A request is forwarded at most this often.
pub const MOST_HOPS: u8 = 4;

/// A request on its way to a shard: its number, its shard, how it came, how often it was forwarded, and a note that
/// travels with it.
#[derive(Drop)]
pub struct Envelope<Q: Drop, N: Drop> {
    shell: Shell,
    request: Q,
    note: N,
}

impl<Q: Drop, N: Drop> Model for Envelope<Q, N> {
    ghost use Rattle.sm_envelope.specs.Envelope.{EnvelopeView, whole};

    ghost Value = { EnvelopeView Q N };

    ghost view = { λ envelope. whole envelope.shell envelope.request envelope.note };
}

impl<Q: Drop, N: Drop> Envelope<Q, N> {
    /// Makes a direct request, not forwarded yet, with this note.
    pub fn new(number: u64, shard: ShardId, request: Q, note: N) -> Envelope<Q, N>
        ensures { result ≡ record {
          number = number;
          shard = shard;
          mode = Direct;
          hops = 0;
          request = request;
          note = note;
        } }
    {
        Envelope {
            shell: Shell::direct(number, shard),
            request,
            note,
        }
    }

    // Returns the envelope with these parts.
    pub(crate) fn of_parts(shell: Shell, request: Q, note: N) -> Envelope<Q, N>
        ensures { result ≡ whole shell request note }
    {
        Envelope {
            shell,
            request,
            note,
        }
    }

    /// Returns the number that the sender gave it.
    pub fn number(&self) -> u64
        ensures { result ≡ self.now.number }
    {
        self.shell.number()
    }

    /// Returns the shard of the request.
    pub fn shard(&self) -> ShardId
        ensures { result ≡ self.now.shard }
    {
        self.shell.shard()
    }

    /// Returns how it came: from a client, or forwarded.
    pub fn mode(&self) -> Mode
        ensures { result ≡ self.now.mode }
    {
        self.shell.mode()
    }

    /// Returns how often the request was forwarded, from 0 to [`MOST_HOPS`].
    pub fn hops(&self) -> u8
        ensures { result ≡ self.now.hops }
    {
        self.shell.hops()
    }

    /// Returns the request.
    pub fn request(&self) -> &Q
        ensures { result.now ≡ self.now.request }
    {
        &self.request
    }

    /// Returns the note that travels with it.
    pub fn note(&self) -> &N
        ensures { result.now ≡ self.now.note }
    {
        &self.note
    }

    /// Returns the envelope as the server `at` forwards it, and the server to which it must go. If the record doesn't
    /// let `at` forward, or the request was forwarded as often as it may be, returns the envelope as it was.
    pub fn forwarded(
        self,
        state: &Record,
        at: ServerId,
    ) -> Result<(ServerId, Envelope<Q, N>), Envelope<Q, N>>
        ensures { result ≡ forwarded self state.now at }
    {
        let Envelope {
            shell,
            request,
            note,
        } = self;
        match state.forward_to(at) {
            Some(to) if shell.hops() < MOST_HOPS => Ok((
                to,
                Envelope {
                    shell: shell.forwarded(at),
                    request,
                    note,
                },
            )),
            _ => Err(Envelope {
                shell,
                request,
                note,
            }),
        }
    }

    /// Returns the request, the note, and the rest of the envelope.
    pub fn parts(self) -> (Q, N, Shell)
        ensures request { result.0 ≡ self.request }
        ensures note { result.1 ≡ self.note }
        ensures shell { result.2 ≡ shell_of self }
    {
        (self.request, self.note, self.shell)
    }
}
