ghost use Rattle.std.specs.Prelude.{◌≡◌, ℕ, false};
ghost use Rattle.sm_ownership.specs.declared.mode.Mode.{Mode as ModeValue};
ghost use Rattle.sm_permit.specs.Views.{has_body, may_ack, may_execute, new_view, view_acked, view_handed, view_kept};
ghost use Rattle.sm_permit.specs.Views.{view_let_go, view_read};

use crate::hand_over::HandOver;
use crate::shard_reading::ShardReading;
use sm_ownership::mode::Mode;
use sm_ownership::record::Record;
use sm_ranges::server_id::ServerId;
use sm_ranges::stand::Stand;

/// The knowledge of a process of a server about a shard.
#[derive(Clone, Copy, Drop)]
pub struct ShardView {
    pub server: ServerId,
    /// The revision at which the process put its server's key into the store, under its lease.
    pub joined: u64,
    /// The time of the process's clock up to which it goes by its lease: the time at which it last asked for it and was
    /// answered, plus the ticks that the terms allow.
    pub until: u64,
    pub reading: ShardReading,
    /// Whether the owner that forwards by the record has let go, or has failed.
    pub freed: bool,
    /// The greatest generation up to which the process has let go, or 0 if it never has.
    pub let_go: u64,
}

impl ShardView {
    /// Returns the view of a process that has joined. The process may execute nothing until it reads.
    pub fn new(server: ServerId, joined: u64, until: u64) -> ShardView
        ensures { result ≡ new_view server joined until }
    {
        let state = Record {
            stand: Stand::Vacant,
            admitted: false,
            generation: 0,
        };
        let reading = ShardReading {
            revision: 0,
            state,
            failed: false,
            owner_joined: 0,
            owner_failed: false,
        };
        ShardView {
            server,
            joined,
            until,
            reading,
            freed: false,
            let_go: 0,
        }
    }

    /// Returns whether the process may execute requests that come in this mode, at this time of its clock.
    pub fn may_execute(&self, mode: Mode, time: u64) -> bool
        ensures { result ≡ may_execute self.now mode time }
    {
        time < self.until
            && self.joined <= self.reading.revision
            && !self.reading.failed
            && self.let_go < self.reading.state.generation
            && self.has_body()
            && self.reading.state.accepts(self.server, mode)
    }

    fn has_body(&self) -> bool
        ensures { result ≡ has_body self.now.reading.state.stand self.now.freed }
    {
        match self.reading.state.stand {
            Stand::Forwarding { .. } => self.freed,
            Stand::Vacant
            | Stand::Serving(_)
            | Stand::Prepared { .. }
            | Stand::Taken { .. }
            | Stand::Paused(_) => true,
        }
    }

    /// Returns whether the process may ack its record, because the record isn't the one by which its server executes.
    pub fn may_ack(&self) -> bool
        ensures { result ≡ may_ack self.now }
    {
        self.reading.state.executor() != Some(self.server)
    }

    /// Returns the view once a keep of the lease was answered, so that the process goes by the lease until this time.
    pub fn kept(self, until: u64) -> ShardView
        ensures { result ≡ view_kept self until }
    {
        ShardView { until, ..self }
    }

    /// Returns the view once the process has read. If the owner forwards by this record, the process must wait for that
    /// owner anew, unless the owner was read as failed.
    pub fn read(self, reading: ShardReading) -> ShardView
        ensures { result ≡ view_read self reading }
    {
        let freed = reading.owner_failed;
        ShardView {
            reading,
            freed,
            ..self
        }
    }

    /// Returns the view once the process has read that the server acked up to this generation.
    pub fn acked(self, server: ServerId, generation: u64) -> ShardView
        ensures { result ≡ view_acked self server generation }
    {
        ShardView {
            freed: self.freed || self.reading.ack_frees(server, generation),
            ..self
        }
    }

    /// Returns the view once the process has bytes that name this process of the owner.
    pub fn handed(self, hand: HandOver) -> ShardView
        ensures { result ≡ view_handed self hand }
    {
        ShardView {
            freed: self.freed || self.reading.hand_over_frees(hand),
            ..self
        }
    }

    /// Returns the view once the process lets go of its record, by an ack or by handing over: it must execute no more
    /// by it.
    pub fn let_go(self) -> ShardView
        ensures exactly { result ≡ view_let_go self }
        ensures ends { (mode : ModeValue) (time : ℕ) → may_execute result mode time ≡ false }
    {
        ShardView {
            let_go: self.let_go.max(self.reading.state.generation),
            ..self
        }
    }
}
