ghost use Rattle.std.specs.Prelude.{IfErr, IfOk};
ghost use Rattle.sm_word.specs.Word.{IsWellFormed};
ghost use Rattle.sm_permit_c.specs.Numbers.{AreOfNone, AreOfView};

use crate::codes::{BAD_ARGUMENT, BAD_WORD};
use crate::reading_numbers::ReadingNumbers;
use sm_permit::ShardView;
use sm_ranges::server_id::ServerId;

/// The knowledge of a server's process about a shard, as C sees it.
#[repr(C)]
#[derive(Clone, Copy, Drop)]
pub struct ViewNumbers {
    /// The revision at which the process put its server's key into the store, under its lease.
    pub joined: u64,
    /// The time of the process's clock until which its lease lasts.
    pub until: u64,
    /// The greatest generation up to which the process has let go, 0 if it never did.
    pub let_go: u64,
    pub reading: ReadingNumbers,
    pub server: u16,
    /// Whether the owner that forwards by the record has let go, or has failed.
    pub freed: bool,
}

impl ViewNumbers {
    /// Returns the numbers of a view.
    pub(crate) fn of(view: &ShardView) -> ViewNumbers
        requires { IsWellFormed view.now.reading.state }
        ensures { AreOfView result view.now }
    {
        ViewNumbers {
            joined: view.joined,
            until: view.until,
            let_go: view.let_go,
            reading: ReadingNumbers::of(&view.reading),
            server: view.server.number(),
            freed: view.freed,
        }
    }

    /// Returns the view with these numbers, or the code of the first invalid number.
    pub(crate) fn view(&self) -> Result<ShardView, u32>
        ensures made { IfOk result (AreOfView self.now) }
        ensures refused { IfErr result (AreOfNone self.now) }
    {
        let Some(server) = ServerId::new(self.server) else {
            return Err(BAD_ARGUMENT);
        };
        let Some(reading) = self.reading.reading() else {
            return Err(BAD_WORD);
        };
        Ok(ShardView {
            server,
            joined: self.joined,
            until: self.until,
            reading,
            freed: self.freed,
            let_go: self.let_go,
        })
    }
}
