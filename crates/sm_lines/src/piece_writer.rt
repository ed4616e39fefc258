ghost use Rattle.std.specs.Prelude.{◌≡◌, ◌++◌, [], true, false, IfOk, OnOk, OnErr};
ghost use Rattle.std.specs.Io.KnownBytes.{Appends};
ghost use Rattle.sm_lines.specs.Writing.{Sends, WroteFront, WroteShort, Wrote};

use crate::{PIECE, Watched};
use std::alloc::{AllocError, Global};
use std::io::Write;
use std::marker::Model;
use thiserror::Error;

/// The writer failed, or took none of the bytes that it was given.
#[derive(Clone, Copy, Debug, PartialEq, Eq, Drop, Error)]
#[error("the writer failed, or took none of the bytes")]
pub struct WriteFault;

/// Writes all of the bytes; after a fault the writer has taken a front of them.
pub fn write_whole<W: Write>(writer: &mut Watched<W>, bytes: &[u8]) -> Result<(), WriteFault>
    ensures ok { OnOk result (Appends (W.contents writer.old.inner)
        (W.contents writer.new.inner) bytes.now) }
    ensures err { OnErr result (WroteFront (W.contents writer.old.inner)
        (W.contents writer.new.inner) bytes.now) }
    ensures failed { OnErr result (writer.new.failed ≡ true) }
    ensures unfailed { OnOk result (writer.new.failed ≡ writer.old.failed) }
{
    let mut at = 0;
    while at < bytes.len() {
        let taken = match writer.write(&bytes[at..]) {
            Ok(taken) => taken,
            Err(_) => return Err(WriteFault),
        };
        if taken == 0 {
            return Err(WriteFault);
        }
        at += taken;
    }
    Ok(())
}

/// Collects bytes and writes them in pieces of [`PIECE`] bytes at most.
///
/// After a fault, only the first part of the waiting bytes was written, and nothing says how much of them; nothing
/// waits then.
#[derive(Drop)]
pub struct PieceWriter<W: Write + Drop> {
    writer: Watched<W>,
    pending: Vec<u8>,
}

impl<W: Write + Drop> Model for PieceWriter<W> {
    ghost use Rattle.std.specs.Prelude.{◌≤◌, length};
    ghost use Rattle.sm_lines.specs.Writing.{Writing};
    ghost use Rattle.sm_lines.specs.declared.TheConstants.{PIECE};

    ghost Value = { Writing };

    ghost view = { λ w. record {
      written = W.contents w.writer.inner;
      waiting = w.pending.items;
      failed = w.writer.failed;
    } };

    ghost invariant = { λ w. length w.pending.items ≤ PIECE };
}

impl<W: Write + Drop> PieceWriter<W> {
    /// Returns a writer of pieces to `writer` with nothing to write.
    pub fn new(alloc: Global, writer: W) -> Result<PieceWriter<W>, AllocError>
        ensures { IfOk result (λ pieces. pieces
            ≡ record { written = W.contents writer; waiting = []; failed = false }) }
    {
        Ok(PieceWriter {
            writer: Watched::new(writer),
            pending: Vec::with_capacity(alloc, PIECE)?,
        })
    }

    /// Returns the writer, with the notes of its calls.
    pub fn writer(&self) -> &Watched<W>
        ensures failed { result.now.failed ≡ self.now.failed }
        ensures written { W.contents result.now.inner ≡ self.now.written }
    {
        &self.writer
    }

    /// Adds the bytes to those that wait, and writes first if they don't fit into a piece with those.
    pub fn write(&mut self, bytes: &[u8]) -> Result<(), WriteFault>
        ensures ok { OnOk result (Sends self.old self.new bytes.now) }
        ensures err { OnErr result (WroteShort self.old self.new bytes.now) }
    {
        if self.push(bytes) {
            return Ok(());
        }
        self.flush()?;
        if self.push(bytes) {
            return Ok(());
        }
        self.pass_on(bytes)
    }

    /// Adds the bytes to those that wait, if they fit into a piece with those.
    fn push(&mut self, bytes: &[u8]) -> bool
        ensures fits { result ≡ true → self.new ≡ record self.old { waiting = self.old.waiting ++ bytes.now } }
        ensures full { result ≡ false → self.new ≡ self.old }
    {
        let room = PIECE - self.pending.len();
        bytes.len() <= room && self.pending.extend_from_slice(bytes).is_ok()
    }

    /// Writes the bytes at once, if nothing waits.
    fn pass_on(&mut self, bytes: &[u8]) -> Result<(), WriteFault>
        requires { self.old.waiting ≡ [] }
        ensures ok { OnOk result (Appends self.old.written self.new.written bytes.now
            × (self.new.waiting ≡ []) × (self.new.failed ≡ self.old.failed)) }
        ensures err { OnErr result (WroteFront self.old.written self.new.written bytes.now
            × (self.new.waiting ≡ []) × (self.new.failed ≡ true)) }
    {
        write_whole(&mut self.writer, bytes)
    }

    /// Writes all that waits.
    pub fn send(&mut self) -> Result<(), WriteFault>
        ensures ok { OnOk result (Wrote self.old self.new []) }
        ensures err { OnErr result (WroteShort self.old self.new []) }
    {
        let sent = write_whole(&mut self.writer, self.pending.as_slice());
        self.pending.clear();
        sent
    }

    /// Adds the bytes to those that wait, and writes all of them.
    pub fn write_now(&mut self, bytes: &[u8]) -> Result<(), WriteFault>
        ensures ok { OnOk result (Wrote self.old self.new bytes.now) }
        ensures err { OnErr result (WroteShort self.old self.new bytes.now) }
    {
        self.write(bytes)?;
        self.send()
    }

    /// Writes all that waits, and flushes the writer.
    pub fn flush(&mut self) -> Result<(), WriteFault>
        ensures ok { OnOk result (Wrote self.old self.new []) }
        ensures err { OnErr result (WroteShort self.old self.new []) }
    {
        self.send()?;
        match self.writer.flush() {
            Ok(()) => Ok(()),
            Err(_) => Err(WriteFault),
        }
    }
}
