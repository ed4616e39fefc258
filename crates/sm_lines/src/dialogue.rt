ghost use Rattle.std.specs.Prelude.{◌≡◌, ◌≢◌, ◌*◌, ◌≤◌, [], true, false, IfOk, OnOk, OnErr, Contains, length};
ghost use Rattle.std.specs.Io.KnownBytes.{IsAtEnd};
ghost use Rattle.sm_lines.specs.Reading.{IsUncalled, ReaderStopped, TookNext, TookPart};
ghost use Rattle.sm_lines.specs.Writing.{Sends, WroteShort, Wrote};

use crate::{LineReader, Next, PIECE, PieceWriter, ReadFault, Watched, WriteFault};
use std::alloc::{AllocError, Global};
use std::io::{Read, Write};
use std::marker::Model;

/// A reader whose lines are answered, and the writer of their answers. Contracts see it as the transcript of both.
///
/// A function that fails leaves nothing waiting to be written, and the dialogue may go on after it.
#[derive(Drop)]
pub struct Dialogue<R: Read + Drop, W: Write + Drop> {
    lines: LineReader<R>,
    pieces: PieceWriter<W>,
}

impl<R: Read + Drop, W: Write + Drop> Model for Dialogue<R, W> {
    ghost use Rattle.sm_lines.specs.Transcripts.{Transcript};

    ghost Value = { Transcript };

    ghost view = { λ d. record { reading = d.lines; writing = d.pieces } };
}

impl<R: Read + Drop, W: Write + Drop> Dialogue<R, W> {
    /// Returns a dialogue in which nothing was read or written.
    pub fn new(alloc: Global, reader: R, writer: W) -> Result<Dialogue<R, W>, AllocError>
        ensures { IfOk result (λ dialogue. dialogue ≡ record {
          reading = record {
            line = [];
            held = [];
            left = R.remaining reader;
            ended = false;
            failed = false;
            past_end = false;
            calls = 0;
          };
          writing = record { written = W.contents writer; waiting = []; failed = false };
        }) }
    {
        Ok(Dialogue {
            lines: LineReader::new(alloc, reader)?,
            pieces: PieceWriter::new(alloc, writer)?,
        })
    }

    /// Returns the reader, with the notes of its calls.
    pub fn reader(&self) -> &Watched<R>
        ensures calls { result.now.calls ≡ self.now.reading.calls }
        ensures ended { result.now.ended ≡ self.now.reading.ended }
        ensures failed { result.now.failed ≡ self.now.reading.failed }
        ensures past_end { result.now.read_past_end ≡ self.now.reading.past_end }
        ensures left { R.remaining result.now.inner ≡ self.now.reading.left }
    {
        self.lines.reader()
    }

    /// Returns the writer, with the notes of its calls.
    pub fn writer(&self) -> &Watched<W>
        ensures failed { result.now.failed ≡ self.now.writing.failed }
        ensures written { W.contents result.now.inner ≡ self.now.writing.written }
    {
        self.pieces.writer()
    }

    /// Returns the bytes that are kept of the line that was read last: all of them, or as many as its limit from the
    /// front.
    pub fn line(&self) -> &[u8]
        ensures { result.now ≡ self.now.reading.line }
    {
        self.lines.line()
    }

    /// Reads the next line, as [`LineReader::next_line`] does.
    pub fn next_line(&mut self, limit: usize) -> Result<Next, ReadFault>
        ensures took { IfOk result (λ next. TookNext limit next self.old.reading self.new.reading) }
        ensures no_memory { result ≡ Err ReadFault.NoMemory
            → TookPart self.old.reading self.new.reading self.new.reading.ended }
        ensures stopped { result ≡ Err ReadFault.Read → ReaderStopped self.old.reading self.new.reading }
        ensures unfailed { result ≢ Err ReadFault.Read → self.new.reading.failed ≡ self.old.reading.failed }
        ensures held { Contains self.old.reading.held 10 → IsUncalled self.old.reading self.new.reading
            × (result ≢ Ok Next.End) × (result ≢ Err ReadFault.Read) }
        ensures unwritten { self.new.writing ≡ self.old.writing }
    {
        self.lines.next_line(limit)
    }

    /// Adds the bytes to those that wait to be written, and writes first if they don't fit into a piece with those.
    pub fn write(&mut self, bytes: &[u8]) -> Result<(), WriteFault>
        ensures ok { OnOk result (Sends self.old.writing self.new.writing bytes.now) }
        ensures err { OnErr result (WroteShort self.old.writing self.new.writing bytes.now) }
        ensures unread { self.new.reading ≡ self.old.reading }
    {
        self.pieces.write(bytes)
    }

    /// Adds the bytes to those that wait, and writes all of them.
    pub fn write_now(&mut self, bytes: &[u8]) -> Result<(), WriteFault>
        ensures ok { OnOk result (Wrote self.old.writing self.new.writing bytes.now) }
        ensures err { OnErr result (WroteShort self.old.writing self.new.writing bytes.now) }
        ensures unread { self.new.reading ≡ self.old.reading }
    {
        self.pieces.write_now(bytes)
    }

    /// Writes all that waits, and flushes the writer.
    pub fn flush(&mut self) -> Result<(), WriteFault>
        ensures ok { OnOk result (Wrote self.old.writing self.new.writing []) }
        ensures err { OnErr result (WroteShort self.old.writing self.new.writing []) }
        ensures unread { self.new.reading ≡ self.old.reading }
    {
        self.pieces.flush()
    }

    /// Returns whether the next line needs no call of the reader, because its line feed is already held.
    pub fn holds_line(&self) -> bool
        ensures held { result ≡ true → Contains self.now.reading.held 10 }
        ensures not_held { result ≡ false → Contains self.now.reading.held 10 → ⊥ }
    {
        self.lines.holds_line()
    }

    /// Does nothing, and promises a fact that always holds of a reading.
    pub(crate) fn stays_orderly(&self)
        ensures piece { length self.now.reading.held ≤ PIECE }
        ensures came { length self.now.reading.held ≤ PIECE * self.now.reading.calls }
        ensures end { self.now.reading.ended ≡ true → (self.now.reading.held ≡ []) × IsAtEnd self.now.reading.left }
    {
        self.lines.stays_orderly();
    }
}
