ghost use Rattle.std.specs.Prelude.{◌≡◌, ◌≢◌, ◌+◌, ◌*◌, ◌<◌, ◌≤◌, ◌⊎◌, ◌↔◌, ◌++◌, [], true, false, IsTrue, IfOk};
ghost use Rattle.std.specs.Prelude.{IfSome, IfNone, OnOk, OnErr, All, Contains, length, take, drop, slice_index};
ghost use Rattle.std.specs.Io.KnownBytes.{Consumes, IsAtEnd};
ghost use Rattle.sm_lines.specs.Reading.{call_of, IsUncalled, ReaderStopped, TookNext, TookPart};

use crate::{COUNT_LIMIT, PIECE, Watched};
use memchr::memchr;
use std::alloc::{AllocError, Global};
use std::io::Read;
use std::marker::Model;
use thiserror::Error;

const LINE_FEED: u8 = b'\n';

/// Reads a text in pieces of at most [`PIECE`] bytes and gives its lines one by one, each without its line feed.
///
/// A last line without a line feed counts if it isn't empty. Of a line beyond its limit only the first bytes are kept.
#[derive(Drop)]
pub struct LineReader<R: Read + Drop> {
    reader: Watched<R>,
    piece: Vec<u8>,
    at: usize,
    end: usize,
    line: Vec<u8>,
}

impl<R: Read + Drop> Model for LineReader<R> {
    ghost use Rattle.std.specs.Prelude.{◌≡◌, ◌≤◌, ◌<◌, ◌*◌, true, length, slice_range};
    ghost use Rattle.std.specs.Io.KnownBytes.{IsAtEnd};
    ghost use Rattle.sm_lines.specs.Reading.{Reading};
    ghost use Rattle.sm_lines.specs.declared.TheConstants.{PIECE};

    ghost Value = { Reading };

    ghost view = { λ r. record {
      line = r.line.items;
      held = slice_range r.piece.items r.at r.end;
      left = R.remaining r.reader.inner;
      ended = r.reader.ended;
      failed = r.reader.failed;
      past_end = r.reader.read_past_end;
      calls = r.reader.calls;
    } };

    ghost invariant = { λ r. (r.at ≤ r.end) × (r.end ≤ length r.piece.items) × (0 < length r.piece.items)
        × (length r.piece.items ≤ PIECE) × (r.end ≤ PIECE * r.reader.calls)
        × (r.reader.ended ≡ true → (r.at ≡ r.end) × IsAtEnd (R.remaining r.reader.inner)) };
}

/// The line that a [`LineReader`] took off.
#[derive(Clone, Copy, PartialEq, Eq)]
pub enum Next {
    /// A line within the limit.
    Line,
    /// A line beyond the limit. Its first bytes are kept, as many as the limit.
    LongLine,
    /// The end of the text: there is no further line.
    End,
}

/// Why no line was read.
#[derive(Clone, Copy, Debug, PartialEq, Eq, Drop, Error)]
pub enum ReadFault {
    /// The reader failed, or was called [`COUNT_LIMIT`] times.
    #[error("the reader failed, or was called as often as it may be")]
    Read,
    /// No memory was left to keep the line.
    #[error("out of memory")]
    NoMemory,
}

impl From<AllocError> for ReadFault {
    ghost use Rattle.sm_lines.specs.declared.line_reader.ReadFault.TheVariants.{NoMemory};

    ghost from_gives = { λ _ fault. fault ≡ NoMemory };

    fn from(_error: AllocError) -> ReadFault {
        ReadFault::NoMemory
    }
}

/// Returns a piece that nothing was read into.
fn blank_piece(alloc: Global) -> Result<Vec<u8>, AllocError>
    ensures { IfOk result (λ piece. length piece.items ≡ PIECE) }
{
    vec![in alloc; 0u8; PIECE]
}

impl<R: Read + Drop> LineReader<R> {
    /// Returns a reader of the lines of `reader` that has read nothing.
    pub fn new(alloc: Global, reader: R) -> Result<LineReader<R>, AllocError>
        ensures { IfOk result (λ lines. lines ≡ record {
          line = [];
          held = [];
          left = R.remaining reader;
          ended = false;
          failed = false;
          past_end = false;
          calls = 0;
        }) }
    {
        Ok(LineReader {
            reader: Watched::new(reader),
            piece: blank_piece(alloc)?,
            at: 0,
            end: 0,
            line: Vec::new(alloc),
        })
    }

    /// Returns the reader, with the notes of its calls.
    pub fn reader(&self) -> &Watched<R>
        ensures calls { result.now.calls ≡ self.now.calls }
        ensures ended { result.now.ended ≡ self.now.ended }
        ensures failed { result.now.failed ≡ self.now.failed }
        ensures past_end { result.now.read_past_end ≡ self.now.past_end }
        ensures left { R.remaining result.now.inner ≡ self.now.left }
    {
        &self.reader
    }

    /// Returns the bytes that are kept of the line that was read last: all of them, or as many as its limit from the
    /// front.
    pub fn line(&self) -> &[u8]
        ensures { result.now ≡ self.now.line }
    {
        self.line.as_slice()
    }

    /// Returns whether the next line needs no call of the reader, because its line feed is already held.
    pub fn holds_line(&self) -> bool
        ensures { IsTrue result ↔ Contains self.now.held 10 }
    {
        self.line_feed().is_some()
    }

    /// Returns how many bytes are held.
    fn held_len(&self) -> usize
        ensures { result ≡ length self.now.held }
    {
        self.end - self.at
    }

    /// Returns the place of the first line feed among the held bytes.
    fn line_feed(&self) -> Option<usize>
        ensures some { IfSome result (λ n. (n < length self.now.held)
            × (slice_index self.now.held n ≡ 10)
            × All (λ b. b ≢ 10) (take n self.now.held)) }
        ensures none { IfNone result (All (λ b. b ≢ 10) self.now.held) }
    {
        memchr(LINE_FEED, &self.piece[self.at..self.end])
    }

    /// Does nothing, and promises a fact that always holds of a reading.
    pub(crate) fn stays_orderly(&self)
        ensures piece { length self.now.held ≤ PIECE }
        ensures came { length self.now.held ≤ PIECE * self.now.calls }
        ensures end { self.now.ended ≡ true → (self.now.held ≡ []) × IsAtEnd self.now.left }
    {
        let _ = &self.reader;
    }

    /// Forgets the line that was read last.
    fn begin_line(&mut self)
        ensures begun { self.new ≡ record self.old { line = [] } }
        ensures piece { length self.old.held ≤ PIECE }
        ensures came { length self.old.held ≤ PIECE * self.old.calls }
        ensures end { self.old.ended ≡ true → (self.old.held ≡ []) × IsAtEnd self.old.left }
    {
        self.line.clear();
    }

    /// Takes the first `n` held bytes off for the line, which grows at most to the limit. Returns whether some of them
    /// were left out.
    fn take(&mut self, n: usize, limit: usize) -> Result<bool, AllocError>
        requires held { n ≤ length self.old.held }
        requires fits { length self.old.line ≤ limit }
        ensures ok { OnOk result (self.new ≡ record self.old {
          line = take limit
              (self.old.line ++ take n self.old.held);
          held = drop n self.old.held;
        }) }
        ensures cut { IfOk result (λ cut. cut ≡ true → limit < length self.old.line + n) }
        ensures whole { IfOk result (λ cut. cut ≡ false → length self.old.line + n ≤ limit) }
        ensures err { OnErr result (self.new ≡ self.old) }
    {
        let room = limit - self.line.len();
        let kept = n.min(room);
        self.line
            .extend_from_slice(&self.piece[self.at..self.at + kept])?;
        self.at += n;
        Ok(n > room)
    }

    /// Drops the line feed that is the first held byte.
    fn drop_line_feed(&mut self)
        requires { 0 < length self.old.held }
        ensures { self.new ≡ record self.old { held = drop 1 self.old.held } }
    {
        self.at += 1;
    }

    /// Takes all held bytes off for the line. Returns whether the line is now beyond the limit.
    fn take_held(&mut self, limit: usize, is_long: bool) -> Result<bool, AllocError>
        requires { length self.old.line ≤ limit }
        ensures ok { OnOk result (self.new ≡ record self.old {
          line = take limit
              (self.old.line ++ self.old.held);
          held = [];
        }) }
        ensures long { IfOk result (λ longer. longer ≡ true → (is_long ≡ true)
            ⊎ (limit < length self.old.line + length self.old.held)) }
        ensures short { IfOk result (λ longer. longer ≡ false → (is_long ≡ false)
            × (length self.old.line + length self.old.held ≤ limit)) }
        ensures err { OnErr result (self.new ≡ self.old) }
    {
        let cut = self.take(self.held_len(), limit)?;
        Ok(is_long || cut)
    }

    /// Takes the rest of the line off, and its line feed, which comes after `n` further bytes.
    fn end_line(&mut self, n: usize, limit: usize, is_long: bool) -> Result<Next, AllocError>
        requires feed { n < length self.old.held }
        requires fits { length self.old.line ≤ limit }
        ensures ok { OnOk result (self.new ≡ record self.old {
          line = take limit
              (self.old.line ++ take n self.old.held);
          held = drop 1 (drop n self.old.held);
        }) }
        ensures line { IfOk result (λ next. next ≡ Next.Line → (is_long ≡ false)
            × (length self.old.line + n ≤ limit)) }
        ensures long_line { IfOk result (λ next. next ≡ Next.LongLine → (is_long ≡ true)
            ⊎ (limit < length self.old.line + n)) }
        ensures some { IfOk result (λ next. next ≢ Next.End) }
        ensures err { OnErr result (self.new ≡ self.old) }
    {
        let cut = self.take(n, limit)?;
        self.drop_line_feed();
        if is_long || cut {
            Ok(Next::LongLine)
        } else {
            Ok(Next::Line)
        }
    }

    /// Reads a piece if none is held. Returns false at the end; then the reader isn't called again.
    fn fill(&mut self) -> Result<bool, ReadFault>
        requires empty { self.old.held ≡ [] }
        ensures line { self.new.line ≡ self.old.line }
        ensures bytes { Consumes self.old.left self.new.left self.new.held }
        ensures more { IfOk result (λ more. more ≡ true → (self.old.calls < COUNT_LIMIT)
            × (self.new.calls ≡ self.old.calls + 1) × (self.new.failed ≡ self.old.failed)
            × (self.new.ended ≡ false) × (self.old.ended ≡ false)) }
        ensures end { IfOk result (λ more. more ≡ false → (self.new.held ≡ [])
            × IsAtEnd self.new.left × (self.new.ended ≡ true) × (self.new.failed ≡ self.old.failed)
            × (self.old.ended ≡ true → self.new ≡ self.old)) }
        ensures err { OnErr result ((self.new.held ≡ []) × (self.old.ended ≡ false) × (self.new.ended ≡ false)
            × (result ≡ Err ReadFault.Read)
            × ((self.new.failed ≡ true) ⊎ (COUNT_LIMIT ≤ self.new.calls))) }
        ensures least { OnOk result (self.new.calls + call_of self.old.ended
            ≤ self.old.calls + length self.new.held + call_of self.new.ended) }
        ensures last { OnErr result (self.new.calls ≤ self.old.calls + 1) }
        ensures most { length self.new.held + PIECE * self.old.calls ≤ PIECE * self.new.calls }
        ensures past_end { self.new.past_end ≡ self.old.past_end }
        ensures piece { length self.new.held ≤ PIECE }
    {
        if self.reader.has_ended() {
            return Ok(false);
        }
        if self.reader.calls() >= COUNT_LIMIT {
            return Err(ReadFault::Read);
        }
        match self.reader.read(self.piece.as_mut_slice()) {
            Ok(0) => Ok(false),
            Ok(n) => {
                self.at = 0;
                self.end = n;
                Ok(true)
            }
            Err(_) => Err(ReadFault::Read),
        }
    }

    /// Reads the next line, whose bytes [`LineReader::line`] then lends.
    ///
    /// Reads nothing once the end of the text was seen, or if the line's end is already held. After a fault the line in
    /// front may have lost some of its bytes.
    pub fn next_line(&mut self, limit: usize) -> Result<Next, ReadFault>
        ensures took { IfOk result (λ next. TookNext limit next self.old self.new) }
        ensures no_memory { result ≡ Err ReadFault.NoMemory → TookPart self.old self.new self.new.ended }
        ensures stopped { result ≡ Err ReadFault.Read → ReaderStopped self.old self.new }
        ensures unfailed { result ≢ Err ReadFault.Read → self.new.failed ≡ self.old.failed }
        // If the line's end is held, the reader isn't called, so no end is seen and no reading fails.
        ensures held { Contains self.old.held 10 → IsUncalled self.old self.new
            × (result ≢ Ok Next.End) × (result ≢ Err ReadFault.Read) }
    {
        self.begin_line();
        let mut is_long = false;
        'pieces: loop {
            match self.line_feed() {
                Some(n) => return Ok(self.end_line(n, limit, is_long)?),
                None => is_long = self.take_held(limit, is_long)?,
            }
            match self.fill() {
                Ok(true) => {}
                Ok(false) => return Ok(self.last_line(is_long)),
                Err(fault) => return Err(fault),
            }
        }
    }

    /// Returns the line at the end of the text, if the line's bytes are all that was left.
    fn last_line(&self, is_long: bool) -> Next
        ensures long { result ≡ Next.LongLine → is_long ≡ true }
        ensures line { result ≡ Next.Line → (is_long ≡ false) × (0 < length self.now.line) }
        ensures end { result ≡ Next.End → (is_long ≡ false) × (self.now.line ≡ []) }
        ensures some { result ≢ Next.End → (is_long ≡ true) ⊎ (0 < length self.now.line) }
    {
        if is_long {
            Next::LongLine
        } else if self.line.is_empty() {
            Next::End
        } else {
            Next::Line
        }
    }
}
