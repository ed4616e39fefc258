ghost use Rattle.std.specs.Prelude.{◌≡◌};

use std::alloc::Global;
use std::io;
use std::io::Write;

/// How many bytes are kept: more than any answer to settings has.
const KEPT: usize = 64;

/// A writer that passes each call on, and keeps a front of the first bytes: these are the answer to settings.
#[derive(Drop)]
pub struct Beginning<W> {
    inner: W,
    kept: Vec<u8>,
}

impl<W> Beginning<W> {
    /// Returns a writer to `inner`, to which nothing was written yet.
    pub fn new(alloc: Global, inner: W) -> Beginning<W>
        ensures { result.inner ≡ inner }
    {
        Beginning {
            inner,
            kept: Vec::new(alloc),
        }
    }

    /// Returns the name of the fault in the answer to settings, if the first bytes are one.
    pub fn settings_fault(&self) -> Option<&str> {
        match str::from_utf8(&self.kept) {
            Ok(text) => text.strip_prefix("settings ")?.strip_suffix("\n"),
            Err(_) => None,
        }
    }

    /// Keeps a front of these bytes, if nothing is kept yet. If memory is refused, keeps nothing.
    fn keep(&mut self, bytes: &[u8])
        ensures { self.new.inner ≡ self.old.inner }
    {
        if self.kept.is_empty() {
            let _kept = self
                .kept
                .extend_from_slice(&bytes[..bytes.len().min(KEPT)])
                .is_ok();
        }
    }
}

impl<W: Write> Write for Beginning<W> {
    ghost contents = { λ w. W.contents w.inner };

    fn write(&mut self, buf: &[u8]) -> io::Result<usize> {
        let taken = self.inner.write(buf)?;
        self.keep(buf);
        Ok(taken)
    }

    fn flush(&mut self) -> io::Result<()> {
        self.inner.flush()
    }
}
