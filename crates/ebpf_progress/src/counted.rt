//! A writer that counts lines.

ghost use Rattle.std.specs.Prelude.{◌≡◌};
ghost use Rattle.ebpf_progress.specs.Counting.{lines_in};

use std::io::{Result, Write};

/// Learns how many lines were written.
pub trait Listener {
    /// This many lines more were written.
    fn wrote(&mut self, lines: u64);
}

/// A writer that passes on what it is given, and says how many lines of that were written after its first flush.
pub struct CountedWriter<W, L> {
    inner: W,
    listener: L,
    is_flushed: bool,
}

impl<W, L> CountedWriter<W, L> {
    /// A writer to this one, with somebody who learns of its lines.
    pub fn new(inner: W, listener: L) -> CountedWriter<W, L>
        ensures { result.inner ≡ inner }
    {
        CountedWriter {
            inner,
            listener,
            is_flushed: false,
        }
    }

    /// The two of which it was made.
    pub fn into_parts(self) -> (W, L)
        ensures { result.0 ≡ self.inner }
    {
        let CountedWriter {
            inner,
            listener,
            is_flushed: _,
        } = self;
        (inner, listener)
    }
}

impl<W: Write, L: Listener> Write for CountedWriter<W, L> {
    ghost contents = { λ w. W.contents w.inner };

    fn write(&mut self, buf: &[u8]) -> Result<usize> {
        let count = self.inner.write(buf)?;
        if self.is_flushed {
            self.listener.wrote(lines_in(&buf[..count]));
        }
        Ok(count)
    }

    fn flush(&mut self) -> Result<()> {
        self.is_flushed = true;
        self.inner.flush()
    }
}

/// How many lines end in some bytes.
pub fn lines_in(bytes: &[u8]) -> u64
    ensures { result ≡ lines_in bytes.now }
{
    let mut lines = 0;
    for at in 0..bytes.len() {
        if bytes[at] == b'\n' {
            lines += 1;
        }
    }
    lines
}
