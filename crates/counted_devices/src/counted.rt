//! A count of failures, beside what it counts.

ghost use Rattle.std.specs.Prelude.{◌≡◌, ℕ, cond};
ghost use Rattle.std.specs.Io.{ReadsAtMost, WritesAtMost};
ghost use Rattle.std.specs.Io.KnownBytes.{Keeps, ReadConsumes, WriteAppends};
ghost use Rattle.counted_devices.specs.Counting.{CountsRead, CountsWrite, after_read, after_write, one_more};

use std::io;
use std::io::{Read, Write};

/// What counts its failures: all of them, and apart the hard ones, which are not Interrupted. A count stays at its
/// greatest value.
pub trait Failures {
    ghost failed: { Self → ℕ };

    ghost failed_hard: { Self → ℕ };

    /// How often it has failed.
    fn failures(&self) -> u64
        ensures { result ≡ failed self.now };

    /// How often it has failed otherwise than by Interrupted.
    fn hard_failures(&self) -> u64
        ensures { result ≡ failed_hard self.now };
}

/// A device with counts of its failures.
#[derive(Drop)]
pub struct Counted<T> {
    inner: T,
    failures: u64,
    hard_failures: u64,
}

impl<T> Counted<T> {
    /// A device that has not failed yet.
    pub fn new(inner: T) -> Counted<T>
        ensures inner { result.inner ≡ inner }
        ensures none { result.failures ≡ 0 }
        ensures none_hard { result.hard_failures ≡ 0 }
    {
        Counted {
            inner,
            failures: 0,
            hard_failures: 0,
        }
    }

    /// The device.
    pub fn into_inner(self) -> T
        ensures { result ≡ self.inner }
    {
        let Counted {
            inner,
            failures: _,
            hard_failures: _,
        } = self;
        inner
    }

    /// Counts a failure.
    fn fail(&mut self, is_hard: bool)
        ensures inner { self.new.inner ≡ self.old.inner }
        ensures count { self.new.failures ≡ one_more self.old.failures }
        ensures hard { self.new.hard_failures ≡ cond is_hard (one_more self.old.hard_failures) self.old.hard_failures }
    {
        self.failures = self.failures.saturating_add(1);
        if is_hard {
            self.hard_failures = self.hard_failures.saturating_add(1);
        }
    }
}

impl<T> Failures for Counted<T> {
    ghost failed = { λ c. c.failures };

    ghost failed_hard = { λ c. c.hard_failures };

    fn failures(&self) -> u64 {
        self.failures
    }

    fn hard_failures(&self) -> u64 {
        self.hard_failures
    }
}

impl<T: Read> Read for Counted<T> {
    ghost remaining = { λ c. T.remaining c.inner };

    fn read(&mut self, buf: &mut [u8]) -> io::Result<usize>
        ensures bound { ReadsAtMost result buf.new }
        ensures bytes { ReadConsumes (T.remaining self.old.inner) (T.remaining self.new.inner) result buf.new }
        ensures count { self.new.failures ≡ after_read result self.old.failures }
        ensures hard { CountsRead result self.old.hard_failures self.new.hard_failures }
    {
        let result = self.inner.read(buf);
        if let Err(e) = &result {
            self.fail(e.kind() != io::ErrorKind::Interrupted);
        }
        result
    }
}

impl<T: Write> Write for Counted<T> {
    ghost contents = { λ c. T.contents c.inner };

    fn write(&mut self, buf: &[u8]) -> io::Result<usize>
        ensures bound { WritesAtMost result buf.now }
        ensures bytes { WriteAppends (T.contents self.old.inner) (T.contents self.new.inner) result buf.now }
        ensures count { self.new.failures ≡ after_write result self.old.failures }
        ensures hard { CountsWrite result self.old.hard_failures self.new.hard_failures }
    {
        let result = self.inner.write(buf);
        match &result {
            Ok(n) if *n > 0 => {}
            Ok(_) => self.fail(true),
            Err(e) => self.fail(e.kind() != io::ErrorKind::Interrupted),
        }
        result
    }

    fn flush(&mut self) -> io::Result<()>
        ensures bytes { Keeps (T.contents self.old.inner) (T.contents self.new.inner) }
        ensures count { self.new.failures ≡ after_read result self.old.failures }
        ensures hard { CountsRead result self.old.hard_failures self.new.hard_failures }
    {
        let result = self.inner.flush();
        if let Err(e) = &result {
            self.fail(e.kind() != io::ErrorKind::Interrupted);
        }
        result
    }
}

/// A reader that counts its failures.
pub trait CountedRead: Read + Failures {
    /// A call of `read`, and what it does to the count.
    fn read_counted(&mut self, buf: &mut [u8]) -> io::Result<usize>
        ensures bound { ReadsAtMost result buf.new }
        ensures bytes { ReadConsumes (Self.remaining self.old) (Self.remaining self.new) result buf.new }
        ensures count { Self.failed self.new ≡ after_read result (Self.failed self.old) }
        ensures hard { CountsRead result (Self.failed_hard self.old) (Self.failed_hard self.new) };
}

impl<T: Read> CountedRead for Counted<T> {
    fn read_counted(&mut self, buf: &mut [u8]) -> io::Result<usize> {
        self.read(buf)
    }
}

/// A writer that counts its failures.
pub trait CountedWrite: Write + Failures {
    /// A call of `write`, and what it does to the count.
    fn write_counted(&mut self, buf: &[u8]) -> io::Result<usize>
        ensures bound { WritesAtMost result buf.now }
        ensures bytes { WriteAppends (Self.contents self.old) (Self.contents self.new) result buf.now }
        ensures count { Self.failed self.new ≡ after_write result (Self.failed self.old) }
        ensures hard { CountsWrite result (Self.failed_hard self.old) (Self.failed_hard self.new) };
}

impl<T: Write> CountedWrite for Counted<T> {
    fn write_counted(&mut self, buf: &[u8]) -> io::Result<usize> {
        self.write(buf)
    }
}

impl<F: Failures> Failures for &mut F {
    ghost failed = { λ f. F.failed f.now };

    ghost failed_hard = { λ f. F.failed_hard f.now };

    fn failures(&self) -> u64 {
        (**self).failures()
    }

    fn hard_failures(&self) -> u64 {
        (**self).hard_failures()
    }
}

impl<R: CountedRead> CountedRead for &mut R {
    fn read_counted(&mut self, buf: &mut [u8]) -> io::Result<usize> {
        (**self).read_counted(buf)
    }
}

impl<W: CountedWrite> CountedWrite for &mut W {
    fn write_counted(&mut self, buf: &[u8]) -> io::Result<usize> {
        (**self).write_counted(buf)
    }
}
