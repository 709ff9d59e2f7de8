use crate::outside::{read_from, with_rest, write_to};
use crate::shown::Shown;
use crate::words::{bytes_of, size_of};
use smithy_core::Mem;
use std::alloc::Global;
use std::io;
use std::io::{ErrorKind, Read, Write};

/// A reader or a writer of which a signal interrupts so many calls before each that goes through.
#[derive(Drop)]
struct Interrupted<T> {
    inner: T,
    times: usize,
    left: usize,
}

impl<T> Interrupted<T> {
    fn new(inner: T, times: usize) -> Interrupted<T> {
        Interrupted {
            inner,
            times,
            left: times,
        }
    }

    // Whether the call goes through, or a signal interrupts it.
    fn pass(&mut self) -> io::Result<()> {
        if self.left > 0 {
            self.left -= 1;
            return Err(io::Error::from(ErrorKind::Interrupted));
        }
        self.left = self.times;
        Ok(())
    }
}

impl<R: Read> Read for Interrupted<R> {
    fn read(&mut self, buf: &mut [u8]) -> io::Result<usize> {
        self.pass()?;
        self.inner.read(buf)
    }
}

impl<W: Write> Write for Interrupted<W> {
    fn write(&mut self, buf: &[u8]) -> io::Result<usize> {
        self.pass()?;
        self.inner.write(buf)
    }

    fn flush(&mut self) -> io::Result<()> {
        self.pass()?;
        self.inner.flush()
    }
}

/// What a source over an interrupted reader answers to the steps.
pub fn source(alloc: Global, times: &str, content: &str, steps: &[&str]) -> Mem<String> {
    let content = bytes_of(alloc, content)?;
    let reader = Interrupted::new(content.as_slice(), size_of(times));
    read_from(alloc, reader, steps)
}

/// What a sink over an interrupted writer answers to the steps, and what was written.
pub fn sink(alloc: Global, times: &str, steps: &[&str]) -> Mem<String> {
    let mut written = Vec::new(alloc);
    let writer = Interrupted::new(&mut written, size_of(times));
    let answers = write_to(alloc, writer, steps)?;
    with_rest(answers, written.shown(alloc))
}
