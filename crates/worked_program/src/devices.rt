//! Readers and writers that fail, or give and take little.
use std::io::{self, ErrorKind, Read, Write};

/// A reader of bytes that gives a few at a time, and fails once, at a call that is counted down to.
#[derive(Drop)]
pub struct Halting<'a> {
    pub left: &'a [u8],
    pub calls_left: u32,
    pub kind: ErrorKind,
}

impl Read for Halting<'_> {
    fn read(&mut self, buf: &mut [u8]) -> io::Result<usize> {
        if self.calls_left == 0 {
            self.calls_left = u32::MAX;
            return Err(io::Error::from(self.kind));
        }
        self.calls_left -= 1;
        let count = self.left.len().min(buf.len()).min(50);
        buf[..count].copy_from_slice(&self.left[..count]);
        self.left = &self.left[count..];
        Ok(count)
    }
}

/// A reader of this many line feeds.
#[derive(Drop)]
pub struct LineFeeds {
    pub left: usize,
}

impl Read for LineFeeds {
    fn read(&mut self, buf: &mut [u8]) -> io::Result<usize> {
        let count = self.left.min(buf.len());
        buf[..count].fill(b'\n');
        self.left -= count;
        Ok(count)
    }
}

/// A reader that is interrupted forever.
#[derive(Drop)]
pub struct Interrupted {
    pub calls: u32,
}

impl Read for Interrupted {
    fn read(&mut self, _buf: &mut [u8]) -> io::Result<usize> {
        self.calls = self.calls.saturating_add(1);
        Err(io::Error::from(ErrorKind::Interrupted))
    }
}

/// A writer that takes a few bytes at a time, and none or an error from a call on that is counted down
/// to.
#[derive(Drop)]
pub struct Narrow {
    pub taken: Vec<u8>,
    pub calls_left: u32,
    pub fails: bool,
}

impl Write for Narrow {
    fn write(&mut self, buf: &[u8]) -> io::Result<usize> {
        if self.calls_left == 0 {
            if self.fails {
                return Err(io::Error::from(ErrorKind::BrokenPipe));
            }
            return Ok(0);
        }
        self.calls_left -= 1;
        let count = buf.len().min(7);
        self.taken.extend_from_slice(&buf[..count])?;
        Ok(count)
    }

    fn flush(&mut self) -> io::Result<()> {
        Ok(())
    }
}

/// A writer that takes a few bytes at a time, and fails once, at a call that is counted down to; it takes bytes afterwards.
#[derive(Drop)]
pub struct Faltering {
    pub taken: Vec<u8>,
    pub calls_left: u32,
    pub has_failed: bool,
}

impl Write for Faltering {
    fn write(&mut self, buf: &[u8]) -> io::Result<usize> {
        if self.calls_left == 0 && !self.has_failed {
            self.has_failed = true;
            return Err(io::Error::from(ErrorKind::BrokenPipe));
        }
        self.calls_left = self.calls_left.saturating_sub(1);
        let count = buf.len().min(7);
        self.taken.extend_from_slice(&buf[..count])?;
        Ok(count)
    }

    fn flush(&mut self) -> io::Result<()> {
        Ok(())
    }
}

impl Write for Interrupted {
    fn write(&mut self, _buf: &[u8]) -> io::Result<usize> {
        self.calls = self.calls.saturating_add(1);
        Err(io::Error::from(ErrorKind::Interrupted))
    }

    fn flush(&mut self) -> io::Result<()> {
        Ok(())
    }
}

/// A writer that is interrupted at every other call, and takes a few bytes at those between.
#[derive(Drop)]
pub struct Stuttering {
    pub taken: Vec<u8>,
    pub is_interrupted: bool,
}

impl Write for Stuttering {
    fn write(&mut self, buf: &[u8]) -> io::Result<usize> {
        self.is_interrupted = !self.is_interrupted;
        if self.is_interrupted {
            return Err(io::Error::from(ErrorKind::Interrupted));
        }
        let count = buf.len().min(7);
        self.taken.extend_from_slice(&buf[..count])?;
        Ok(count)
    }

    fn flush(&mut self) -> io::Result<()> {
        Ok(())
    }
}
