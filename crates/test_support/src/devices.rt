//! A reader and a writer that fail at a chosen call, for the tests of the crates above.
use std::io;
use std::io::{Read, Write};

/// A writer whose write number `left`, counted from 0, fails: by an error, or by taking nothing.
#[derive(Drop)]
pub struct Failing<'a> {
    /// How many writes succeed.
    pub left: usize,
    /// Whether the failing write takes nothing, instead of returning an error.
    pub takes_nothing: bool,
    /// The most bytes that it takes in one write.
    pub most: usize,
    /// Where the bytes that it takes go.
    pub bytes: &'a mut Vec<u8>,
}

impl Write for Failing<'_> {
    fn write(&mut self, bytes: &[u8]) -> io::Result<usize> {
        if self.left == 0 {
            if self.takes_nothing {
                return Ok(0);
            }
            return Err(io::Error::from(io::ErrorKind::BrokenPipe));
        }
        self.left -= 1;
        let count = bytes.len().min(self.most);
        self.bytes.extend_from_slice(&bytes[..count])?;
        Ok(count)
    }

    fn flush(&mut self) -> io::Result<()> {
        Ok(())
    }
}

/// A reader whose read number `left`, counted from 0, fails.
#[derive(Drop)]
pub struct Broken<'a> {
    /// How many reads succeed.
    pub left: usize,
    /// The most bytes that it returns in one read.
    pub most: usize,
    /// The bytes that it has not returned yet.
    pub bytes: &'a [u8],
}

impl Read for Broken<'_> {
    fn read(&mut self, bytes: &mut [u8]) -> io::Result<usize> {
        if self.left == 0 {
            return Err(io::Error::from(io::ErrorKind::Other));
        }
        self.left -= 1;
        let count = bytes.len().min(self.most).min(self.bytes.len());
        let mut rest = self.bytes;
        let taken = rest.read(&mut bytes[..count])?;
        self.bytes = rest;
        Ok(taken)
    }
}
