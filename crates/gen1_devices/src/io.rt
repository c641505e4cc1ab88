//! Sinks, which bytes are written to, sources, which bytes are read from, and their error; sinks and sources over std's
//! writers and readers, which remember whether a read or write has failed. Writing all of some bytes, in as many writes
//! as a sink needs; reading a whole input, up to a limit (docs/PROGRAM.md, "Faults and statuses", "What is tested, in
//! this order").
ghost use Rattle.std.specs.Prelude.{Bool, IfOk, IfSome, IsErrOf, List, None, Option, false, is_err, length, vec_len, ℕ, ◌+◌, ◌<◌, ◌^◌, ◌||◌, ◌≡◌, ◌≤◌};
ghost use Rattle.std.specs.Io.{ReadsAtMost, WritesAtMost};
ghost use Rattle.std.specs.Io.KnownBytes.{ReadConsumes, WriteAppends};
ghost use Rattle.std.specs.List.{flat_map};
ghost use Rattle.gen1_devices.specs.Output.{Sends, device_failed, device_inner, write_fails};
ghost use Rattle.gen1_devices.specs.Input.{TakesAtMost, TakesSome, device_refused};

use std::alloc::Allocator;
use std::io::{Read, Write};

/// A device refused a read or a write.
#[derive(Clone, Copy, Debug, PartialEq, Eq, Drop)]
pub struct DeviceFault;

/// A destination for bytes.
pub trait Sink {
    // The bytes that were written so far, if the sink reports them.
    ghost contents: { Self → Option (List ℕ) } = { λ _. None };

    // Whether some write has failed.
    ghost has_failed: { Self → Bool };

    /// Writes a prefix of the bytes, and returns its length.
    ///
    /// A write fails by an error, or by returning 0 when there were bytes to write.
    fn write(&mut self, bytes: &[u8]) -> Result<usize, DeviceFault>
        ensures bound { WritesAtMost result bytes.now }
        ensures bytes { WriteAppends (contents self.old) (contents self.new) result bytes.now }
        ensures fails { has_failed self.new ≡ (has_failed self.old || write_fails result bytes.now) };

    /// Whether some write has failed.
    fn failed(&self) -> bool
        ensures { result ≡ has_failed self.now };
}

/// An origin of bytes.
pub trait Source {
    // The bytes that are left, if the source reports them.
    ghost remaining: { Self → Option (List ℕ) } = { λ _. None };

    // Whether some read has failed.
    ghost has_failed: { Self → Bool };

    /// Reads bytes into the beginning of the slice, and returns how many. The result is 0 only at the end of the
    /// source, or if the slice is empty.
    ///
    /// A read fails by an error.
    fn read(&mut self, bytes: &mut [u8]) -> Result<usize, DeviceFault>
        ensures bound { ReadsAtMost result bytes.new }
        ensures bytes { ReadConsumes (remaining self.old) (remaining self.new) result bytes.new }
        ensures fails { has_failed self.new ≡ (has_failed self.old || is_err result) };

    /// Whether some read has failed.
    fn failed(&self) -> bool
        ensures { result ≡ has_failed self.now };
}

/// A sink over one of std's writers, or a source over one of its readers.
#[derive(Drop)]
pub struct Device<T> {
    inner: T,
    has_failed: bool,
}

impl<T> Device<T> {
    /// A device that has not failed yet.
    pub fn new(inner: T) -> Self
        ensures inner { device_inner result ≡ inner }
        ensures fine { device_failed result ≡ false }
    {
        Device {
            inner,
            has_failed: false,
        }
    }

    /// Borrows the writer or reader.
    pub fn get_ref(&self) -> &T
        ensures { result.now ≡ device_inner self.now }
    {
        &self.inner
    }

    /// Returns the writer or reader.
    pub fn into_inner(self) -> T
        ensures { result ≡ device_inner self }
    {
        self.inner
    }
}

impl<T: Write> Sink for Device<T> {
    ghost contents = { λ d. T.contents (device_inner d) };

    ghost has_failed = { device_failed };

    fn write(&mut self, bytes: &[u8]) -> Result<usize, DeviceFault> {
        match self.inner.write(bytes) {
            Ok(count) => {
                if count == 0 && !bytes.is_empty() {
                    self.has_failed = true;
                }
                Ok(count)
            }
            Err(_) => {
                self.has_failed = true;
                Err(DeviceFault)
            }
        }
    }

    fn failed(&self) -> bool {
        self.has_failed
    }
}

impl<T: Read> Source for Device<T> {
    ghost remaining = { λ d. T.remaining (device_inner d) };

    ghost has_failed = { device_failed };

    fn read(&mut self, bytes: &mut [u8]) -> Result<usize, DeviceFault> {
        match self.inner.read(bytes) {
            Ok(count) => Ok(count),
            Err(_) => {
                self.has_failed = true;
                Err(DeviceFault)
            }
        }
    }

    fn failed(&self) -> bool {
        self.has_failed
    }
}

/// Writes all of the bytes, in as many writes as the sink needs.
///
/// It stops at the first write that fails, and returns the error. A prefix of the bytes was written then.
pub fn send<W: Sink>(sink: &mut W, bytes: &[u8]) -> Result<(), DeviceFault>
    ensures { Sends (W.contents sink.old) (W.contents sink.new)
        (W.has_failed sink.old) (W.has_failed sink.new) bytes.now result }
{
    let mut rest = bytes;
    while !rest.is_empty() {
        let count = sink.write(rest)?;
        if count == 0 {
            return Err(DeviceFault);
        }
        rest = &rest[count..];
    }
    Ok(())
}

/// Writes all pieces in order.
///
/// It stops at the first write that fails, and returns the error. A prefix of the pieces' bytes was written then.
pub fn send_all<W: Sink>(sink: &mut W, pieces: &[&[u8]]) -> Result<(), DeviceFault>
    ensures { Sends (W.contents sink.old) (W.contents sink.new)
        (W.has_failed sink.old) (W.has_failed sink.new) (flat_map (λ p. p.now) pieces.now) result }
{
    for piece in pieces {
        match send(sink, piece) {
            Ok(()) => {}
            Err(fault) => return Err(fault),
        }
    }
    Ok(())
}

/// Why an input couldn't be read whole.
#[derive(Clone, Copy, Debug, PartialEq, Eq, Drop)]
pub enum InputFault {
    /// A read failed.
    Device,
    /// There are more bytes than the limit.
    TooLong,
    /// There wasn't enough memory for the bytes.
    Memory,
}

/// Reads all bytes that are left. At most `limit` bytes are allowed, and `limit` is below 2^32.
///
/// In any case it takes at most one byte above the limit from the source. After an error, the bytes that were read
/// are lost. No memory is requested for bytes past the limit.
pub fn read_whole<R: Source, A: Allocator>(
    alloc: A,
    source: &mut R,
    limit: usize,
) -> Result<Vec<u8, A>, InputFault>
    requires limit { limit < 2 ^ 32 }
    ensures whole { IfOk result (λ v. IfSome (R.remaining source.old) (λ bytes. v.items ≡ bytes)) }
    ensures fits { IfOk result (λ v. vec_len v ≤ limit) }
    ensures too_long { IsErrOf result InputFault.TooLong
        → IfSome (R.remaining source.old) (λ bytes. limit < length bytes) }
    ensures taken { TakesAtMost (R.remaining source.old) (R.remaining source.new) (limit + 1) }
    // Memory is requested only to keep what was read, and never for bytes past the limit.
    ensures memory { IsErrOf result InputFault.Memory
        → TakesSome (R.remaining source.old) (R.remaining source.new) limit }
    ensures fault { R.has_failed source.new ≡ (R.has_failed source.old || device_refused result) }
{
    let mut bytes = Vec::new(alloc);
    let mut chunk = [0u8; 4096];
    'parts: loop {
        let room = limit - bytes.len();
        let most = chunk.len().min(room + 1);
        let Ok(count) = source.read(&mut chunk[..most]) else {
            return Err(InputFault::Device);
        };
        if count == 0 {
            return Ok(bytes);
        }
        if room < count {
            return Err(InputFault::TooLong);
        }
        if bytes.extend_from_slice(&chunk[..count]).is_err() {
            return Err(InputFault::Memory);
        }
    }
}
