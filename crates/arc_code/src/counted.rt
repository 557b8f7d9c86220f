//! Readers and writers whose failures are counted.

ghost use Rattle.std.specs.Prelude.{◌≡◌, ◌+◌, ◌-◌, ◌^◌, ◌<◌, ◌≤◌, false, length, take, IsTrue, IfOk, IfErr, OnOk, OnErr};
ghost use Rattle.std.specs.Io.KnownBytes.{Appends, Keeps};
ghost use Rattle.arc_code.specs.Attempts.{Tried, Fails, FailsToWrite, Took, TookPart};
ghost use Rattle.arc_code.specs.DeviceCalls.{Gives, Takes};
ghost use Rattle.arc_code.specs.CountedDevices.{failures_of, inner_of, has_ended, fresh, left_in, held_by, Answers};

use crate::device::{Attempt, Input, Output};

/// A read or a flush failed.
#[derive(Clone, Copy, Debug, PartialEq, Eq)]
pub struct Failed;

/// A write failed, when so many of its bytes were written.
#[derive(Clone, Copy, Debug, PartialEq, Eq)]
pub struct Short {
    pub written: usize,
}

/// A device, with the number of its failures. A failure is an error other than an interruption, a
/// write that takes no byte, or 100 interruptions in a row.
#[derive(Drop)]
pub struct Counted<T> {
    inner: T,
    failures: u64,
    at_end: bool,
}

/// How often an interrupted call is made again.
pub const RETRIES: u32 = 99;

impl<T> Counted<T> {
    /// The device, of which no failure is known yet.
    pub fn new(inner: T) -> Counted<T>
        ensures { result ≡ fresh inner }
    {
        Counted {
            inner,
            failures: 0,
            at_end: false,
        }
    }

    /// How many calls have failed.
    pub fn failures(&self) -> u64
        ensures { result ≡ failures_of self.now }
    {
        self.failures
    }

    /// The device itself.
    pub fn get_ref(&self) -> &T
        ensures { result.now ≡ inner_of self.now }
    {
        &self.inner
    }

    fn fail(&mut self) -> Failed
        requires { failures_of self.old < 2 ^ 64 - 1 }
        ensures { self.new ≡ record self.old { failures = self.old.failures + 1 } }
    {
        self.failures += 1;
        Failed
    }
}

impl<R: Input> Counted<R> {
    /// The next byte, or None at the end of the input, after which nothing is read any more.
    pub fn get(&mut self) -> Result<Option<u8>, Failed>
        requires { failures_of self.old < 2 ^ 64 - 1 }
        ensures ok { IfOk result (λ answer.
            Answers (left_in R.remaining self.old) answer (left_in R.remaining self.new)) }
        ensures read { has_ended self.old ≡ false → IfOk result (λ answer.
            Tried R.reads (inner_of self.old) (Attempt.Done answer) (inner_of self.new)) }
        ensures end { IfOk result (λ answer. answer ≡ None → IsTrue (has_ended self.new)) }
        ensures ended { IsTrue (has_ended self.old) → (result ≡ Ok None) × (self.new ≡ self.old) }
        ensures fine { OnOk result (failures_of self.new ≡ failures_of self.old) }
        ensures err { OnErr result (Keeps (left_in R.remaining self.old) (left_in R.remaining self.new)) }
        ensures failed { OnErr result (Fails R.reads (inner_of self.old) (inner_of self.new)) }
        ensures cause { OnErr result (failures_of self.new ≡ failures_of self.old + 1) }
    {
        if self.at_end {
            return Ok(None);
        }
        match try_read(&mut self.inner) {
            Attempt::Done(Some(byte)) => Ok(Some(byte)),
            Attempt::Done(None) => {
                self.at_end = true;
                Ok(None)
            }
            Attempt::Interrupted | Attempt::Failed => Err(self.fail()),
        }
    }
}

impl<W: Output> Counted<W> {
    /// One write that is not interrupted: how many bytes it took.
    fn put_some(&mut self, bytes: &[u8]) -> Result<usize, Failed>
        requires room { failures_of self.old < 2 ^ 64 - 1 }
        requires some { 0 < length bytes.now }
        ensures within { IfOk result (λ n. (0 < n) × (n ≤ length bytes.now)) }
        ensures ok { IfOk result (λ n.
            Appends (held_by W.contents self.old) (held_by W.contents self.new) (take n bytes.now)) }
        ensures wrote { IfOk result (λ n.
            Tried (W.writes bytes.now) (inner_of self.old) (Attempt.Done n) (inner_of self.new)) }
        ensures end { has_ended self.new ≡ has_ended self.old }
        ensures fine { OnOk result (failures_of self.new ≡ failures_of self.old) }
        ensures err { OnErr result (Keeps (held_by W.contents self.old) (held_by W.contents self.new)) }
        ensures failed { OnErr result (FailsToWrite W.writes bytes.now (inner_of self.old) (inner_of self.new)) }
        ensures cause { OnErr result (failures_of self.new ≡ failures_of self.old + 1) }
    {
        match try_write(&mut self.inner, bytes) {
            Attempt::Done(0) | Attempt::Interrupted | Attempt::Failed => Err(self.fail()),
            Attempt::Done(taken) => Ok(taken),
        }
    }

    /// Writes all bytes, or, where the device fails, some of the first ones, which the error counts.
    pub fn put_all(&mut self, bytes: &[u8]) -> Result<(), Short>
        requires { failures_of self.old < 2 ^ 64 - 1 }
        ensures ok { OnOk result
            (Appends (held_by W.contents self.old) (held_by W.contents self.new) bytes.now) }
        ensures wrote { OnOk result
            (Took W.writes bytes.now (inner_of self.old) (length bytes.now) (inner_of self.new)) }
        ensures end { has_ended self.new ≡ has_ended self.old }
        ensures fine { OnOk result (failures_of self.new ≡ failures_of self.old) }
        ensures within { IfErr result (λ short. short.written < length bytes.now) }
        ensures err { IfErr result (λ short.
            Appends (held_by W.contents self.old) (held_by W.contents self.new) (take short.written bytes.now)) }
        ensures failed { IfErr result (λ short.
            TookPart W.writes bytes.now (inner_of self.old) short.written (inner_of self.new)) }
        ensures cause { OnErr result (failures_of self.new ≡ failures_of self.old + 1) }
    {
        let mut written = 0;
        while written < bytes.len() {
            match self.put_some(&bytes[written..]) {
                Ok(taken) => written += taken,
                Err(_) => return Err(Short { written }),
            }
        }
        Ok(())
    }

    /// Has the device pass on what it holds back.
    pub fn flush(&mut self) -> Result<(), Failed>
        requires { failures_of self.old < 2 ^ 64 - 1 }
        ensures kept { Keeps (held_by W.contents self.old) (held_by W.contents self.new) }
        ensures flushed { OnOk result
            (Tried W.flushes (inner_of self.old) (Attempt.Done tt) (inner_of self.new)) }
        ensures end { has_ended self.new ≡ has_ended self.old }
        ensures fine { OnOk result (failures_of self.new ≡ failures_of self.old) }
        ensures failed { OnErr result (Fails W.flushes (inner_of self.old) (inner_of self.new)) }
        ensures cause { OnErr result (failures_of self.new ≡ failures_of self.old + 1) }
    {
        match try_flush(&mut self.inner) {
            Attempt::Done(()) => Ok(()),
            Attempt::Interrupted | Attempt::Failed => Err(self.fail()),
        }
    }
}

/// Reads a byte, and again where that was interrupted.
fn try_read<R: Input>(device: &mut R) -> Attempt<Option<u8>>
    ensures tried { Tried R.reads device.old result device.new }
    ensures bytes { Gives result (R.remaining device.old) (R.remaining device.new) }
{
    for _ in 0..RETRIES {
        let answer = device.read_byte();
        if answer != Attempt::Interrupted {
            return answer;
        }
    }
    device.read_byte()
}

/// Writes some of the first bytes, and again where that was interrupted.
fn try_write<W: Output>(device: &mut W, bytes: &[u8]) -> Attempt<usize>
    ensures tried { Tried (W.writes bytes.now) device.old result device.new }
    ensures bytes { Takes result bytes.now (W.contents device.old) (W.contents device.new) }
{
    for _ in 0..RETRIES {
        let answer = device.write_some(bytes);
        if answer != Attempt::Interrupted {
            return answer;
        }
    }
    device.write_some(bytes)
}

/// Passes on what the device holds back, and again where that was interrupted.
fn try_flush<W: Output>(device: &mut W) -> Attempt<()>
    ensures tried { Tried W.flushes device.old result device.new }
    ensures bytes { Keeps (W.contents device.old) (W.contents device.new) }
{
    for _ in 0..RETRIES {
        let answer = device.pass_on();
        if answer != Attempt::Interrupted {
            return answer;
        }
    }
    device.pass_on()
}
