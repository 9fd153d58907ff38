// Reads and writes, tried again where a signal came between or they would block. No contract can say which bytes the system moved: these say how many it
// answered for.
#![tactic(auto)]

ghost use Rattle.std.specs.Prelude.{◌≡◌, ◌≤◌, ◌<◌, length, IfOk, IfErr};
ghost use Rattle.streams.specs.Got.{Within};

pub mod failure;

use failure::Failure;
use std::io::{Error, ErrorKind, Read};
use std::rt::Clock;
use std::time::Duration;
use std::{io, thread};

// How often one call is tried at the most. With a rest of a millisecond before each new try that is thirty years.
const TRIES: u64 = 1_000_000_000_000;

// A write that failed: how many bytes were taken before it, and why.
#[derive(Clone, Copy)]
pub struct Unwritten {
    pub taken: usize,
    pub failure: Failure,
}

// A rest of a millisecond.
fn rest<R: Clock>(rt: &R) {
    thread::sleep(rt, Duration::from_millis(1));
}

// Whether the call that has just failed is to be tried again: a signal came between, or it would block, and then after a rest.
fn is_passing<R: Clock>(rt: &R, error: Error) -> bool {
    let kind = error.kind();
    if kind == ErrorKind::WouldBlock {
        rest(rt);
        return true;
    }
    kind == ErrorKind::Interrupted
}

// Reads once, or again where that is to be tried; how many bytes were read.
fn try_read<R: Clock, I: Read>(rt: &R, input: &mut I, buf: &mut [u8]) -> io::Result<usize>
    ensures { IfOk result (λ n. n ≤ length buf.old) }
{
    for _ in 1..TRIES {
        match input.read(buf) {
            Err(error) if is_passing(rt, error) => {}
            answer => return answer,
        }
    }
    input.read(buf)
}

// Writes once, or again where that is to be tried; how many bytes were taken. (One loop for both calls is no plainer: it takes a closure that holds the
// buffer, and a clause that each call of it keeps the buffer's length.)
fn try_write<R: Print + Clock>(rt: &R, buf: &[u8]) -> io::Result<usize>
    ensures { IfOk result (λ n. n ≤ length buf.now) }
{
    for _ in 1..TRIES {
        match rt.write_some(buf) {
            Err(error) if is_passing(rt, error) => {}
            answer => return answer,
        }
    }
    rt.write_some(buf)
}

// Reads once; how many bytes were read, or none at the end of input.
pub fn read_some<R: Clock, I: Read>(
    rt: &R,
    input: &mut I,
    buf: &mut [u8],
) -> Result<Option<usize>, Failure>
    ensures { Within result (length buf.old) }
{
    match try_read(rt, input, buf)? {
        0 => Ok(None),
        n => Ok(Some(n)),
    }
}

// Writes bytes, one at least; how many were taken. Where none was, the write failed.
fn write_some<R: Print + Clock>(rt: &R, buf: &[u8]) -> Result<usize, Failure>
    ensures { IfOk result (λ n. (1 ≤ n) × (n ≤ length buf.now)) }
{
    match try_write(rt, buf)? {
        0 => Err(Failure::from(Error::new(ErrorKind::WriteZero, "the system gave no reason"))),
        n => Ok(n),
    }
}

// Writes until all bytes are taken, or a write fails; how many were taken.
pub fn write_all<R: Print + Clock>(rt: &R, buf: &[u8]) -> Result<usize, Unwritten>
    ensures all { IfOk result (λ n. n ≡ length buf.now) }
    ensures fewer { IfErr result (λ e. e.taken < length buf.now) }
{
    let mut taken = 0;
    while taken < buf.len() {
        match write_some(rt, &buf[taken..]) {
            Ok(n) => taken += n,
            Err(failure) => return Err(Unwritten { taken, failure }),
        }
    }
    Ok(taken)
}
