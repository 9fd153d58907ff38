// The program's run: standard input to standard output.
ghost use Rattle.planning.specs.Runs.{Ran, Answered};

use crate::plan;
use status::{Outcome, Stop};
use std::rt::Clock;
use worklist::Collected;

// Bytes of a buffer.
const BUFFER: usize = 65_536;

// Writes what the bytes read give.
fn answer<R: Print + Clock>(rt: &R, input: &[u8]) -> Outcome
    ensures { Answered input.now result }
{
    let mut out = [0u8; BUFFER];
    let end = plan::print_list(input, &mut out);
    let (ended, written) = match streams::write_all(rt, &out[..end]) {
        Ok(taken) => (Ok(()), taken),
        Err(unwritten) => (Err(Stop::WriteFailed(unwritten.failure)), unwritten.taken),
    };
    Outcome {
        ended,
        read: input.len() as u64,
        written: written as u64,
    }
}

// Reads the bytes that settle what is printed, and answers them. Where a read fails nothing is printed.
fn read_and_answer<R: Input + Print + Clock>(rt: &R) -> Outcome
    ensures { Ran result }
{
    let mut reader = rt.reader();
    let mut input = [0u8; BUFFER];
    let most = Collected::MOST_READ;
    let mut n: usize = 0;
    while n < most {
        match streams::read_some(rt, &mut reader, &mut input[n..most]) {
            Ok(Some(more)) => n += more,
            Ok(None) => return answer(rt, &input[..n]),
            Err(failure) => {
                return Outcome {
                    ended: Err(Stop::ReadFailed(failure)),
                    read: n as u64,
                    written: 0,
                };
            }
        }
    }
    answer(rt, &input[..n])
}

// Reads standard input to its end, or as many bytes as settle what is printed, and writes that. Where a read or a write fails, which is said, it goes no
// further.
pub fn run<R: Input + Print + Eprint + Clock>(rt: &R) -> Outcome
    ensures { Ran result }
{
    read_and_answer(rt).said(rt, "hindsight")
}
