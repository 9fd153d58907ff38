// A program's run: standard input to standard output.
ghost use Rattle.std.specs.Prelude.{◌≡◌, ◌+◌, ◌≤◌, ◌<◌, ◌^◌, length};
ghost use Rattle.printers.specs.declared.Program.{Program};
ghost use Rattle.printers.specs.Programs.{program_of};
ghost use Rattle.running.specs.Runs.{buffer_length, Begun, WrittenSo, ChunkTaken, outcome_of, Stopped, Ran};

use crate::feed;
use crate::state::State;
use printers::Program;
use status::{Ended, Outcome, Stop};
use std::rt::Clock;

// Bytes of a buffer, and of a chunk at the most.
const BUFFER: usize = 65_536;

// A run so far: the state behind the bytes read, how many they are, and how many bytes of what is printed the system took.
#[derive(Drop)]
struct Progress {
    state: State,
    read: u64,
    written: u64,
}

impl Progress {
    // The run before its first read.
    fn new(program: Program) -> Progress
        ensures { Begun program result }
    {
        Progress {
            state: feed::new_state(program),
            read: 0,
            written: 0,
        }
    }

    // Writes bytes of what is printed.
    #[tactic(auto, unfolding(crate::specs::Runs::WrittenSo))]
    fn write<R: Print + Clock>(&mut self, rt: &R, bytes: &[u8]) -> Ended
        requires { self.old.written + length bytes.now < 2 ^ 64 }
        ensures kept { (self.new.state ≡ self.old.state) × (self.new.read ≡ self.old.read) }
        ensures written { WrittenSo result self.old.written (length bytes.now) self.new.written }
    {
        match streams::write_all(rt, bytes) {
            Ok(taken) => {
                self.written += taken as u64;
                Ok(())
            }
            Err(unwritten) => {
                self.written += unwritten.taken as u64;
                Err(Stop::WriteFailed(unwritten.failure))
            }
        }
    }

    // Takes in a whole chunk, and writes what it prints whenever the buffer has no room for a line more, and at its end.
    fn take_in<R: Print + Clock>(&mut self, rt: &R, chunk: &[u8], out: &mut [u8]) -> Ended
        requires few_lines { self.old.state.printer.number + length chunk.now < 2 ^ 63 }
        requires buffers { (length chunk.now ≤ buffer_length) × (length out.old ≡ buffer_length) }
        requires few_bytes { (self.old.read < 2 ^ 63) × (self.old.written < 2 ^ 63) }
        ensures { ChunkTaken self.old chunk.now self.new result }
    {
        self.read += chunk.len() as u64;
        let mut used: usize = 0;
        while used < chunk.len() {
            let fed = feed::feed(&mut self.state, chunk, used, out, 0);
            used = fed.used;
            self.write(rt, &out[..fed.at])?;
        }
        Ok(())
    }

    // The end of input: writes what is left to print.
    fn finish<R: Print + Clock>(&mut self, rt: &R, out: &mut [u8]) -> Ended
        requires few_lines { self.old.state.printer.number < 2 ^ 63 }
        requires buffer { length out.old ≡ buffer_length }
        requires few_bytes { self.old.written + buffer_length < 2 ^ 64 }
        ensures { Stopped self.old.state self.old.read self.old.written (outcome_of self.new result) }
    {
        let end = feed::finish(&mut self.state, out, 0);
        self.write(rt, &out[..end])
    }

    // Reads standard input to its end and writes what is printed, for the bytes of each read before the next read. Where a read or a write fails it goes no
    // further, and then neither the line that has begun nor what comes at the end is printed.
    fn read_to_end<R: Input + Print + Clock>(&mut self, rt: &R) -> Ended
        requires { (program : Program) × Begun program self.old }
        ensures { (program : Program) → Begun program self.old → Ran (program_of program) (outcome_of self.new result) }
    {
        let mut input = rt.reader();
        let mut chunk = [0u8; BUFFER];
        let mut out = [0u8; BUFFER];
        while self.read < Outcome::MOST_READ {
            match streams::read_some(rt, &mut input, &mut chunk) {
                Ok(Some(n)) => self.take_in(rt, &chunk[..n], &mut out)?,
                Ok(None) => return self.finish(rt, &mut out),
                Err(failure) => return Err(Stop::ReadFailed(failure)),
            }
        }
        Err(Stop::TooLong)
    }
}

// The name under which a program says what stopped it. A `Display` would be no plainer: it has the same two arms.
fn name_of(program: Program) -> &'static str {
    match program {
        Program::Board => "oven",
        Program::Sheet => "sheet",
    }
}

// A run of a program, to its end or to where a read or a write fails or the input is too long, which is said.
pub fn run<R: Input + Print + Eprint + Clock>(rt: &R, program: Program) -> Outcome
    ensures { Ran (program_of program) result }
{
    let mut progress = Progress::new(program);
    let ended = progress.read_to_end(rt);
    let outcome = Outcome {
        ended,
        read: progress.read,
        written: progress.written,
    };
    outcome.said(rt, name_of(program))
}
