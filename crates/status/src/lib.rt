// How a program's run ends, and its exit status.
#![tactic(auto)]

ghost use Rattle.std.specs.Prelude.{◌≡◌};
ghost use Rattle.status.specs.Status.{status};

use streams::failure::Failure;
use thiserror::Error;

// What stopped a run before its end: a read failed, a write failed, or the input is too long.
#[derive(Clone, Copy, Debug, Error)]
pub enum Stop {
    #[error("cannot read standard input: {0}")]
    ReadFailed(Failure),
    #[error("cannot write standard output: {0}")]
    WriteFailed(Failure),
    #[error("more than {} bytes of input", Outcome::MOST_READ)]
    TooLong,
}

// How a run ended: the end of input was read and all that is printed was written, or something stopped it.
pub type Ended = Result<(), Stop>;

// What a run did: how it ended, how many bytes it read, and how many of those that it printed the system took.
#[derive(Clone, Copy)]
pub struct Outcome {
    pub ended: Ended,
    pub read: u64,
    pub written: u64,
}

impl Outcome {
    // Bytes read before the last read, at the most: so few that no count of a run wraps, however many lines they are.
    pub const MOST_READ: u64 = 1 << 48;

    // The outcome itself, once what stopped the run of the program with this name is said on standard error.
    pub fn said<R: Eprint>(self, rt: &R, name: &str) -> Outcome
        ensures { result ≡ self }
    {
        if let Err(stop) = self.ended {
            let _ = eprintln!(rt; "{name}: {stop}");
        }
        self
    }
}

// The exit status of a run that ended so. (A `From` is no plainer: the two arms are those of `status`, the definition.)
#[tactic(auto, unfolding(crate::specs::Status::status))]
pub fn status_of(ended: Ended) -> u8
    ensures { result ≡ status ended }
{
    match ended {
        Ok(()) => 0,
        Err(_) => 1,
    }
}
