// Why a read or a write failed, in the system's words.
ghost use Rattle.std.specs.Prelude.{◌≡◌};

use arrayvec::ArrayString;
use std::fmt;
use std::fmt::{Display, Formatter, Write};
use std::io::Error;

// Bytes that are enough for the text of an error.
const ROOM: usize = 320;

// A read or a write that failed.
#[derive(Clone, Copy, Debug)]
pub struct Failure {
    error: Error,
}

impl From<Error> for Failure {
    ghost from_gives = { λ error failure. failure.error ≡ error };

    fn from(error: Error) -> Failure {
        Failure { error }
    }
}

// The words alone, as the C library gives them: std's text of an error ends with its number, as ` (os error 5)`.
impl Display for Failure {
    fn fmt<W: fmt::Write>(&self, f: &mut Formatter<W>) -> fmt::Result {
        let mut said = ArrayString::<ROOM>::new();
        write!(said, "{}", self.error)?;
        let text = said.as_str();
        match text.split_once(" (os error ") {
            Some((words, _)) => f.write_str(words),
            None => f.write_str(text),
        }
    }
}
