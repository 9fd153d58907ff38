// How the programs start: they take no arguments.
#![tactic(auto)]

ghost use Rattle.std.specs.Prelude.{◌≡◌, IfSome};

use std::env::FillError;
use std::rt::Env;

// The exit status of a program that was given an argument.
pub const WRONG_ARGUMENT: u8 = 2;

// Whether the program was given an argument, which is said.
pub fn has_argument<R: Env + Eprint>(rt: &R, name: &str, input: &str) -> bool {
    let mut first = [0u8; 1];
    if let Err(FillError::NotPresent) = rt.arg(1, &mut first) {
        return false;
    }
    let _ = eprintln!(rt; "{name}: takes no arguments; it reads {input} on standard input");
    true
}

// The exit status of a program that was given an argument, which is said; none where it was given none.
pub fn wrong_argument<R: Env + Eprint>(rt: &R, name: &str, input: &str) -> Option<u8>
    ensures { IfSome result (λ status. status ≡ 2) }
{
    if has_argument(rt, name, input) {
        Some(WRONG_ARGUMENT)
    } else {
        None
    }
}
