// The program of the best day in hindsight as one call, for a `main`.
#![tactic(auto)]

ghost use Rattle.planning.specs.Status.{Reported};

pub mod plan;
pub mod run;

use std::rt::Clock;

// Reads a list of racks on standard input and writes their slots on standard output; the exit status.
pub fn hindsight_run<R: Input + Print + Eprint + Clock>(rt: &R) -> u8
    ensures { Reported result }
{
    status::status_of(run::run(rt).ended)
}
