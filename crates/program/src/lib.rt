// The two programs as one call each, for a `main`.
#![tactic(auto)]

ghost use Rattle.lines.specs.Printers.{board_program, sheet_program};
ghost use Rattle.printers.specs.Programs.{program_of};
ghost use Rattle.program.specs.Status.{Reported};

use printers::Program;
use running::run;
use std::rt::Clock;

// Runs a program; the exit status.
fn status_of_run<R: Input + Print + Eprint + Clock>(rt: &R, program: Program) -> u8
    ensures { Reported (program_of program) result }
{
    status::status_of(run::run(rt, program).ended)
}

// The board: reads a day on standard input and writes its answers on standard output; the exit status.
#[tactic(auto, unfolding(printers::specs::Programs::program_of))]
pub fn oven_run<R: Input + Print + Eprint + Clock>(rt: &R) -> u8
    ensures { Reported board_program result }
{
    status_of_run(rt, Program::Board)
}

// The sheet: reads a day on standard input and writes its pages on standard output; the exit status.
#[tactic(auto, unfolding(printers::specs::Programs::program_of))]
pub fn sheet_run<R: Input + Print + Eprint + Clock>(rt: &R) -> u8
    ensures { Reported sheet_program result }
{
    status_of_run(rt, Program::Sheet)
}
