// The board: a day's lines in, their answers out.
#![tactic(auto)]

use std::process::ExitCode;

fn main(rt: HostRuntime) -> ExitCode {
    let wrong = starting::wrong_argument(&rt, "oven", "a day");
    ExitCode::from(wrong.unwrap_or_else(|| program::oven_run(&rt)))
}
