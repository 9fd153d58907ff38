// The sheet for the oven door: a day's lines in, its pages out.
#![tactic(auto)]

use std::process::ExitCode;

fn main(rt: HostRuntime) -> ExitCode {
    let wrong = starting::wrong_argument(&rt, "sheet", "a day");
    ExitCode::from(wrong.unwrap_or_else(|| program::sheet_run(&rt)))
}
