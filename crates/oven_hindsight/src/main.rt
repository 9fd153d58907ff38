// The best day in hindsight: a list of racks in, the slots of its plan out.
#![tactic(auto)]

use std::process::ExitCode;

fn main(rt: HostRuntime) -> ExitCode {
    let wrong = starting::wrong_argument(&rt, "hindsight", "a list of racks");
    ExitCode::from(wrong.unwrap_or_else(|| planning::hindsight_run(&rt)))
}
