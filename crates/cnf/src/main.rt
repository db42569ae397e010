// The program for numbered files: an order sheet and numbered text from standard input, the result lines in the form of the solvers' competition to
// standard output. An input that could not be read whole has no result.

#![tactic(auto)]

use std::process::ExitCode;
use written::Form;

fn main(rt: HostRuntime) -> ExitCode {
    let mut input = [0u8; 65537];
    let mut out = [0u8; 20544];
    program::run(
        &rt,
        &mut rt.stdin(),
        "cnf",
        Form::Numbered,
        &mut input,
        &mut out,
    )
}
