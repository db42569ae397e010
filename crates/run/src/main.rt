// The program: an order sheet and clause text from standard input, the result lines to standard output. An input that could not be read whole has no result.

#![tactic(auto)]

use std::process::ExitCode;
use written::Form;

fn main(rt: HostRuntime) -> ExitCode {
    let mut input = [0u8; 65537];
    let mut out = [0u8; 20544];
    program::run(&rt, &mut rt.stdin(), "run", Form::Own, &mut input, &mut out)
}
