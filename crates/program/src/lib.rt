// What a program does, whatever the form of its text: from a reader to what it prints to, and words on standard error where one of them fails.

#![tactic(auto)]

ghost use Rattle.std.specs.Prelude.{◌<◌, ◌≤◌, length};
ghost use Rattle.written.specs.Limits.{narrow};
ghost use Rattle.written.specs.Program.{report_size};

use std::io::Read;
use std::process::ExitCode;
use written::Form;

// An input that could not be read whole has no result, and a program without a result fails. It is lent room for its input and for what it prints.
pub fn run<R: Read>(
    rt: &(impl Print + Eprint),
    reader: &mut R,
    name: &str,
    form: Form,
    input: &mut [u8],
    out: &mut [u8],
) -> ExitCode
    requires more { narrow.text < length input.old }
    requires room { report_size narrow ≤ length out.old }
{
    let seen = standard_input::read_input(reader, input);
    let n = running_alone::run_read(form, input, seen.read, seen.last, out);
    if n == 0 {
        let what = "no result, since standard input could not be read to its end";
        standard_input::tell(rt, name, what, &standard_input::failure(seen.last));
        return ExitCode::FAILURE;
    }
    if let Err(why) = rt.write_all(&out[..n]) {
        standard_input::tell(rt, name, "the result could not be written", &why);
        return ExitCode::FAILURE;
    }
    ExitCode::SUCCESS
}
