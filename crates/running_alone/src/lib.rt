// A program's whole work with tables of its own: they take 162 KB of stack.

#![tactic(auto)]

ghost use Rattle.std.specs.Prelude.{◌≡◌, ◌≤◌, length};
ghost use Rattle.written.specs.Limits.{narrow};
ghost use Rattle.written.specs.Program.{printed_as, report_size};
ghost use Rattle.pages.specs.Pages.{page, put};
ghost use Rattle.running_alone.specs.Seeing.{end_told, CanSee, shown_as, Within};

use written::Form;

// What is printed stands first in `out`.
pub fn run_alone(form: Form, input: &[u8], out: &mut [u8]) -> usize
    requires { report_size narrow ≤ length out.old }
    ensures { (page result out.new ≡ put (printed_as form narrow input.now) (page 0 out.old)) × Within result out.new }
{
    let mut names = [0u64; 2048];
    let mut values = [0u32; 64];
    let mut starts = [0u16; 8193];
    let mut literals = [0u16; 16384];
    let mut occurrence_starts = [0u16; 4097];
    let mut occurrences = [0u16; 16384];
    let mut trues = [0u16; 8192];
    let mut breaks = [0u16; 2048];
    let mut uncovered = [0u16; 8192];
    let mut places = [0u16; 8192];
    let mut marks = [0u8; 2048];
    let answer = running::run_sheet(
        form,
        input,
        &mut names,
        &mut values,
        &mut starts,
        &mut literals,
        &mut occurrence_starts,
        &mut occurrences,
        &mut trues,
        &mut breaks,
        &mut uncovered,
        &mut places,
        &mut marks,
        out,
    );
    answer.length
}

// Whether what `read` answered last tells the input's end: more than 0 goes on, and less is a failure.
fn is_end(last: isize) -> bool
    ensures { result ≡ end_told last }
{
    last == 0
}

// The same of the bytes that were read into a buffer. It has room for one more than an input may have, so that a longer one is noticed.
// Nothing is shown of an input that was not read to its end.
pub fn run_read(form: Form, buffer: &[u8], read: usize, last: isize, out: &mut [u8]) -> usize
    requires { CanSee narrow read buffer.now out.old }
    ensures { (page result out.new ≡ put (shown_as form narrow read last buffer.now) (page 0 out.old))
        × Within result out.new }
{
    if 65536 < read {
        return run_alone(form, &buffer[..read], out);
    }
    if is_end(last) {
        return run_alone(form, &buffer[..read], out);
    }
    0
}
