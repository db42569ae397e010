// The program's whole work over the boundary.
ghost use Rattle.std.specs.Prelude.{◌≡◌};
ghost use Rattle.written.specs.Limits.{narrow};
ghost use Rattle.written.specs.Lending.{lent_at};
ghost use Rattle.written.specs.Program.{run_of};
ghost use Rattle.running_text.specs.Running.{answered};

use written::{Form, RunAnswer};

// What the program prints for the input stands first in `out`. Result 1 tells so, with its length; 0 that a table or `out` is too short (reason 1).
pub fn ngi_run(
    input: &[u8],
    names: &mut [u64],
    values: &mut [u32],
    starts: &mut [u16],
    literals_table: &mut [u16],
    occurrence_starts: &mut [u16],
    occurrences: &mut [u16],
    true_counts: &mut [u16],
    break_counts: &mut [u16],
    uncovered_list: &mut [u16],
    places: &mut [u16],
    marks: &mut [u8],
    out: &mut [u8],
) -> RunAnswer
    ensures { answered result
        (lent_at names.new values.new starts.new literals_table.new occurrence_starts.new occurrences.new true_counts.new break_counts.new
        uncovered_list.new places.new)
        marks.new out.new
        ≡ run_of narrow input.now
        (lent_at names.old values.old starts.old literals_table.old occurrence_starts.old occurrences.old true_counts.old break_counts.old
        uncovered_list.old places.old)
        marks.old out.old }
{
    running::run_sheet(
        Form::Own,
        input,
        names,
        values,
        starts,
        literals_table,
        occurrence_starts,
        occurrences,
        true_counts,
        break_counts,
        uncovered_list,
        places,
        marks,
        out,
    )
}
