// The programs' whole work on lent memory: an order sheet and a text of either form in, the result lines out.
// `begin` asks something of its tables and of the buffer by one record, which its caller proves; `run_sheet` asks nothing.
// The tables are lent one by one, as in `reading`.

#![tactic(auto)]

ghost use Rattle.std.specs.Prelude.{◌≡◌};
ghost use Rattle.written.specs.Limits.{narrow};
ghost use Rattle.written.specs.Lending.{lent_at};
ghost use Rattle.written.specs.Program.{course_as, ran_as, run_refused, run_as};
ghost use Rattle.running_text.specs.Running.{answered, ended, CanRun};

use running_input::Outset;
use tables::Tables;
use written::{Form, Reason, RunAnswer};

// A run from its outset: an input that is too long or has a faulty sheet is refused, else its text is read.
fn begin(
    form: Form,
    input: &[u8],
    names: &mut [u64],
    values: &mut [u32],
    starts: &mut [u16],
    literals: &mut [u16],
    occurrence_starts: &mut [u16],
    occurrences: &mut [u16],
    trues: &mut [u16],
    breaks: &mut [u16],
    uncovered: &mut [u16],
    places: &mut [u16],
    marks: &mut [u8],
    out: &mut [u8],
) -> usize
    requires { CanRun narrow (lent_at names.old values.old starts.old literals.old occurrence_starts.old occurrences.old trues.old breaks.old
        uncovered.old places.old) marks.old out.old }
    ensures { ended result (lent_at names.new values.new starts.new literals.new occurrence_starts.new occurrences.new trues.new breaks.new
        uncovered.new places.new) marks.new out.new
        ≡ ran_as form narrow (lent_at names.old values.old starts.old literals.old occurrence_starts.old occurrences.old trues.old breaks.old
        uncovered.old places.old) marks.old
        out.old
        (course_as form narrow input.now) }
{
    match running_input::set_out(input) {
        Outset::Long(e) => {
            reading_end::clear_draft(names, starts, literals, breaks, places);
            reading_end::clear_others(values, occurrence_starts, occurrences, trues, uncovered);
            tables::clear(marks, 2048, 0);
            running_forms::refusal(form, out, e)
        }
        Outset::Refused(e) => running_forms::refusal(form, out, e),
        Outset::Begins(s) => {
            let order = s.order;
            let at = s.at as usize;
            tables::clear(marks, 2048, 0);
            running_text::read_on(
                form,
                order,
                &input[at..],
                names,
                values,
                starts,
                literals,
                occurrence_starts,
                occurrences,
                trues,
                breaks,
                uncovered,
                places,
                marks,
                out,
            )
        }
    }
}

// Nothing is written where a table or `out` is shorter than its full size.
fn refused() -> RunAnswer
    ensures { result ≡ run_refused }
{
    RunAnswer {
        result: 0,
        reason: reasons::number_of(Reason::TableTooShort),
        length: 0,
    }
}

// What the program prints for the input stands first in `out`.
pub fn run_sheet(
    form: Form,
    input: &[u8],
    names: &mut [u64],
    values: &mut [u32],
    starts: &mut [u16],
    literals: &mut [u16],
    occurrence_starts: &mut [u16],
    occurrences: &mut [u16],
    trues: &mut [u16],
    breaks: &mut [u16],
    uncovered: &mut [u16],
    places: &mut [u16],
    marks: &mut [u8],
    out: &mut [u8],
) -> RunAnswer
    ensures { answered result (lent_at names.new values.new starts.new literals.new occurrence_starts.new occurrences.new trues.new breaks.new
        uncovered.new places.new) marks.new
        out.new
        ≡ run_as form narrow input.now (lent_at names.old values.old starts.old literals.old occurrence_starts.old occurrences.old trues.old
        breaks.old uncovered.old places.old)
        marks.old out.old }
{
    let tables = Tables {
        names,
        values,
        starts,
        literals,
        occurrence_starts,
        occurrences,
        trues,
        breaks,
        uncovered,
        places,
    };
    if !tables.all_full(marks) {
        return refused(); // a table is short
    }
    if out.len() < 20544 {
        return refused(); // no room for a report
    }
    let n = begin(
        form,
        input,
        names,
        values,
        starts,
        literals,
        occurrence_starts,
        occurrences,
        trues,
        breaks,
        uncovered,
        places,
        marks,
        out,
    );
    RunAnswer {
        result: 1,
        reason: 0,
        length: n,
    }
}
