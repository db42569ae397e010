// A text of either form read and walked over, with no term pinned, and the result lines in a lent buffer.
// A function that asks something of its tables or of the buffer does so by one record, which its caller proves.
// The tables are lent one by one, as in `reading`.

#![tactic(auto)]

ghost use Rattle.std.specs.Prelude.{◌≡◌, []};
ghost use Rattle.written.specs.Limits.{narrow};
ghost use Rattle.written.specs.Lending.{lent_at};
ghost use Rattle.written.specs.Agreement.{file_in};
ghost use Rattle.written.specs.Numbered.{read_as};
ghost use Rattle.written.specs.Walk.{walk_over};
ghost use Rattle.written.specs.Program.{walked, after_reading, ran_as};
ghost use Rattle.running_text.specs.Running.{ended, CanRead, CanWalk};

use written::{Counts, Form, Order};

// The walks over tables that have just been read, and their report.
fn walk_on(
    form: Form,
    order: Order,
    n: Counts,
    names: &[u64],
    values: &mut [u32],
    starts: &[u16],
    literals: &[u16],
    occurrence_starts: &[u16],
    occurrences: &[u16],
    trues: &mut [u16],
    breaks: &mut [u16],
    uncovered: &mut [u16],
    places: &mut [u16],
    marks: &[u8],
    out: &mut [u8],
) -> usize
    requires { CanWalk narrow order n (lent_at names.now values.old starts.now literals.now occurrence_starts.now occurrences.now trues.old
        breaks.old uncovered.old places.old) marks.now out.old }
    ensures { ended result (lent_at names.now values.new starts.now literals.now occurrence_starts.now occurrences.now trues.new breaks.new
        uncovered.new places.new) marks.now out.new
        ≡ ran_as form narrow (lent_at names.now values.old starts.now literals.now occurrence_starts.now occurrences.now trues.old breaks.old
        uncovered.old places.old) marks.now
        out.old
        (walked (walk_over order [] (file_in n (lent_at names.now values.old starts.now literals.now occurrence_starts.now occurrences.now
        trues.old breaks.old uncovered.old places.old)))) }
{
    let answer = walking::walk_tested(
        order,
        n,
        names,
        values,
        starts,
        literals,
        occurrence_starts,
        occurrences,
        trues,
        breaks,
        uncovered,
        places,
        marks,
    );
    running_forms::report(form, out, Ok(answer), names, values)
}

// The text read, then walked over.
pub fn read_on(
    form: Form,
    order: Order,
    text: &[u8],
    names: &mut [u64],
    values: &mut [u32],
    starts: &mut [u16],
    literals: &mut [u16],
    occurrence_starts: &mut [u16],
    occurrences: &mut [u16],
    trues: &mut [u16],
    breaks: &mut [u16],
    uncovered: &mut [u16],
    places: &mut [u16],
    marks: &[u8],
    out: &mut [u8],
) -> usize
    requires { CanRead narrow order (lent_at names.old values.old starts.old literals.old occurrence_starts.old occurrences.old trues.old breaks.old
        uncovered.old places.old) marks.now out.old }
    ensures { ended result (lent_at names.new values.new starts.new literals.new occurrence_starts.new occurrences.new trues.new breaks.new
        uncovered.new places.new) marks.now out.new
        ≡ ran_as form narrow (lent_at names.old values.old starts.old literals.old occurrence_starts.old occurrences.old trues.old breaks.old
        uncovered.old places.old) marks.now
        out.old
        (after_reading order (read_as form narrow text.now)) }
{
    match reading::read_full(
        form,
        text,
        names,
        values,
        starts,
        literals,
        occurrence_starts,
        occurrences,
        trues,
        breaks,
        uncovered,
        places,
    ) {
        Err(e) => running_forms::refusal(form, out, e),
        Ok(n) => walk_on(
            form,
            order,
            n,
            names,
            values,
            starts,
            literals,
            occurrence_starts,
            occurrences,
            trues,
            breaks,
            uncovered,
            places,
            marks,
            out,
        ),
    }
}
