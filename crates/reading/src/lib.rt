// A text of either form read into the lent tables: they are cleared, a draft is made in some, and the others are worked out from it; no term is marked.
// The ten are lent one by one: of a struct of `&mut`s that is lent itself the check lends one field at a time, and a draft is made in five.

#![tactic(auto)]

ghost use Rattle.std.specs.Prelude.{◌≡◌, true, []};
ghost use Rattle.written.specs.Limits.{narrow};
ghost use Rattle.written.specs.Numbered.{read_as};
ghost use Rattle.written.specs.Lending.{lent_at};
ghost use Rattle.written.specs.Tables.{are_full};
ghost use Rattle.written.specs.Outcomes.{leaves, ten, ten_of, read_leaves, read_into};
ghost use Rattle.reading_end.specs.Bare.{Bare};

use tables::Tables;
use written::{Counts, Fault, Form, Reason};

// A text read into full tables of 0: they are 0 again where it is refused.
fn read_cleared(
    form: Form,
    text: &[u8],
    names: &mut [u64],
    values: &mut [u32],
    starts: &mut [u16],
    literals: &mut [u16],
    occurrence_starts: &mut [u16],
    occurrences: &mut [u16],
    trues: &mut [u16],
    breaks: &mut [u16],
    uncovered: &mut [u16],
    places: &mut [u16],
) -> Result<Counts, Fault>
    requires { Bare narrow (lent_at names.old values.old starts.old literals.old occurrence_starts.old occurrences.old trues.old breaks.old
        uncovered.old places.old) }
    ensures { ten result (lent_at names.new values.new starts.new literals.new occurrence_starts.new occurrences.new trues.new breaks.new
        uncovered.new places.new)
        ≡ ten_of (read_leaves narrow (lent_at names.old values.old starts.old literals.old occurrence_starts.old occurrences.old trues.old
        breaks.old uncovered.old places.old)
        [] (read_as form narrow text.now)) }
{
    reading_end::verdict(text).map_err(|reason| Fault { reason, line: 0 })?;
    match reading_draft::draft(form, text, names, starts, literals, breaks, places) {
        Err(fault) => {
            reading_end::clear_draft(names, starts, literals, breaks, places);
            return Err(fault);
        }
        Ok(p) => {
            let n = reading_end::finish(
                p,
                values,
                starts,
                literals,
                occurrence_starts,
                occurrences,
                trues,
                breaks,
                uncovered,
                places,
            );
            return Ok(n);
        }
    }
}

// A text read into full tables, or a refusal that leaves them 0.
pub fn read_full(
    form: Form,
    text: &[u8],
    names: &mut [u64],
    values: &mut [u32],
    starts: &mut [u16],
    literals: &mut [u16],
    occurrence_starts: &mut [u16],
    occurrences: &mut [u16],
    trues: &mut [u16],
    breaks: &mut [u16],
    uncovered: &mut [u16],
    places: &mut [u16],
) -> Result<Counts, Fault>
    requires { are_full narrow (lent_at names.old values.old starts.old literals.old occurrence_starts.old occurrences.old trues.old breaks.old
        uncovered.old places.old) ≡ true }
    ensures { ten result (lent_at names.new values.new starts.new literals.new occurrence_starts.new occurrences.new trues.new breaks.new
        uncovered.new places.new)
        ≡ ten_of (read_leaves narrow (lent_at names.old values.old starts.old literals.old occurrence_starts.old occurrences.old trues.old
        breaks.old uncovered.old places.old)
        [] (read_as form narrow text.now)) }
{
    reading_end::clear_draft(names, starts, literals, breaks, places);
    reading_end::clear_others(values, occurrence_starts, occurrences, trues, uncovered);
    read_cleared(
        form,
        text,
        names,
        values,
        starts,
        literals,
        occurrence_starts,
        occurrences,
        trues,
        breaks,
        uncovered,
        places,
    )
}

// A reading of a text into the lent tables, or a refusal that leaves them 0; no term is marked then. Where one is too short, nothing changes.
pub fn read(
    form: Form,
    text: &[u8],
    names: &mut [u64],
    values: &mut [u32],
    starts: &mut [u16],
    literals: &mut [u16],
    occurrence_starts: &mut [u16],
    occurrences: &mut [u16],
    trues: &mut [u16],
    breaks: &mut [u16],
    uncovered: &mut [u16],
    places: &mut [u16],
    marks: &mut [u8],
) -> Result<Counts, Fault>
    ensures { leaves result (lent_at names.new values.new starts.new literals.new occurrence_starts.new occurrences.new trues.new breaks.new
        uncovered.new places.new) marks.new
        ≡ read_into narrow (read_as form narrow text.now)
        (lent_at names.old values.old starts.old literals.old occurrence_starts.old occurrences.old trues.old breaks.old uncovered.old places.old)
        marks.old }
{
    let tables = Tables {
        names,
        values,
        starts,
        literals,
        occurrence_starts,
        occurrences,
        trues,
        breaks,
        uncovered,
        places,
    };
    if !tables.all_full(marks) {
        return Err(Fault {
            reason: Reason::TableTooShort,
            line: 0,
        });
    }
    tables::clear(marks, 2048, 0);
    read_full(
        form,
        text,
        names,
        values,
        starts,
        literals,
        occurrence_starts,
        occurrences,
        trues,
        breaks,
        uncovered,
        places,
    )
}
