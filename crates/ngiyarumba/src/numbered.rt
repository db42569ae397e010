// A reading of numbered text over the boundary.
ghost use Rattle.std.specs.Prelude.{◌≡◌};
ghost use Rattle.written.specs.Limits.{narrow};
ghost use Rattle.written.specs.Lending.{lent_at};
ghost use Rattle.written.specs.Outcomes.{leaves, told, numbered_of};
ghost use Rattle.answers.specs.Answers.{read_answer};

use answers::read::ReadAnswer;
use written::Form;

// The same of numbered text: variable v is term v less 1, and its name is v in decimal.
pub fn ngi_read_numbered(
    text: &[u8],
    names: &mut [u64],
    values: &mut [u32],
    starts: &mut [u16],
    literals_table: &mut [u16],
    occurrence_starts: &mut [u16],
    occurrences: &mut [u16],
    true_counts: &mut [u16],
    break_counts: &mut [u16],
    uncovered_list: &mut [u16],
    places: &mut [u16],
    marks: &mut [u8],
) -> ReadAnswer
    ensures { leaves result
        (lent_at names.new values.new starts.new literals_table.new occurrence_starts.new occurrences.new true_counts.new break_counts.new
        uncovered_list.new places.new)
        marks.new
        ≡ told read_answer (numbered_of narrow text.now
        (lent_at names.old values.old starts.old literals_table.old occurrence_starts.old occurrences.old true_counts.old break_counts.old
        uncovered_list.old places.old)
        marks.old) }
{
    let answer = reading::read(
        Form::Numbered,
        text,
        names,
        values,
        starts,
        literals_table,
        occurrence_starts,
        occurrences,
        true_counts,
        break_counts,
        uncovered_list,
        places,
        marks,
    );
    answers::read::read_answer(answer)
}
