// A flip list over the boundary.
ghost use Rattle.std.specs.Prelude.{◌≡◌};
ghost use Rattle.written.specs.Limits.{narrow};
ghost use Rattle.written.specs.Lending.{lent_at};
ghost use Rattle.written.specs.Outcomes.{leaves, told, flips_of};
ghost use Rattle.answers.specs.Answers.{flip_answer, counts};

use answers::flip::FlipAnswer;
use written::Counts;

// The terms of the list flipped, in order, or a refusal that changes nothing.
pub fn ngi_flip(
    list: &[u16],
    terms: u32,
    clauses: u32,
    literals: u32,
    uncovered: u32,
    names: &[u64],
    values: &mut [u32],
    starts: &[u16],
    literals_table: &[u16],
    occurrence_starts: &[u16],
    occurrences: &[u16],
    true_counts: &mut [u16],
    break_counts: &mut [u16],
    uncovered_list: &mut [u16],
    places: &mut [u16],
    marks: &[u8],
) -> FlipAnswer
    ensures { leaves result
        (lent_at names.now values.new starts.now literals_table.now occurrence_starts.now occurrences.now true_counts.new break_counts.new
        uncovered_list.new places.new)
        marks.now
        ≡ told flip_answer (flips_of narrow list.now (counts terms clauses literals uncovered)
        (lent_at names.now values.old starts.now literals_table.now occurrence_starts.now occurrences.now true_counts.old break_counts.old
        uncovered_list.old places.old)
        marks.now) }
{
    let n = Counts {
        terms,
        clauses,
        literals,
        uncovered,
    };
    let answer = flipping_lists::apply(
        list,
        n,
        names,
        values,
        starts,
        literals_table,
        occurrence_starts,
        occurrences,
        true_counts,
        break_counts,
        uncovered_list,
        places,
        marks,
    );
    answers::flip::flip_answer(answer)
}
