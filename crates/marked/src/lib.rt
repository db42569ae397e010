// The lent tables with the marks of terms, for any contents, any lengths and any counts: whether they are full and agree (reason 12). Nothing is changed.
// The functions that are not lent the ten tables may ask what the tests before them have shown.

#![tactic(auto)]

ghost use Rattle.std.specs.Prelude.{◌≡◌, ◌&&◌, ◌≤◌, length, eqb};
ghost use Rattle.words.specs.Words.{bit_at};
ghost use Rattle.written.specs.Lists.{all, list_of};
ghost use Rattle.written.specs.Limits.{narrow};
ghost use Rattle.written.specs.Lending.{lent_at};
ghost use Rattle.written.specs.Marks.{full_marked, marks_hold, marks_rest, agree_marked};
ghost use Rattle.marked.specs.Tests.{as_marked};

use tables::Tables;
use written::Counts;

// ---- the marks

// The mark of the term t goes with its value, which is looked at only where the term is pinned.
fn mark_holds(mark: u8, values: &[u32], t: usize) -> bool
    ensures { result ≡ as_marked mark (bit_at values.now t) }
{
    match mark {
        0 => true,
        1 => words::value(values, t) == 0,
        2 => words::value(values, t) == 1,
        _ => false,
    }
}

// Each mark of a term goes with the term's value.
fn marks_hold(terms: usize, values: &[u32], marks: &[u8]) -> bool
    requires { terms ≤ length marks.now }
    ensures { result ≡ marks_hold marks.now (list_of terms (bit_at values.now)) }
{
    for t in 0..terms {
        if !mark_holds(marks[t], values, t) {
            return false;
        }
    }
    true
}

// Every mark is 0. With no way out of the loop, several are taken at a time; `agreeing_rest::all_zero` says why the two are apart.
fn no_marks(marks: &[u8]) -> bool
    ensures { result ≡ all (λ m. eqb m 0) marks.now }
{
    let mut joined: u8 = 0;
    for mark in marks {
        joined |= *mark;
    }
    joined == 0
}

// The marks past the terms are 0, up to the full size.
fn marks_rest(n: Counts, marks: &[u8]) -> bool
    requires { (n.terms ≤ 2048) × (2048 ≤ length marks.now) }
    ensures { result ≡ marks_rest narrow n marks.now }
{
    no_marks(&marks[n.terms as usize..2048])
}

// The marks are those of the values, and the rest of them is 0.
fn marks_agree(n: Counts, values: &[u32], marks: &[u8]) -> bool
    requires { (n.terms ≤ 2048) × (2048 ≤ length marks.now) }
    ensures { result ≡ (marks_hold marks.now (list_of n.terms (bit_at values.now)) && marks_rest narrow n marks.now) }
{
    marks_hold(n.terms as usize, values, marks) && marks_rest(n, marks)
}

// ---- all together

// The tables are full and agree, the marks with the values.
pub fn agrees(n: Counts, tables: Tables, marks: &[u8]) -> bool
    ensures { let t = tables.entry in let u = lent_at t.names.now t.values.now t.starts.now t.literals.now t.occurrence_starts.now t.occurrences.now t.trues.now
        t.breaks.now t.uncovered.now t.places.now in
        result ≡ (full_marked narrow u marks.now && agree_marked narrow n u marks.now) }
{
    marks.len() >= 2048 && agreeing::agrees(n, tables) && marks_agree(n, tables.values, marks)
}
