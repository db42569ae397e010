// Whether names, starts, literals and occurrences hold a file: these points of agreement, in the document's order; nothing is changed.
// A function that another crate of the library calls may ask what the points before it have shown, which its caller proves; none is exported.

#![tactic(auto)]

ghost use Rattle.std.specs.Prelude.{◌≡◌, true, ◌&&◌, [], ℕ, ◌*◌, ◌≤◌, ◌<◌, length, get_or, take};
ghost use Rattle.written.specs.Lists.{all, differ, steps};
ghost use Rattle.written.specs.Limits.{narrow};
ghost use Rattle.written.specs.Tables.{full_sizes};
ghost use Rattle.written.specs.Agreement.{part_of, is_name, counts_fit};
ghost use Rattle.machine.specs.Moving.{CanPart};
ghost use Rattle.machine.specs.Judging.{clauses_in, starts_right, literals_right, turned_right, file_right, passes};
ghost use Rattle.agreeing_file.specs.Marks.{is_fresh, mark_term, CanMark};
ghost use Rattle.agreeing_file.specs.Matching.{cuts_right, stands_at, is_next, pass_one, clause_next, pass_clause};
ghost use Rattle.agreeing_file.specs.Matching.{clauses_next, pass_clauses, runs_passed, CanPass, CanPassAll, CanMatch};
ghost use Rattle.machine.specs.Slots.{Indexed};
ghost use Rattle.names.specs.Finding.{homes};

use tables::Tables;
use written::Counts;

// ---- names, starts, literals

// A name of 1 to 8 bytes, each 33 to 125, the first lowest.
fn is_name(x: u64) -> bool
    ensures { result ≡ is_name x }
{
    if x == 0 {
        return false;
    }
    let mut rest = x;
    for _ in 0..8u32 {
        if rest == 0 {
            return true;
        }
        let b = (rest % 256) as u8;
        if !(b'!'..=b'}').contains(&b) {
            return false;
        }
        rest /= 256;
    }
    rest == 0
}

// Every name is valid.
fn names_valid(names: &[u64]) -> bool
    ensures { result ≡ all is_name names.now }
{
    names.iter().all(|x| is_name(*x))
}

// No name stands twice, by slots that are empty at first.
fn names_new(names: &[u64], slots: &mut [u16]) -> bool
    requires { (length names.now ≤ narrow.terms) × Indexed homes narrow.terms [] slots.old }
    ensures { result ≡ differ names.now }
{
    for (i, x) in names.iter().enumerate() {
        match names::find(names, slots, i, *x) {
            Ok(_) => {
                return false;
            }
            Err(s) => {
                slots[s] = (i + 1) as u16;
            }
        }
    }
    true
}

// No name stands twice.
fn names_differ(names: &[u64]) -> bool
    requires { length names.now ≤ narrow.terms }
    ensures { result ≡ differ names.now }
{
    let mut slots = [0u16; 8192];
    names_new(names, &mut slots)
}

// The names in use are valid and differ.
fn names_agree(n: Counts, names: &[u64]) -> bool
    requires { (n.terms ≤ narrow.terms) × (n.terms ≤ length names.now) }
    ensures { result ≡ (all is_name (take n.terms names.now) && differ (take n.terms names.now)) }
{
    let terms = n.terms as usize;
    let known = &names[..terms];
    names_valid(known) && names_differ(known)
}

// Starts begin at 0, rise strictly by clause and end at the literal count.
fn starts_agree(n: Counts, starts: &[u16]) -> bool
    requires { n.clauses < length starts.now }
    ensures { result ≡ starts_right n.clauses n.literals starts.now }
{
    let clauses = n.clauses as usize;
    starts[0] == 0
        && starts[..=clauses].is_sorted_by(|a, b| a < b)
        && usize::from(starts[clauses]) == n.literals as usize
}

// Each literal's term is one of the terms and does not have the mark; it then gets it.
fn clause_agrees(terms: usize, clause: &[u16], mark: u16, marks: &mut [u16]) -> bool
    requires { terms ≤ length marks.old }
    ensures { (result ≡ passes (is_fresh terms mark) (mark_term mark) clause.now marks.old)
        × (result ≡ true → marks.new ≡ steps (mark_term mark) clause.now marks.old) }
{
    for l in clause {
        let t = usize::from(*l / 2);
        if terms <= t {
            return false;
        }
        if marks[t] == mark {
            return false;
        }
        marks[t] = mark;
    }
    true
}

// Every clause is right, by marks that are 0 at first. Clause c has the mark c + 1.
fn clauses_agree(n: Counts, starts: &[u16], literals: &[u16], marks: &mut [u16]) -> bool
    requires { CanMark 65536 (length marks.old) n.terms n.clauses starts.now literals.now × ((t : ℕ) → get_or marks.old t 0 ≡ 0) }
    ensures { result ≡ literals_right n.terms (clauses_in n.clauses starts.now literals.now) }
{
    let terms = n.terms as usize;
    let clauses = n.clauses as usize;
    for c in 0..clauses {
        if !clause_agrees(
            terms,
            tables::part(starts, literals, c),
            (c + 1) as u16,
            marks,
        ) {
            return false;
        }
    }
    true
}

// Literals are below twice the terms, each term at most once in a clause.
fn literals_agree(n: Counts, starts: &[u16], literals: &[u16]) -> bool
    requires { CanMark 65536 2048 n.terms n.clauses starts.now literals.now }
    ensures { result ≡ literals_right n.terms (clauses_in n.clauses starts.now literals.now) }
{
    let mut marks = [0u16; 2048];
    clauses_agree(n, starts, literals, &mut marks)
}

// Names, starts and literals hold a file.
fn file_agrees(n: Counts, names: &[u64], starts: &[u16], literals: &[u16]) -> bool
    requires { (counts_fit narrow n ≡ true) × ((full_sizes narrow).names ≤ length names.now) × ((full_sizes narrow).starts ≤ length starts.now)
        × ((full_sizes narrow).literals ≤ length literals.now) }
    ensures { result ≡ ((all is_name (take n.terms names.now) && differ (take n.terms names.now))
        && starts_right n.clauses n.literals starts.now
        && literals_right n.terms (clauses_in n.clauses starts.now literals.now)) }
{
    names_agree(n, names) && starts_agree(n, starts) && literals_agree(n, starts, literals)
}

// ---- occurrences

// Starts of that many parts begin at 0, never fall, and end at `end`.
// Apart from starts_agree: a run may be empty and a clause may not; lent the order by a closure, the three tests would be no shorter.
fn starts_cut(starts: &[u16], parts: usize, end: usize) -> bool
    requires { parts < length starts.now }
    ensures { result ≡ cuts_right parts end starts.now }
{
    starts[0] == 0 && starts[..=parts].is_sorted() && usize::from(starts[parts]) == end
}

// Entry k of a run is clause c.
fn stands_at(run: &[u16], k: usize, c: u16) -> bool
    ensures { result ≡ stands_at run.now k c }
{
    k < run.len() && run[k] == c
}

// Clause c stands next in the run of literal l, and is passed; `passed` counts how many of each run are.
fn literal_next(
    occurrence_starts: &[u16],
    occurrences: &[u16],
    passed: &mut [u16],
    l: usize,
    c: u16,
) -> bool
    requires { CanPass 65536 occurrence_starts.now occurrences.now passed.old l }
    ensures { (result ≡ is_next (part_of occurrence_starts.now occurrences.now) c l passed.old)
        × (result ≡ true → passed.new ≡ pass_one l passed.old) }
{
    let run = tables::part(occurrence_starts, occurrences, l);
    let k = passed[l];
    if stands_at(run, usize::from(k), c) {
        passed[l] = k + 1;
        true
    } else {
        false
    }
}

// Clause c stands next in the run of each of its literals.
fn clause_next(
    clause: &[u16],
    occurrence_starts: &[u16],
    occurrences: &[u16],
    passed: &mut [u16],
    c: u16,
) -> bool
    requires { (k : ℕ) → k < length clause.now → CanPass 65536 occurrence_starts.now occurrences.now passed.old (get_or clause.now k 0) }
    ensures { (result ≡ clause_next (part_of occurrence_starts.now occurrences.now) c clause.now passed.old)
        × (result ≡ true → passed.new ≡ pass_clause clause.now passed.old) }
{
    for l in clause {
        if !literal_next(occurrence_starts, occurrences, passed, usize::from(*l), c) {
            return false;
        }
    }
    true
}

// Every clause, one after another, stands next in the runs of its literals.
fn clauses_next(
    n: Counts,
    starts: &[u16],
    literals: &[u16],
    occurrence_starts: &[u16],
    occurrences: &[u16],
    passed: &mut [u16],
) -> bool
    requires { CanPassAll 65536 n.clauses starts.now literals.now occurrence_starts.now occurrences.now passed.old }
    ensures { (result ≡ clauses_next (part_of occurrence_starts.now occurrences.now)
        (part_of starts.now literals.now) n.clauses passed.old)
        × (result ≡ true → passed.new ≡ pass_clauses (part_of starts.now literals.now) n.clauses passed.old) }
{
    let clauses = n.clauses as usize;
    for c in 0..clauses {
        if !clause_next(
            tables::part(starts, literals, c),
            occurrence_starts,
            occurrences,
            passed,
            c as u16,
        ) {
            return false;
        }
    }
    true
}

// Every run is passed to its end.
fn runs_passed(n: Counts, occurrence_starts: &[u16], occurrences: &[u16], passed: &[u16]) -> bool
    requires { ((l : ℕ) → l < 2 * n.terms → CanPart occurrence_starts.now occurrences.now l) × (2 * n.terms ≤ length passed.now) }
    ensures { result ≡ runs_passed (2 * n.terms) (part_of occurrence_starts.now occurrences.now) passed.now }
{
    let runs = 2 * (n.terms as usize);
    for l in 0..runs {
        let k = usize::from(passed[l]);
        let run = tables::part(occurrence_starts, occurrences, l);
        if k < run.len() {
            return false;
        }
    }
    true
}

// Occurrence starts and occurrences are exactly the literals turned round.
fn occurrences_agree(
    n: Counts,
    starts: &[u16],
    literals: &[u16],
    occurrence_starts: &[u16],
    occurrences: &[u16],
) -> bool
    requires { CanMatch 65536 4096 n.terms n.clauses n.literals starts.now literals.now occurrence_starts.now occurrences.now }
    ensures { result ≡ turned_right n.terms n.literals (clauses_in n.clauses starts.now literals.now)
        occurrence_starts.now occurrences.now }
{
    if !starts_cut(
        occurrence_starts,
        2 * (n.terms as usize),
        n.literals as usize,
    ) {
        return false;
    }
    let mut passed = [0u16; 4096];
    clauses_next(
        n,
        starts,
        literals,
        occurrence_starts,
        occurrences,
        &mut passed,
    ) && runs_passed(n, occurrence_starts, occurrences, &passed)
}

// ---- the points together

// Names, starts, literals and occurrences hold a file.
pub fn clauses_hold(n: Counts, tables: Tables) -> bool
    requires { let t = tables in (counts_fit narrow n ≡ true) × ((full_sizes narrow).names ≤ length t.names.now)
        × ((full_sizes narrow).starts ≤ length t.starts.now) × ((full_sizes narrow).literals ≤ length t.literals.now)
        × ((full_sizes narrow).occurrence_starts ≤ length t.occurrence_starts.now) × ((full_sizes narrow).occurrences ≤ length t.occurrences.now) }
    ensures { let t = tables.entry in result ≡ (file_right n t.names.now t.starts.now t.literals.now
        && turned_right n.terms n.literals (clauses_in n.clauses t.starts.now t.literals.now) t.occurrence_starts.now t.occurrences.now) }
{
    let starts = tables.starts;
    let literals = tables.literals;
    file_agrees(n, tables.names, starts, literals)
        && occurrences_agree(
            n,
            starts,
            literals,
            tables.occurrence_starts,
            tables.occurrences,
        )
}
