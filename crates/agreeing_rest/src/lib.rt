// Whether the rest of each table, past the entries in use up to the full size, is 0, spare value bits too; nothing is changed.
// A function that another crate of the library calls may ask what the points before it have shown, which its caller proves; none is exported.

#![tactic(auto)]

ghost use Rattle.std.specs.Prelude.{◌≡◌, true, ◌&&◌, ◌≤◌, length, take, eqb};
ghost use Rattle.words.specs.Words.{word_count};
ghost use Rattle.written.specs.Lists.{all};
ghost use Rattle.written.specs.Limits.{narrow};
ghost use Rattle.written.specs.Lending.{lent_at};
ghost use Rattle.written.specs.Tables.{are_full};
ghost use Rattle.written.specs.Agreement.{counts_fit};
ghost use Rattle.machine.specs.Judging.{rest_right, spare_right, clause_rests, count_rests};

use tables::Tables;
use written::Counts;

// Every entry is 0. With no way out of the loop, several entries are taken at a time.
// Of marks `marked` has the same: one for both would ask a law of `|` and one of 0 for six lines.
fn all_zero(table: &[u16]) -> bool
    ensures { result ≡ all (λ x. eqb x 0) table.now }
{
    let mut joined: u16 = 0;
    for entry in table {
        joined |= *entry;
    }
    joined == 0
}

// Of a table of `full` entries, those from `from` on are 0.
fn rest_zero(table: &[u16], from: usize, full: usize) -> bool
    requires { (from ≤ full) × (full ≤ length table.now) }
    ensures { result ≡ rest_right from full table.now }
{
    all_zero(&table[from..full])
}

// The same of names.
fn names_rest(names: &[u64], from: usize, full: usize) -> bool
    requires { (from ≤ full) × (full ≤ length names.now) }
    ensures { result ≡ rest_right from full names.now }
{
    names[from..full].iter().all(|name| *name == 0)
}

// The same of value words: apart, since a test of 0 at any type would ask its bounds of a body of one line.
fn values_rest(words: &[u32], from: usize, full: usize) -> bool
    requires { (from ≤ full) × (full ≤ length words.now) }
    ensures { result ≡ rest_right from full words.now }
{
    words[from..full].iter().all(|word| *word == 0)
}

// The last value word has no bit past the last of n terms.
fn spare_zero(words: &[u32], n: usize) -> bool
    ensures { result ≡ spare_right n words.now }
{
    let k = n / 32;
    k >= words.len() || (words[k] >> (n % 32)) == 0
}

// Past those in use, up to the full size, the names, values, clauses and occurrences are 0.
fn clause_rests(
    n: Counts,
    names: &[u64],
    values: &[u32],
    starts: &[u16],
    literals: &[u16],
    occurrence_starts: &[u16],
    occurrences: &[u16],
) -> bool
    requires { (n.terms ≤ 2048) × (n.clauses ≤ 8192) × (n.literals ≤ 16384) × (2048 ≤ length names.now) × (64 ≤ length values.now)
        × (8193 ≤ length starts.now) × (16384 ≤ length literals.now) × (4097 ≤ length occurrence_starts.now) × (16384 ≤ length occurrences.now) }
    ensures { result ≡ clause_rests narrow n names.now values.now starts.now literals.now
        occurrence_starts.now occurrences.now }
{
    let terms = n.terms as usize;
    let words = (terms + 31) / 32;
    let held = n.literals as usize;
    names_rest(names, terms, 2048)
        && values_rest(values, words, 64)
        && rest_zero(starts, n.clauses as usize + 1, 8193)
        && rest_zero(literals, held, 16384)
        && rest_zero(occurrence_starts, 2 * terms + 1, 4097)
        && rest_zero(occurrences, held, 16384)
}

// Past those in use, up to the full size, the counts, the list and the places are 0.
fn count_rests(n: Counts, trues: &[u16], breaks: &[u16], uncovered: &[u16], places: &[u16]) -> bool
    requires { (n.terms ≤ 2048) × (n.clauses ≤ 8192) × (n.uncovered ≤ 8192) × (8192 ≤ length trues.now) × (2048 ≤ length breaks.now)
        × (8192 ≤ length uncovered.now) × (8192 ≤ length places.now) }
    ensures { result ≡ count_rests narrow n trues.now breaks.now uncovered.now places.now }
{
    let clauses = n.clauses as usize;
    rest_zero(trues, clauses, 8192)
        && rest_zero(breaks, n.terms as usize, 2048)
        && rest_zero(uncovered, n.uncovered as usize, 8192)
        && rest_zero(places, clauses, 8192)
}

// The rest is 0, spare value bits too.
pub fn rests_agree(n: Counts, tables: Tables) -> bool
    requires { let t = tables in (are_full narrow
        (lent_at t.names.now t.values.now t.starts.now t.literals.now t.occurrence_starts.now t.occurrences.now t.trues.now
        t.breaks.now t.uncovered.now t.places.now) ≡ true)
        × (counts_fit narrow n ≡ true) }
    ensures { let t = tables.entry in result ≡ (clause_rests narrow n t.names.now t.values.now t.starts.now t.literals.now t.occurrence_starts.now
        t.occurrences.now && count_rests narrow n t.trues.now t.breaks.now t.uncovered.now t.places.now
        && spare_right n.terms (take (word_count n.terms) t.values.now)) }
{
    let terms = n.terms as usize;
    let words = (terms + 31) / 32;
    clause_rests(
        n,
        tables.names,
        tables.values,
        tables.starts,
        tables.literals,
        tables.occurrence_starts,
        tables.occurrences,
    ) && count_rests(
        n,
        tables.trues,
        tables.breaks,
        tables.uncovered,
        tables.places,
    ) && spare_zero(&tables.values[..words], terms)
}
