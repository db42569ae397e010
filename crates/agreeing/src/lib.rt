// Whether lent tables agree (reason 12), for any contents, any lengths and any counts; nothing is changed. The points are tested in the
// document's order, and a function here may ask what the points before it have shown.

#![tactic(auto)]

ghost use Rattle.std.specs.Prelude.{◌≡◌, true, ◌&&◌};
ghost use Rattle.written.specs.Limits.{narrow};
ghost use Rattle.written.specs.Lending.{lent_at};
ghost use Rattle.written.specs.Tables.{are_full};
ghost use Rattle.written.specs.Agreement.{counts_fit, agree};

use tables::Tables;
use written::Counts;

// ---- counts

// The counts are within their limits, and at least one clause stands.
fn counts_fit(n: Counts) -> bool
    ensures { result ≡ counts_fit narrow n }
{
    (n.terms <= 2048)
        & (n.clauses <= 8192)
        & (n.literals <= 16384)
        & (n.uncovered <= 8192)
        & (n.clauses > 0)
}

// ---- all points together

// Counts that fit agree with full tables.
fn points_agree(n: Counts, tables: Tables) -> bool
    requires { let t = tables in (are_full narrow
        (lent_at t.names.now t.values.now t.starts.now t.literals.now t.occurrence_starts.now t.occurrences.now t.trues.now
        t.breaks.now t.uncovered.now t.places.now) ≡ true)
        × (counts_fit narrow n ≡ true) }
    ensures { let t = tables.entry in result ≡ agree narrow n
        (lent_at t.names.now t.values.now t.starts.now t.literals.now t.occurrence_starts.now t.occurrences.now t.trues.now
        t.breaks.now t.uncovered.now t.places.now) }
{
    agreeing_file::clauses_hold(n, tables)
        && agreeing_counts::counts_agree(n, tables)
        && agreeing_rest::rests_agree(n, tables)
}

// The tables are full and agree.
pub fn agrees(n: Counts, tables: Tables) -> bool
    ensures { let t = tables.entry in let u = lent_at t.names.now t.values.now t.starts.now t.literals.now t.occurrence_starts.now t.occurrences.now t.trues.now
        t.breaks.now t.uncovered.now t.places.now in
        result ≡ (are_full narrow u && agree narrow n u) }
{
    tables.are_full() && counts_fit(n) && points_agree(n, tables)
}
