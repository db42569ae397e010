// The call of a walk: its tests, then the walks, or a refusal.

#![tactic(auto)]

ghost use Rattle.std.specs.Prelude.{◌≡◌};
ghost use Rattle.written.specs.Limits.{narrow};
ghost use Rattle.written.specs.Lending.{lent_at};
ghost use Rattle.written.specs.Orders.{in_range};
ghost use Rattle.written.specs.Outcomes.{leaves, walk_of};
ghost use Rattle.walking_call.specs.Tests.{tests_of};

use tables::Tables;
use written::{Counts, Order, Reason, Refusal, Walked};

// Every number of the order is in its range.
fn in_range(order: Order) -> bool
    ensures { result ≡ in_range order }
{
    order.seed != 0
        && order.flips <= 100_000
        && (1..=1000).contains(&order.walks)
        && order.bias <= 1000
        && order.even <= 1
}

// The tests, in their order: 1, 11, 12.
fn verdict(order: Order, n: Counts, tables: Tables, marks: &[u8]) -> Result<(), Reason>
    ensures { let t = tables.entry in result ≡ tests_of narrow order n
        (lent_at t.names.now t.values.now t.starts.now t.literals.now t.occurrence_starts.now t.occurrences.now t.trues.now
        t.breaks.now t.uncovered.now t.places.now)
        marks.now }
{
    if !tables.all_full(marks) {
        return Err(Reason::TableTooShort);
    }
    if !in_range(order) {
        return Err(Reason::OutOfRange);
    }
    if !marked::agrees(n, tables, marks) {
        return Err(Reason::TablesDisagree);
    }
    Ok(())
}

// The walks of an order, or a refusal that changes nothing.
pub fn walk(
    order: Order,
    n: Counts,
    names: &[u64],
    values: &mut [u32],
    starts: &[u16],
    literals: &[u16],
    occurrence_starts: &[u16],
    occurrences: &[u16],
    trues: &mut [u16],
    breaks: &mut [u16],
    uncovered: &mut [u16],
    places: &mut [u16],
    marks: &[u8],
) -> Result<Walked, Refusal>
    ensures { leaves result (lent_at names.now values.new starts.now literals.now occurrence_starts.now occurrences.now trues.new breaks.new
        uncovered.new places.new) marks.now
        ≡ walk_of narrow order n (lent_at names.now values.old starts.now literals.now occurrence_starts.now occurrences.now trues.old breaks.old
        uncovered.old places.old)
        marks.now }
{
    let tables = Tables {
        names,
        values,
        starts,
        literals,
        occurrence_starts,
        occurrences,
        trues,
        breaks,
        uncovered,
        places,
    };
    verdict(order, n, tables, marks).map_err(|reason| Refusal { reason, counts: n })?;
    Ok(walking::walk_tested(
        order,
        n,
        names,
        values,
        starts,
        literals,
        occurrence_starts,
        occurrences,
        trues,
        breaks,
        uncovered,
        places,
        marks,
    ))
}
