// Names to term numbers by slots: a slot holds 0, or a term's number counted from 1. A name has a home among the first slots, and is looked for
// from there upwards; there are as many slots after the homes as there may be names, and one more, so no search comes to the end.

#![tactic(auto)]

ghost use Rattle.std.specs.Prelude.{◌≡◌, ◌+◌, ◌≤◌, ◌<◌, length, take, set};
ghost use Rattle.written.specs.Limits.{narrow};
ghost use Rattle.machine.specs.Slots.{home_of, Indexed};
ghost use Rattle.names.specs.Finding.{homes, Finds};

// The slot from which a name is looked for.
fn home(name: u64) -> usize
    ensures { result ≡ home_of homes name }
{
    (name % 1000003 * 617 % 6067) as usize
}

// A name among the first `terms` of the names: its term, or the slot where it would go.
pub fn find(names: &[u64], slots: &[u16], terms: usize, name: u64) -> Result<usize, usize>
    requires { (terms ≤ length names.now) × Indexed homes narrow.terms (take terms names.now) slots.now }
    ensures { Finds homes (take terms names.now) slots.now name result }
{
    let mut s = home(name);
    // Not a `for` up to the slots' end: its test at each slot, which the proof has no need of, is a seventh of a search among names of one home.
    loop {
        let k = usize::from(slots[s]);
        if k == 0 {
            return Err(s);
        }
        let t = k - 1;
        if names[t] == name {
            return Ok(t);
        }
        s += 1;
    }
}

// A new name, put after those known and into the slot where the search for it ended.
pub fn add(names: &mut [u64], slots: &mut [u16], terms: usize, slot: usize, name: u64)
    requires { (terms < length names.old) × (slot < length slots.old) × (terms + 1 < 65536) }
    ensures { (names.new ≡ set names.old terms name) × (slots.new ≡ set slots.old slot (terms + 1)) }
{
    names[terms] = name;
    slots[slot] = (terms + 1) as u16;
}
