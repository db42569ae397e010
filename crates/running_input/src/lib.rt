// An input before any table is touched: too long, refused by its sheet, or an order and the place where its text begins.

#![tactic(auto)]

ghost use Rattle.std.specs.Prelude.{◌≡◌};
ghost use Rattle.written.specs.Limits.{narrow};
ghost use Rattle.running_input.specs.Outsets.{outset_of};

use written::{Fault, Reason, Sheet};

// How a run sets out: three ways and no Result, since too long an input leaves tables of 0 and a refused sheet leaves them as they were.
#[derive(Clone, Copy)]
pub enum Outset {
    Long(Fault),
    Refused(Fault),
    Begins(Sheet),
}

// The tests before a text is read, in their order: the whole input's size, then its sheet.
pub fn set_out(input: &[u8]) -> Outset
    ensures { result ≡ outset_of narrow input.now }
{
    if 65536 < input.len() {
        return Outset::Long(Fault {
            reason: Reason::TextTooLong,
            line: 0,
        });
    }
    match running_sheet::sheet(input) {
        Err(e) => Outset::Refused(e),
        Ok(s) => Outset::Begins(s),
    }
}
