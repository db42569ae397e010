// A text of either form drafted into cleared tables: clause text by its tokens, numbered text by its numbers. Two ways, both here, and no trait.

#![tactic(auto)]

ghost use Rattle.written.specs.Limits.{narrow};
ghost use Rattle.written.specs.Numbered.{read_by};
ghost use Rattle.reading_lines.specs.Drafting.{desk_at};
ghost use Rattle.reading_end.specs.Drawn.{CanLay, Laying};

use reading_lines::Place;
use written::{Fault, Form};

// Stamps stand in the break counts, slots in the places; numbered text leaves the slots as they are.
pub fn draft(
    form: Form,
    text: &[u8],
    names: &mut [u64],
    starts: &mut [u16],
    literals: &mut [u16],
    stamps: &mut [u16],
    slots: &mut [u16],
) -> Result<Place, Fault>
    requires { CanLay narrow text.now (desk_at names.old starts.old literals.old stamps.old slots.old) }
    ensures { Laying narrow (read_by form narrow text.now) (desk_at names.old starts.old literals.old stamps.old slots.old)
        (desk_at names.new starts.new literals.new stamps.new slots.new) result }
{
    match form {
        Form::Own => reading_lines::draft(text, names, starts, literals, stamps, slots),
        Form::Numbered => numbering::draft(text, names, starts, literals, stamps),
    }
}
