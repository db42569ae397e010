// What is printed by the form of the text: our own lines, or the competition's. Two ways, both here: a trait for them would be no plainer.
// Each function asks that what it writes fits, by one record, which its caller proves; none is exported.

#![tactic(auto)]

ghost use Rattle.std.specs.Prelude.{◌≡◌};
ghost use Rattle.written.specs.Limits.{narrow};
ghost use Rattle.written.specs.Competition.{refusal_as};
ghost use Rattle.pages.specs.Pages.{page, put, CanPut};
ghost use Rattle.running_forms.specs.Reporting.{report_by, CanReportBy};

use written::{Fault, Form, Refusal, Walked};

// A refusal's lines.
pub fn refusal(form: Form, out: &mut [u8], e: Fault) -> usize
    requires { CanPut (refusal_as form e) (page 0 out.old) }
    ensures { page result out.new ≡ put (refusal_as form e) (page 0 out.old) }
{
    match form {
        Form::Own => running_report::refusal(out, e),
        Form::Numbered => running_values::refusal(out, e),
    }
}

// What a walk's answer prints.
pub fn report(
    form: Form,
    out: &mut [u8],
    answer: Result<Walked, Refusal>,
    names: &[u64],
    values: &[u32],
) -> usize
    requires { CanReportBy form narrow answer names.now values.now (page 0 out.old) }
    ensures { page result out.new ≡ put (report_by form narrow answer names.now values.now) (page 0 out.old) }
{
    match form {
        Form::Own => running_report::report(out, answer, names, values),
        Form::Numbered => running_values::report(out, answer, values),
    }
}
