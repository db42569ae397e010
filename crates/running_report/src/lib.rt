// The lines that are printed, as bytes in a lent buffer.
// Each function asks that what it writes fits, by one record, which its caller proves; none is exported.

#![tactic(auto)]

ghost use Rattle.std.specs.Prelude.{◌≡◌};
ghost use Rattle.written.specs.Limits.{narrow};
ghost use Rattle.written.specs.Printed.{refusal};
ghost use Rattle.pages.specs.Pages.{page, page_of, put, CanPut};
ghost use Rattle.running_report.specs.Reporting.{answer_in, CanName, tour_lines, found_lines, CanFind, gave_up_lines, report_in, CanReport};

use pages::Page;
use written::{Fault, Refusal, Tour, Walked};

// Every term in order, one space between.
fn put_answer(page: &mut Page, terms: usize, names: &[u64], values: &[u32])
    requires { CanName terms names.now values.now (page_of page.old) }
    ensures same_buffer { page.new.out.ghost_name ≡ page.old.out.ghost_name }
    ensures bytes { page_of page.new ≡ put (answer_in terms names.now values.now) (page_of page.old) }
{
    if terms == 0 {
        return;
    }
    page.put_term(words::value(values, 0), names[0]);
    for t in 1..terms {
        page.put_byte(b' ');
        page.put_term(words::value(values, t), names[t]);
    }
}

// "Refusal prints three lines".
pub fn refusal(out: &mut [u8], e: Fault) -> usize
    requires { CanPut (refusal e) (page 0 out.old) }
    ensures { page result out.new ≡ put (refusal e) (page 0 out.old) }
{
    let mut page = Page::new(out);
    page.put_all(b"result=refused\n");
    page.put_line(b"reason=", reasons::number_of(e.reason));
    page.put_line(b"line=", e.line);
    page.len()
}

// How a walk ended, its walks and its flips.
fn put_tour(page: &mut Page, how: &[u8], tour: Tour)
    requires { CanPut (tour_lines how.now tour) (page_of page.old) }
    ensures same_buffer { page.new.out.ghost_name ≡ page.old.out.ghost_name }
    ensures bytes { page_of page.new ≡ put (tour_lines how.now tour) (page_of page.old) }
{
    page.put_all(how);
    page.put_line(b"walks=", tour.walks);
    page.put_line(b"flips=", tour.flips);
}

// The five lines of a walk that found.
fn found(out: &mut [u8], tour: Tour, names: &[u64], values: &[u32]) -> usize
    requires { CanFind narrow tour names.now values.now (page 0 out.old) }
    ensures { page result out.new ≡ put (found_lines narrow tour names.now values.now) (page 0 out.old) }
{
    let mut page = Page::new(out);
    put_tour(&mut page, b"result=found\n", tour);
    page.put_line(b"chosen=", words::chosen(values, 64));
    page.put_all(b"answer=");
    put_answer(&mut page, tour.counts.terms as usize, names, values);
    page.put_byte(b'\n');
    page.len()
}

// The five lines of one that gave up.
fn gave_up(out: &mut [u8], tour: Tour) -> usize
    requires { CanPut (gave_up_lines tour) (page 0 out.old) }
    ensures { page result out.new ≡ put (gave_up_lines tour) (page 0 out.old) }
{
    let mut page = Page::new(out);
    put_tour(&mut page, b"result=gaveup\n", tour);
    page.put_all(b"chosen=0\n");
    page.put_all(b"answer=~?\n");
    page.len()
}

// What a walk's answer prints; a refused one has no line.
pub fn report(
    out: &mut [u8],
    answer: Result<Walked, Refusal>,
    names: &[u64],
    values: &[u32],
) -> usize
    requires { CanReport narrow answer names.now values.now (page 0 out.old) }
    ensures { page result out.new ≡ put (report_in narrow answer names.now values.now) (page 0 out.old) }
{
    match answer {
        Ok(Walked::Found(tour)) => found(out, tour, names, values),
        Ok(Walked::GaveUp(tour)) => gave_up(out, tour),
        Err(e) => refusal(
            out,
            Fault {
                reason: e.reason,
                line: 0,
            },
        ),
    }
}
