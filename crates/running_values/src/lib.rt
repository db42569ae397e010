// What is printed for a numbered file, in the form of the solvers' competition, as bytes in a lent buffer.
// Each function asks that what it writes fits, by one record, which its caller proves; none is exported.

#![tactic(auto)]

ghost use Rattle.std.specs.Prelude.{◌≡◌, ◌≤◌, ◌++◌};
ghost use Rattle.words.specs.Words.{bit_at};
ghost use Rattle.written.specs.declared.Form.TheVariants.{Numbered};
ghost use Rattle.written.specs.Lists.{list_of};
ghost use Rattle.written.specs.Competition.{signed_number, value_lines, tour_told, refusal_as};
ghost use Rattle.pages.specs.Pages.{page, page_of, put, CanPut};
ghost use Rattle.running_values.specs.Valuing.{line_in, line_end, found_values, up_lines, competed_in};

use pages::Page;
use written::{Fault, Refusal, Tour, Walked};

// A variable's number, minus before one at 0.
fn put_signed(page: &mut Page, value: u32, number: u32)
    requires { CanPut (signed_number value number) (page_of page.old) }
    ensures same_buffer { page.new.out.ghost_name ≡ page.old.out.ghost_name }
    ensures bytes { page_of page.new ≡ put (signed_number value number) (page_of page.old) }
{
    if value == 0 {
        page.put_byte(b'-');
    }
    page.put_number(number);
}

// One line: the variables of the terms from `from` on, up to `to`.
fn put_line_of(page: &mut Page, from: u32, to: u32, values: &[u32])
    requires { CanPut (line_in from to values.now) (page_of page.old) }
    ensures same_buffer { page.new.out.ghost_name ≡ page.old.out.ghost_name }
    ensures bytes { page_of page.new ≡ put (line_in from to values.now) (page_of page.old) }
{
    page.put_byte(b'v');
    for t in from..to {
        page.put_byte(b' ');
        put_signed(page, words::value(values, t as usize), t + 1);
    }
    page.put_byte(b'\n');
}

// Where the line that begins with the term `from` ends: after ten, or with the last.
fn line_end(from: u32, terms: u32) -> u32
    requires { from ≤ terms }
    ensures { result ≡ line_end from terms }
{
    from + (terms - from).min(10)
}

// Every variable in order, ten numbers a line, and the last line.
fn put_values(page: &mut Page, terms: u32, values: &[u32])
    requires { CanPut (value_lines (list_of terms (bit_at values.now))) (page_of page.old) }
    ensures same_buffer { page.new.out.ghost_name ≡ page.old.out.ghost_name }
    ensures bytes { page_of page.new ≡ put (value_lines (list_of terms (bit_at values.now))) (page_of page.old) }
{
    for i in 0..terms.div_ceil(10) {
        let from = 10 * i;
        put_line_of(page, from, line_end(from, terms), values);
    }
    page.put_all(b"v 0\n");
}

// A walk's walks and its flips, as comments, and how it ended.
fn put_tour(page: &mut Page, tour: Tour, how: &[u8])
    requires { CanPut (tour_told tour.walks tour.flips ++ how.now) (page_of page.old) }
    ensures same_buffer { page.new.out.ghost_name ≡ page.old.out.ghost_name }
    ensures bytes { page_of page.new ≡ put (tour_told tour.walks tour.flips ++ how.now) (page_of page.old) }
{
    page.put_line(b"c walks=", tour.walks);
    page.put_line(b"c flips=", tour.flips);
    page.put_all(how);
}

// The lines of a walk that found.
fn found(out: &mut [u8], tour: Tour, values: &[u32]) -> usize
    requires { CanPut (found_values tour values.now) (page 0 out.old) }
    ensures { page result out.new ≡ put (found_values tour values.now) (page 0 out.old) }
{
    let mut page = Page::new(out);
    put_tour(&mut page, tour, b"s SATISFIABLE\n");
    put_values(&mut page, tour.counts.terms, values);
    page.len()
}

// The lines of one that gave up.
fn gave_up(out: &mut [u8], tour: Tour) -> usize
    requires { CanPut (up_lines tour) (page 0 out.old) }
    ensures { page result out.new ≡ put (up_lines tour) (page 0 out.old) }
{
    let mut page = Page::new(out);
    put_tour(&mut page, tour, b"s UNKNOWN\n");
    page.len()
}

// A refusal, as comments: whether the clauses can be covered is not known.
pub fn refusal(out: &mut [u8], e: Fault) -> usize
    requires { CanPut (refusal_as Numbered e) (page 0 out.old) }
    ensures { page result out.new ≡ put (refusal_as Numbered e) (page 0 out.old) }
{
    let mut page = Page::new(out);
    page.put_all(b"c result=refused\n");
    page.put_line(b"c reason=", reasons::number_of(e.reason));
    page.put_line(b"c line=", e.line);
    page.put_all(b"s UNKNOWN\n");
    page.len()
}

// What a walk's answer prints; a refused one has no line.
pub fn report(out: &mut [u8], answer: Result<Walked, Refusal>, values: &[u32]) -> usize
    requires { CanPut (competed_in answer values.now) (page 0 out.old) }
    ensures { page result out.new ≡ put (competed_in answer values.now) (page 0 out.old) }
{
    match answer {
        Ok(Walked::Found(tour)) => found(out, tour, values),
        Ok(Walked::GaveUp(tour)) => gave_up(out, tour),
        Err(e) => refusal(
            out,
            Fault {
                reason: e.reason,
                line: 0,
            },
        ),
    }
}
