// A page printed, line by line, where there is room for it.
ghost use mathlib.Core.List.{flatten, map};
ghost use Rattle.std.specs.Prelude.{◌+◌, ◌*◌, ◌≤◌, length, get_or};
ghost use Rattle.lines.specs.Sheet.{page_slots, slot_line, blank_line, totals_line, page};
ghost use Rattle.buffer.specs.Puts.{PutWithin};
ghost use Rattle.page.specs.Pages.{figures_held, page_of};
ghost use Rattle.sheet.specs.Room.{page_length};
ghost use Rattle.sheet.specs.Inner.Lines.{line_length, slot_lines};

use crate::{GIVEN_UP_ENDS, GRADE_ENDS, SLOT_ENDS, TICKET_ENDS};
use page::{Figures, Page};

// Puts the line of a slot; where it ends.
// No plainer as a loop over cells: its contract would have to ask for columns that rise to the line's last.
fn put_slot_line(f: Figures, out: &mut [u8], at: usize) -> usize
    requires { at + line_length ≤ length out.old }
    ensures { PutWithin line_length (slot_line (figures_held f)) out.old at result out.new }
{
    let ticket_at = columns::put_right(out, at, SLOT_ENDS, f.slot.0 as u64);
    let grade_at = columns::put_right(out, ticket_at, TICKET_ENDS - SLOT_ENDS, f.ticket as u64);
    let given_up_at = columns::put_right(out, grade_at, GRADE_ENDS - TICKET_ENDS, f.grade as u64);
    let end = columns::put_right(
        out,
        given_up_at,
        GIVEN_UP_ENDS - GRADE_ENDS,
        f.listed as u64,
    );
    buffer::put_bytes(out, end, b"\n")
}

// Puts the line of the slot at this place of the page with these closings, a line of spaces where it has none; where it ends.
fn put_place(closings: &[Figures], i: usize, out: &mut [u8], at: usize) -> usize
    requires { at + line_length ≤ length out.old }
    ensures { PutWithin line_length (get_or (map slot_line (map figures_held closings.now)) i blank_line) out.old at result out.new }
{
    match closings.get(i) {
        Some(f) => put_slot_line(*f, out, at),
        None => buffer::put_bytes(out, at, b"                        \n"),
    }
}

// Puts a line for each slot of a page; where the last one ends.
fn put_places(p: &Page, out: &mut [u8], at: usize) -> usize
    requires { at + page_slots * line_length ≤ length out.old }
    ensures { PutWithin (page_slots * line_length) (flatten (slot_lines (page_of p.now))) out.old at result out.new }
{
    let count = p.closing_count();
    let closings = &p.closings[..count];
    let mut end = at;
    for i in 0..Page::SLOTS {
        end = put_place(closings, i, out, end);
    }
    end
}

// Puts the line of totals; where it ends.
fn put_totals(p: &Page, out: &mut [u8], at: usize) -> usize
    requires { at + line_length ≤ length out.old }
    ensures { PutWithin line_length (totals_line (page_of p.now)) out.old at result out.new }
{
    let totals = totals::totals_of(p);
    let given_up_at = columns::put_right(out, at, TICKET_ENDS, totals.baked);
    let end = columns::put_right(out, given_up_at, GIVEN_UP_ENDS - TICKET_ENDS, totals.listed);
    buffer::put_bytes(out, end, b"\n")
}

// Puts the page: a heading, its slots and its totals; where it ends.
pub(crate) fn put_page(p: &Page, out: &mut [u8], at: usize) -> usize
    requires { at + page_length ≤ length out.old }
    ensures { PutWithin page_length (page (page_of p.now)) out.old at result out.new }
{
    let slots_at = buffer::put_bytes(out, at, b"   SLOT     TICKET G OUT\n");
    let totals_at = put_places(p, out, slots_at);
    put_totals(p, out, totals_at)
}
