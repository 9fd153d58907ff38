// The print of the sheet's page, at its place in a buffer that the caller lends.
#![tactic(auto, unfolding(crate::specs::Room::page_fits, crate::specs::Room::page_length, crate::specs::Inner::Lines::line_length, lines::specs::Sheet::page_slots, lines::specs::Sheet::line_columns))]

ghost use Rattle.std.specs.Prelude.{◌≡◌, length};
ghost use Rattle.lines.specs.Sheet.{line_columns, page};
ghost use Rattle.buffer.specs.Puts.{PutIf};
ghost use Rattle.page.specs.Pages.{page_of};
ghost use Rattle.sheet.specs.Room.{page_length, page_fits};

use page::Page;

mod print;

// Columns of a line, the line end not counted.
pub const COLUMNS: usize = 24;

// The last column of each figure on the line of a slot. On the line of totals the number baked ends where a ticket does.
pub const SLOT_ENDS: usize = 7;

pub const TICKET_ENDS: usize = 18;

pub const GRADE_ENDS: usize = 20;

pub const GIVEN_UP_ENDS: usize = COLUMNS;

// Bytes of a page: a heading, the slots and the totals, each with its line end.
pub const PAGE_LENGTH: usize = (1 + Page::SLOTS + 1) * (COLUMNS + 1);

// Prints the page at `at`; where it ends. Where the buffer has no room for it nothing is printed, and that is `at`.
pub fn print_page(p: &Page, out: &mut [u8], at: usize) -> usize
    ensures { let fits = page_fits at (length out.old) in
        PutIf fits page_length (page (page_of p.now)) out.old at result out.new }
{
    if !buffer::room_for(PAGE_LENGTH, at, out.len()) {
        return at;
    }
    print::put_page(p, out, at)
}

// The constants are the numbers of the definitions.
fn limits()
    ensures columns { COLUMNS ≡ line_columns }
    ensures page_length { PAGE_LENGTH ≡ page_length }
{}
