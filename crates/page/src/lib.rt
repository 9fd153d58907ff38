// The page of the sheet that is being filled: the closings on it, and one more handed to it.
#![tactic(auto, unfolding(crate::specs::Pages::next_place, lines::specs::Sheet::page_slots, lines::specs::Sheet::most_given_up))]

ghost use Rattle.std.specs.Prelude.{◌≡◌, ◌≤◌, length};
ghost use Rattle.board.specs.Refusals.{refusal_number};
ghost use Rattle.lines.specs.Sheet.{page_slots, most_given_up, sheet_number, is_full, page_after};
ghost use Rattle.page.specs.Pages.{figures_held, page_of, new_page, next_place, handed_over, handed};

use board::{Board, Refusal, Slot};

// A closing handed to the sheet: its slot, the ticket and grade baked, 0 and 0 where the slot stays empty, and how many racks are given up.
#[repr(C)]
#[derive(Clone, Copy)]
pub struct Figures {
    pub slot: Slot,
    pub ticket: u32,
    pub grade: u32,
    pub listed: u32,
}

// A page: the closings on it are the first `count`.
// The C interface: an array and a count, as C holds the page. C may hand over any count; of one past the slots the page is full.
#[repr(C)]
#[derive(Clone, Copy)]
pub struct Page {
    pub count: usize,
    pub closings: [Figures; Page::SLOTS],
}

// What the sheet answers to a closing: refusal 16 and the page as it was, or 0 and the page with the closing.
// The C interface: a number, 0 for none, beside the page.
#[repr(C)]
#[derive(Clone, Copy)]
pub struct HandedOver {
    pub refusal: u8,
    pub page: Page,
}

impl Figures {
    // Refused are a slot past the book's last, a grade that no depth has, and more racks given up than a line may show.
    fn check(self) -> Result<(), Refusal>
        ensures { refusal_number result ≡ sheet_number (figures_held self) }
    {
        if Board::LAST_SLOT < self.slot.0
            || (1u32 << Board::DEEPEST) <= self.grade
            || Page::MOST_GIVEN_UP < self.listed
        {
            return Err(Refusal::BadFigures);
        }
        Ok(())
    }
}

impl Page {
    // Slots of a page.
    pub const SLOTS: usize = 48;

    // The most racks given up in a slot.
    pub const MOST_GIVEN_UP: u32 = 255;

    // A page without closings.
    pub fn new() -> Page
        ensures { result ≡ new_page }
    {
        let none = Figures {
            slot: Slot(0),
            ticket: 0,
            grade: 0,
            listed: 0,
        };
        Page {
            count: 0,
            closings: [none; Page::SLOTS],
        }
    }

    // The place of the next closing: on a full page the first, since a new page begins.
    fn next_place(&self) -> usize
        ensures { result ≡ next_place self.now.count }
    {
        if Page::SLOTS <= self.count {
            return 0;
        }
        self.count
    }

    // Takes a closing more. A full page takes no more: the closing begins the next one, and is alone on it. Where it is refused the page is as it was.
    pub fn add(&mut self, closing: Figures) -> Result<(), Refusal>
        ensures answer { handed result self.new ≡ handed_over self.old closing }
        ensures closings { page_of self.new ≡ page_after (page_of self.old) (figures_held closing) }
    {
        closing.check()?;
        let at = self.next_place();
        self.closings[at] = closing;
        self.count = at + 1;
        Ok(())
    }

    // How many closings are on the page.
    pub fn closing_count(&self) -> usize
        ensures { (result ≡ length (page_of self.now)) × (result ≤ page_slots) }
    {
        self.count.min(Page::SLOTS)
    }

    // Whether the page is full.
    pub fn is_full(&self) -> bool
        ensures { result ≡ is_full (page_of self.now) }
    {
        Page::SLOTS <= self.closing_count()
    }
}

// Hands a closing to the page, as `add` takes it.
pub fn hand_over(page: Page, closing: Figures) -> HandedOver
    ensures answer { result ≡ handed_over page closing }
    ensures closings { page_of result.page ≡ page_after (page_of page) (figures_held closing) }
{
    let mut after = page;
    let refusal = match after.add(closing) {
        Ok(()) => 0,
        Err(refusal) => refusal.number(),
    };
    HandedOver {
        refusal,
        page: after,
    }
}

// The constants are the numbers of the definitions.
fn limits()
    ensures slots { Page.SLOTS ≡ page_slots }
    ensures most_given_up { Page.MOST_GIVEN_UP ≡ most_given_up }
{}
