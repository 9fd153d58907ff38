// The totals of a page.
#![tactic(auto, unfolding(lines::specs::Sheet::page_slots))]

ghost use Rattle.std.specs.Prelude.{◌≡◌};
ghost use Rattle.lines.specs.Sheet.{number_baked, number_given_up};
ghost use Rattle.page.specs.Pages.{page_of};

use page::Page;

// How many closings of a page baked a rack, and how many racks they gave up.
#[derive(Clone, Copy)]
pub struct Totals {
    pub baked: u64,
    pub listed: u64,
}

// The totals of the page.
pub fn totals_of(p: &Page) -> Totals
    ensures baked { result.baked ≡ number_baked (page_of p.now) }
    ensures given_up { result.listed ≡ number_given_up (page_of p.now) }
{
    let count = p.closing_count();
    let mut baked: u64 = 0;
    let mut listed: u64 = 0;
    for f in &p.closings[..count] {
        listed += f.listed as u64;
        if f.ticket != 0 {
            baked += 1;
        }
    }
    Totals { baked, listed }
}
