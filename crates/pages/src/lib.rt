// The calls of the sheet's pages.
#![tactic(auto)]

ghost use Rattle.std.specs.Prelude.{◌≡◌, length};
ghost use Rattle.lines.specs.Sheet.{page, is_full, page_after};
ghost use Rattle.buffer.specs.Puts.{PutIf};
ghost use Rattle.page.specs.Pages.{figures_held, page_of, new_page, handed_over};
ghost use Rattle.sheet.specs.Room.{page_length, page_fits};

use page::{Figures, HandedOver, Page};

#[unsafe(no_mangle)]
pub extern "C" fn oven_page_new() -> Page
    ensures { result ≡ new_page }
{
    Page::new()
}

#[unsafe(no_mangle)]
pub extern "C" fn oven_page_hand_over(p: Page, closing: Figures) -> HandedOver
    ensures answer { result ≡ handed_over p closing }
    ensures closings { page_of result.page ≡ page_after (page_of p) (figures_held closing) }
{
    page::hand_over(p, closing)
}

#[unsafe(no_mangle)]
pub extern "C" fn oven_page_full(p: Page) -> bool
    ensures { result ≡ is_full (page_of p) }
{
    p.is_full()
}

// Prints the page at the start of the buffer; how many bytes it has, or 0 where there is no room for it, as the C interface has it.
#[unsafe(no_mangle)]
pub extern "C" fn oven_page_print(p: Page, out: &mut [u8]) -> usize
    ensures { let fits = page_fits 0 (length out.old) in
        PutIf fits page_length (page (page_of p)) out.old 0 result out.new }
{
    sheet::print_page(&p, out, 0)
}
