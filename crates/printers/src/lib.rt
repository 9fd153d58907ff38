// The two programs over one day: the board's lines, and the sheet's pages. What each prints of an answer, and at the end of input.
#![tactic(auto)]

ghost use Rattle.std.specs.Prelude.{◌≡◌, length, if◌then◌else◌};
ghost use Rattle.lines.specs.Printers.{last_page};
ghost use Rattle.buffer.specs.Puts.{PutIf};
ghost use Rattle.answers.specs.Printed.{answer_fits};
ghost use Rattle.page.specs.Pages.{page_of};
ghost use Rattle.sheet.specs.Room.{page_length, page_fits};
ghost use Rattle.printers.specs.declared.Program.TheVariants.{Sheet};
ghost use Rattle.printers.specs.Prints.{next_number, PrintedIf, LinesPrinted};

use answers::{Answer, GivenUp};
use page::{Figures, Page};

// Which of the two is printed.
#[derive(Clone, Copy)]
pub enum Program {
    Board,
    Sheet,
}

// What a program knows between two answers: the number of the line that is answered next, and the sheet's page so far.
// What may not change: a struct and no enum of two printers, since `TakenIn` (running) bounds the number of every printer.
#[derive(Clone, Copy)]
pub struct Printer {
    pub program: Program,
    pub number: u64,
    pub page: Page,
}

// The number of the line behind this one, if this one's answer was printed; else its own.
fn number_after(number: u64, printed: bool) -> u64
    ensures { result ≡ (if printed then next_number number else number) }
{
    if printed {
        number.wrapping_add(1)
    } else {
        number
    }
}

// Prints an answer's lines, if any answer with so many tickets and grades fits there: that of the line with this number. Where they end.
pub fn print_lines(
    number: &mut u64,
    answer: Answer,
    given_up: GivenUp,
    out: &mut [u8],
    at: usize,
) -> usize
    ensures { let T = given_up.entry.tickets.now in
        let G = given_up.entry.grades.now in
        LinesPrinted number.old answer T G out.old at number.new result out.new }
{
    let fits = answers::answer_fits(given_up.tickets.len(), given_up.grades.len(), at, out.len());
    let end = answers::print_answer(*number, answer, given_up, out, at);
    *number = number_after(*number, fits);
    end
}

// Hands a closing to the page, and prints the page once it is full; where its print ends.
fn print_on_page(
    printer: &mut Printer,
    answer: Answer,
    given_up: GivenUp,
    out: &mut [u8],
    at: usize,
) -> usize
    requires { printer.old.program ≡ Sheet }
    ensures { let T = given_up.entry.tickets.now in
        let G = given_up.entry.grades.now in
        let fits = answer_fits (length T) (length G) at (length out.old) in
        PrintedIf fits printer.old answer T G out.old at printer.new result out.new }
{
    let tickets = given_up.tickets.len();
    if !answers::answer_fits(tickets, given_up.grades.len(), at, out.len()) {
        return at;
    }
    let Answer::Closed(closing) = answer else {
        return at;
    };
    let figures = Figures {
        slot: closing.slot,
        ticket: closing.ticket,
        grade: closing.grade as u32,
        listed: tickets as u32,
    };
    if printer.page.add(figures).is_err() {
        return at;
    }
    if !printer.page.is_full() {
        return at;
    }
    sheet::print_page(&printer.page, out, at)
}

// Prints an answer at `at`, if any with so many tickets and grades fits there; where its print ends. Else nothing is printed, and the printer is as it was.
pub fn print_by(
    printer: &mut Printer,
    answer: Answer,
    given_up: GivenUp,
    out: &mut [u8],
    at: usize,
) -> usize
    ensures { let T = given_up.entry.tickets.now in
        let G = given_up.entry.grades.now in
        let fits = answer_fits (length T) (length G) at (length out.old) in
        PrintedIf fits printer.old answer T G out.old at printer.new result out.new }
{
    match printer.program {
        Program::Board => print_lines(&mut printer.number, answer, given_up, out, at),
        Program::Sheet => print_on_page(printer, answer, given_up, out, at),
    }
}

// Prints a page that is not full, if there is a closing on it and the buffer has room for it; where its print ends.
pub fn print_last(page: &Page, out: &mut [u8], at: usize) -> usize
    ensures { let fits = page_fits at (length out.old) in
        PutIf fits page_length (last_page (page_of page.now)) out.old at result out.new }
{
    let count = page.closing_count();
    if count == 0 || page.is_full() {
        return at;
    }
    sheet::print_page(page, out, at)
}
