// What the program prints of an answer.
#![tactic(auto, unfolding(crate::specs::Printed::answer_room, board::specs::Limits::places_held, printing::specs::Lines::line_numbers, printing::specs::Lines::room))]

ghost use Rattle.std.specs.Prelude.{◌≡◌, ◌+◌, ◌*◌, ◌≤◌, length};
ghost use Rattle.lines.specs.Output.{printed_given_up, printed_closing, printed_answer};
ghost use Rattle.printing.specs.Lines.{room};
ghost use Rattle.buffer.specs.Puts.{PutWithin, PutIf};
ghost use Rattle.answers.specs.Printed.{jobs_of, closing_of, answer_of, answer_room, answer_fits};
ghost use Rattle.answers.specs.Inner.Fits.{Fits};

use board::{Board, Laxity, Slot};

// A slot closed: the ticket and grade baked, 0 and 0 where the slot stays empty, and the shortfall. The jobs given up stand beside it.
// What may not change: no `Option` for what was baked, since `print_answer` promises a line for every ticket and grade.
#[derive(Clone, Copy)]
pub struct Closing {
    pub slot: Slot,
    pub ticket: u32,
    pub grade: u8,
    pub shortfall: u32,
}

// The jobs that an answer gives up: the ticket of each, and its grade.
// Two slices, since a closing writes tickets and grades into two lists that it is lent. No invariant says that they are as long: what is printed is said of any
// two.
#[derive(Clone, Copy)]
pub struct GivenUp<'a> {
    pub tickets: &'a [u32],
    pub grades: &'a [u8],
}

// What a line is answered: the number of a refusal; the depth opened; the ticket admitted and its last slot; the least laxity that can be promised, 0 for none;
// the ticket withdrawn; the slot closed.
// What may not change: a refusal is a number and no `Refusal`, and a laxity no `Option`, since `print_answer` promises a line for every number and laxity.
#[derive(Clone, Copy)]
pub enum Answer {
    Refused(u8),
    Opened(u32),
    Admitted(u32, Slot),
    Promised(Laxity),
    Withdrawn(u32),
    Closed(Closing),
}

// Bytes that are enough for any answer: a B line, and a G line for each job that a board holds.
pub const ANSWER_ROOM: usize = (1 + Board::PLACES) * printing::LINE_ROOM;

// Prints a line for each job given up; where the last one ends.
fn print_given_up(slot: Slot, given_up: GivenUp, out: &mut [u8], at: usize) -> usize
    requires as_many { length given_up.grades.now ≡ length given_up.tickets.now }
    requires has_room { at + length given_up.tickets.now * room ≤ length out.old }
    ensures { let lines = printed_given_up slot.0 (jobs_of given_up.entry.tickets.now given_up.entry.grades.now) in
        PutWithin (length given_up.entry.tickets.now * room) lines out.old at result out.new }
{
    let mut end = at;
    for (ticket, grade) in given_up.tickets.iter().zip(given_up.grades) {
        let numbers = [slot.0 as u64, *ticket as u64, *grade as u64];
        end = printing::print_at(out, end, b'G', &numbers);
    }
    end
}

// Prints a closing: its B line, and then the G lines.
fn print_closing(closing: Closing, given_up: GivenUp, out: &mut [u8], at: usize) -> usize
    requires { Fits given_up.tickets.now given_up.grades.now at out.old }
    ensures { let lines = printed_closing (closing_of closing given_up.entry.tickets.now given_up.entry.grades.now) in
        PutWithin answer_room lines out.old at result out.new }
{
    let numbers = [
        closing.slot.0 as u64,
        closing.ticket as u64,
        closing.grade as u64,
        given_up.tickets.len() as u64,
        closing.shortfall as u64,
    ];
    let mid = printing::print_at(out, at, b'B', &numbers);
    print_given_up(closing.slot, given_up, out, mid)
}

// Whether an answer may be printed: with no more jobs than a board holds, as many grades as tickets, and room for any answer.
#[tactic(auto, using(std::proofs::lemmas::Bool::Decides::nat_tests), unfolding(crate::specs::Printed::answer_fits, crate::specs::Printed::answer_room, board::specs::Limits::places_held, printing::specs::Lines::room))]
pub fn answer_fits(tickets: usize, grades: usize, at: usize, end: usize) -> bool
    ensures { result ≡ answer_fits tickets grades at end }
{
    tickets <= Board::PLACES && grades == tickets && buffer::room_for(ANSWER_ROOM, at, end)
}

// Prints an answer where there is room for any.
fn print_fitting(number: u64, answer: Answer, given_up: GivenUp, out: &mut [u8], at: usize) -> usize
    requires { Fits given_up.tickets.now given_up.grades.now at out.old }
    ensures { let lines = printed_answer number (answer_of answer given_up.entry.tickets.now given_up.entry.grades.now) in
        PutWithin answer_room lines out.old at result out.new }
{
    match answer {
        Answer::Refused(n) => printing::print_at(out, at, b'R', &[number, n as u64]),
        Answer::Opened(depth) => printing::print_at(out, at, b'D', &[depth as u64]),
        Answer::Admitted(ticket, last) => {
            printing::print_at(out, at, b'A', &[ticket as u64, last.0 as u64])
        }
        Answer::Promised(laxity) => printing::print_at(out, at, b'Q', &[laxity.0 as u64]),
        Answer::Withdrawn(ticket) => printing::print_at(out, at, b'W', &[ticket as u64]),
        Answer::Closed(closing) => print_closing(closing, given_up, out, at),
    }
}

// Prints the answer to the line of this number at `at`; where it ends. Where it may not be printed nothing is, and that is `at`. Number, answer and jobs in one
// struct would be no plainer: each of the three is made by another call.
pub fn print_answer(
    number: u64,
    answer: Answer,
    given_up: GivenUp,
    out: &mut [u8],
    at: usize,
) -> usize
    ensures { let T = given_up.entry.tickets.now in
        let G = given_up.entry.grades.now in
        let fits = answer_fits (length T) (length G) at (length out.old) in
        PutIf fits answer_room (printed_answer number (answer_of answer T G)) out.old at result out.new }
{
    let tickets = given_up.tickets.len();
    let grades = given_up.grades.len();
    if !answer_fits(tickets, grades, at, out.len()) {
        return at;
    }
    print_fitting(number, answer, given_up, out, at)
}
